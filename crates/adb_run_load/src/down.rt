//! Counting the bytes that are put to clients.

ghost use Rattle.std.specs.Prelude.{◌≡◌, ◌≢◌, ◌≤◌, ℕ, [], Some, OnOk};
ghost use Rattle.adb_outside.specs.Tables.{at, Puts};
ghost use Rattle.adb_run_load.specs.Counted.{AddsDown, Hands, IsDown, lead_at};

use adb_capture::Entry;
use std::alloc::{AllocError, Global};
use std::collections::BTreeMap;

/// The number of bytes of the leading replies to a client of a load.
pub(crate) const LEAD_LEN: usize = 8;

/// The count of bytes that were put to clients after the leading replies, and how much of the
/// replies is still to be put to each client. A client is held only while there is such a rest.
#[derive(Drop)]
pub(crate) struct Down {
    pub total: u64,
    pub leads: BTreeMap<u32, usize>,
}

impl Down {
    /// Returns the state before any client came.
    pub(crate) fn new(alloc: Global) -> Down
        ensures { IsDown [] result }
    {
        Down {
            total: 0,
            leads: BTreeMap::new(alloc),
        }
    }

    /// Counts the next entry.
    pub(crate) fn add(&mut self, entry: &Entry) -> Result<(), AllocError>
        ensures { OnOk result (AddsDown entry.now self.old self.new) }
    {
        match entry {
            Entry::Join { client } | Entry::Enter { client, .. } => came(&mut self.leads, *client),
            Entry::Put { client, bytes } => {
                self.put(*client, bytes.len());
                Ok(())
            }
            _ => Ok(()),
        }
    }

    /// Counts `size` bytes that were put to a client.
    fn put(&mut self, client: u32, size: usize)
        ensures { Hands client size self.old self.new }
    {
        let lead = lead_of(&self.leads, client);
        set_lead(&mut self.leads, client, lead.saturating_sub(size));
        self.total = self.total.saturating_add(size.saturating_sub(lead) as u64);
    }
}

/// Adds a client that came.
fn came(leads: &mut BTreeMap<u32, usize>, client: u32) -> Result<(), AllocError>
    ensures { OnOk result (Puts client (Some LEAD_LEN) leads.old.entries leads.new.entries) }
{
    leads.insert(client, LEAD_LEN)?;
    Ok(())
}

/// Returns how much of the replies is still to be put to a client.
fn lead_of(leads: &BTreeMap<u32, usize>, client: u32) -> usize
    ensures { result ≡ lead_at (at client leads.now.entries) }
{
    match leads.get(&client) {
        Some(lead) => *lead,
        None => 0,
    }
}

/// Sets how much is still to be put to a client, which is no more than before.
fn set_lead(leads: &mut BTreeMap<u32, usize>, client: u32, left: usize)
    requires { left ≤ lead_at (at client leads.old.entries) }
    ensures here { lead_at (at client leads.new.entries) ≡ left }
    ensures others { (c : ℕ) → c ≢ client → at c leads.new.entries ≡ at c leads.old.entries }
{
    if left == 0 {
        leads.remove(&client);
        return;
    }
    if let Some(lead) = leads.get_mut(&client) {
        *lead = left;
    }
}

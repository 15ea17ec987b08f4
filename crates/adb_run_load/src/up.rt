//! Counting the bytes that are sent to devices.

ghost use Rattle.std.specs.Prelude.{◌≡◌, ◌≢◌, ℕ, [], IfOk, OnOk};
ghost use Rattle.adb_outside.specs.Tables.{at};
ghost use Rattle.adb_run_load.specs.Counted.{AddsUp, Begins, IsUp, Writes, WritesAt};

use crate::writes::written;
use adb_capture::Entry;
use adb_outside::{HandOut, Parts, Text};
use adb_wire::Deframer;
use std::alloc::{AllocError, Global};
use std::collections::BTreeMap;

/// The count of payload bytes of the writes that were sent to links, and for each link that was
/// sent to the bytes past its last whole packet.
#[derive(Drop)]
pub(crate) struct Up {
    pub alloc: Global,
    pub total: u64,
    pub links: BTreeMap<u32, Deframer>,
}

impl Up {
    /// Returns the state before any byte was sent.
    pub(crate) fn new(alloc: Global) -> Up
        ensures { IsUp [] result }
    {
        Up {
            alloc,
            total: 0,
            links: BTreeMap::new(alloc),
        }
    }

    /// Counts the next entry.
    pub(crate) fn add(&mut self, entry: &Entry) -> Result<(), AllocError>
        ensures { OnOk result (AddsUp entry.now self.old self.new) }
    {
        match entry {
            Entry::Send { link, bytes } => self.sent(*link, bytes),
            _ => Ok(()),
        }
    }

    /// Counts the bytes that were sent to a link; if they lie in two parts, the parts are joined.
    fn sent(&mut self, link: u32, bytes: &HandOut) -> Result<(), AllocError>
        ensures { OnOk result (Writes link bytes.now self.old self.new) }
    {
        let Parts { start, rest } = bytes.parts();
        if rest.is_empty() {
            return self.sent_slice(link, start);
        }
        if start.is_empty() {
            return self.sent_slice(link, rest);
        }
        let mut all = Text::from_vec(Vec::with_capacity(self.alloc, bytes.len())?);
        all.push_slice(start)?;
        all.push_slice(rest)?;
        self.sent_slice(link, all.as_slice())
    }

    fn sent_slice(&mut self, link: u32, bytes: &[u8]) -> Result<(), AllocError>
        ensures { OnOk result (Writes link bytes.now self.old self.new) }
    {
        begin(&mut self.links, self.alloc, link)?;
        let written = written_on(&mut self.links, link, bytes)?;
        self.total = self.total.saturating_add(written);
        Ok(())
    }
}

/// Adds a deframer for a link that was not sent to before.
fn begin(links: &mut BTreeMap<u32, Deframer>, alloc: Global, link: u32) -> Result<(), AllocError>
    ensures { OnOk result (Begins link links.old.entries links.new.entries) }
{
    if !links.contains_key(&link) {
        links.insert(link, Deframer::new(alloc))?;
    }
    Ok(())
}

/// Returns how many bytes the writes have that became whole on a link.
fn written_on(
    links: &mut BTreeMap<u32, Deframer>,
    link: u32,
    bytes: &[u8],
) -> Result<u64, AllocError>
    ensures here { IfOk result (λ written. WritesAt bytes.now written
        (at link links.old.entries) (at link links.new.entries)) }
    ensures others { (t : ℕ) → t ≢ link → at t links.new.entries ≡ at t links.old.entries }
{
    match links.get_mut(&link) {
        Some(cutter) => written(cutter, bytes),
        None => Ok(0),
    }
}

//! Clients that track the list of the devices (SERVICES.TXT, `host:track-devices`).

ghost use Rattle.std.specs.Prelude.{◌≡◌, ℕ, option_map};
ghost use Rattle.adb_outside.specs.Tables.{at, change_row};
ghost use Rattle.adb_history.specs.Tracking.{marked, mark_all};
ghost use Rattle.adb_hub_tables.specs.Tables.{client_row, state_of};
ghost use Rattle.adb_hub_tables.specs.Tracked.{clients_of, marked_each, IsTracked, IsAs, IsAlike};
ghost use Rattle.adb_hub_tables.specs.Places.{Uses};

use crate::tables::Tables;
use crate::touched_map::TouchedMap;
use adb_client::{Client, Phase};
use std::collections::BTreeSet;

impl Tables {
    /// Marks each tracker's list as stale, because the devices changed. Takes no place.
    pub fn mark_all(&mut self)
        ensures state { IsTracked self.old
            → state_of self.new ≡ mark_all (state_of self.old) }
        ensures streams { self.new.streams ≡ self.old.streams }
        ensures links { self.new.links ≡ self.old.links }
        ensures uses { (t c : ℕ) → Uses t 0 c 0 self.old self.new }
    {
        mark_each(&mut self.clients, &self.trackers);
    }
}

/// Marks these clients.
fn mark_each(clients: &mut TouchedMap<Client>, trackers: &BTreeSet<u32>)
    ensures rows { clients_of clients.new.entries
        ≡ marked_each trackers.now.keys (clients_of clients.old.entries) }
    ensures alike { (c : ℕ) → IsAlike (at c clients.old.entries) (at c clients.new.entries) }
{
    for id in trackers.iter() {
        mark_one(clients, *id);
    }
}

fn mark_one(clients: &mut TouchedMap<Client>, id: u32)
    ensures rows { clients_of clients.new.entries
        ≡ change_row id (option_map marked) (clients_of clients.old.entries) }
    ensures alike { (c : ℕ) → IsAlike (at c clients.old.entries) (at c clients.new.entries) }
{
    if let Some(client) = clients.get_mut(&id) {
        mark(client);
    }
}

fn mark(client: &mut Client)
    ensures row { client_row client.new ≡ marked (client_row client.old) }
    ensures alike { IsAs client.old client.new }
{
    if client.about().phase == Phase::Tracking {
        client.about_mut().mark = true;
    }
}

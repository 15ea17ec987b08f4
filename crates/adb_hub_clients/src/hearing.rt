//! The requests that a client asked: the replies to them are queued.

ghost use Rattle.std.specs.Prelude.{◌≡◌, List, ℕ, Some, option_and_then, OnOk};
ghost use Rattle.adb_outside.specs.Tables.{at, change_row};
ghost use Rattle.adb_hub_tables.specs.Fit.{IsFit};
ghost use Rattle.adb_hub_tables.specs.Tables.{state_of, client_row};
ghost use Rattle.adb_hub_tables.specs.Tracked.{clients_of};
ghost use Rattle.adb_hub_tables.specs.Widening.{WidensClients};
ghost use Rattle.adb_hub_clients.specs.Leaving.{Leaves, IsPlaced, HasSlices, HoldsAtLeast};
ghost use Rattle.adb_hub_clients.specs.Asking.{after_requests, hears, CanHear, CanHearAt};

use adb_client::Client;
use adb_hub_tables::{Tables, TouchedMap};
use adb_outside::Text;
use std::alloc::AllocError;

/// Requests that were parsed: the replies to them, how many bytes they have, and the transport that
/// they selected.
#[derive(Drop)]
pub(crate) struct Heard {
    pub(crate) replies: Text,
    pub(crate) used: usize,
    pub(crate) selected: Option<u32>,
}

/// Queues the replies to requests of a client, in places that were reserved. Allocates nothing.
pub(crate) fn hear(tables: &mut Tables, client: u32, heard: &Heard)
    requires fit { IsFit tables.old }
    requires ready { CanHearAt heard.now (at client tables.old.clients.entries) }
    ensures made { Leaves (hears heard.now client (state_of tables.old)) tables.new }
    ensures slices { (n : ℕ) → HasSlices n (at client tables.old.clients.entries)
        → HasSlices n (at client tables.new.clients.entries) }
    ensures others { tables.new ≡ record tables.old { clients = tables.new.clients } }
{
    hear_in(&mut tables.clients, client, heard);
}

fn hear_in(clients: &mut TouchedMap<Client>, client: u32, heard: &Heard)
    requires { CanHearAt heard.now (at client clients.old.entries) }
    ensures rows { clients_of clients.new.entries ≡ change_row client
        (option_and_then (after_requests heard.now)) (clients_of clients.old.entries) }
    ensures placed { (c : ℕ) (trackers : List ℕ) → IsPlaced c trackers (at c clients.old.entries)
        → IsPlaced c trackers (at c clients.new.entries) }
    ensures slices { (n : ℕ) → HasSlices n (at client clients.old.entries)
        → HasSlices n (at client clients.new.entries) }
{
    if let Some(row) = clients.get_mut(&client) {
        hear_row(row, heard);
    }
}

fn hear_row(row: &mut Client, heard: &Heard)
    requires { CanHear heard.now row.old }
    ensures row { Some (client_row row.new) ≡ after_requests heard.now (client_row row.old) }
    ensures phase { row.new.about.phase ≡ row.old.about.phase }
    ensures places { row.new.places ≡ row.old.places }
{
    row.pass_over(heard.used);
    row.owe_spare(heard.replies.as_slice());
    row.about_mut().selected = heard.selected;
}

/// Reserves places for replies to a client, which is otherwise unchanged.
pub(crate) fn reserve_replies(
    tables: &mut Tables,
    client: u32,
    heard: &Heard,
) -> Result<(), AllocError>
    requires fit { IsFit tables.old }
    requires held { HoldsAtLeast heard.now.used (at client tables.old.clients.entries) }
    ensures made { Leaves (state_of tables.old) tables.new }
    ensures held { (n : ℕ) → HoldsAtLeast n (at client tables.old.clients.entries)
        → HoldsAtLeast n (at client tables.new.clients.entries) }
    ensures ready { OnOk result (CanHearAt heard.now (at client tables.new.clients.entries)) }
    ensures others { tables.new ≡ record tables.old { clients = tables.new.clients } }
{
    reserve_in(&mut tables.clients, client, heard)
}

fn reserve_in(
    clients: &mut TouchedMap<Client>,
    client: u32,
    heard: &Heard,
) -> Result<(), AllocError>
    requires { HoldsAtLeast heard.now.used (at client clients.old.entries) }
    ensures widens { WidensClients clients.old.entries clients.new.entries }
    ensures ready { OnOk result (CanHearAt heard.now (at client clients.new.entries)) }
{
    match clients.get_mut(&client) {
        Some(row) => row.reserve(heard.replies.len()),
        None => Ok(()),
    }
}

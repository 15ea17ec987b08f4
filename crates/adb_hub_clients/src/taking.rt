//! Bytes of a client that are held.

ghost use Rattle.std.specs.Prelude.{◌≡◌, List, ℕ, length, option_and_then, OnOk, OnErr};
ghost use Rattle.adb_outside.specs.Tables.{at, change_row};
ghost use Rattle.adb_history.specs.Rows.{State};
ghost use Rattle.adb_hub_tables.specs.Fit.{IsFit};
ghost use Rattle.adb_hub_tables.specs.Tables.{state_of};
ghost use Rattle.adb_hub_tables.specs.Tracked.{clients_of};
ghost use Rattle.adb_hub_clients.specs.Leaving.{Leaves, IsPlaced, HoldsAtLeast};
ghost use Rattle.adb_hub_clients.specs.Taking.{holding, takes_in, without_last};

use adb_client::Client;
use adb_hub_tables::{Tables, TouchedMap};
use std::alloc::AllocError;

/// Holds a piece of a client after its earlier bytes.
pub(crate) fn take_in(tables: &mut Tables, client: u32, piece: &[u8]) -> Result<(), AllocError>
    requires { IsFit tables.old }
    ensures made { OnOk result
        (Leaves (takes_in client piece.now (state_of tables.old)) tables.new) }
    ensures kept { OnErr result (Leaves (state_of tables.old) tables.new) }
    ensures holds { OnOk result
        (HoldsAtLeast (length piece.now) (at client tables.new.clients.entries)) }
    ensures others { tables.new ≡ record tables.old { clients = tables.new.clients } }
{
    add_to(&mut tables.clients, client, piece)
}

fn add_to(clients: &mut TouchedMap<Client>, client: u32, piece: &[u8]) -> Result<(), AllocError>
    ensures ok { OnOk result (clients_of clients.new.entries ≡ change_row client
        (option_and_then (holding piece.now)) (clients_of clients.old.entries)) }
    ensures err { OnErr result (clients_of clients.new.entries ≡ clients_of clients.old.entries) }
    ensures holds { OnOk result
        (HoldsAtLeast (length piece.now) (at client clients.new.entries)) }
    ensures placed { (c : ℕ) (trackers : List ℕ) → IsPlaced c trackers (at c clients.old.entries)
        → IsPlaced c trackers (at c clients.new.entries) }
{
    match clients.get_mut(&client) {
        Some(row) => row.take_in(piece),
        None => Ok(()),
    }
}

/// Removes the last piece, of `n` bytes, from the held bytes of a client. Allocates nothing.
pub(crate) fn take_back(tables: &mut Tables, client: u32, n: usize)
    requires fit { IsFit tables.old }
    requires holds { HoldsAtLeast n (at client tables.old.clients.entries) }
    ensures { (piece : List ℕ) (s : State) → length piece ≡ n
        → state_of tables.old ≡ takes_in client piece s → Leaves s tables.new }
{
    drop_last(&mut tables.clients, client, n);
}

fn drop_last(clients: &mut TouchedMap<Client>, client: u32, n: usize)
    requires { HoldsAtLeast n (at client clients.old.entries) }
    ensures rows { clients_of clients.new.entries
        ≡ change_row client (option_and_then (without_last n)) (clients_of clients.old.entries) }
    ensures placed { (c : ℕ) (trackers : List ℕ) → IsPlaced c trackers (at c clients.old.entries)
        → IsPlaced c trackers (at c clients.new.entries) }
{
    if let Some(row) = clients.get_mut(&client) {
        row.take_back(n);
    }
}

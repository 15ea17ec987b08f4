//! Places that are reserved before anything changes.

ghost use Rattle.std.specs.Prelude.{◌≡◌, OnOk};
ghost use Rattle.adb_outside.specs.Tables.{at};
ghost use Rattle.adb_hub_tables.specs.Fit.{IsFit};
ghost use Rattle.adb_hub_tables.specs.Places.{HasPlaces};
ghost use Rattle.adb_hub_tables.specs.Tables.{state_of};
ghost use Rattle.adb_hub_clients.specs.Leaving.{Leaves, HasSlices};
ghost use Rattle.adb_hub_clients.specs.Asking.{CanHearAt};
ghost use Rattle.adb_hub_clients.specs.declared.hearing.Heard.{Heard};

use adb_hub_tables::{Tables, reserve_packets, reserve_slices};
use std::alloc::AllocError;

/// Reserves places on a link for `packets` packets, in addition to those for the ends of its
/// streams.
pub(crate) fn make_packets(tables: &mut Tables, link: u32, packets: usize) -> Result<(), AllocError>
    requires { IsFit tables.old }
    ensures made { Leaves (state_of tables.old) tables.new }
    ensures others { tables.new ≡ record tables.old { links = tables.new.links } }
    ensures room { OnOk result (HasPlaces packets (at link tables.new.links.entries)) }
{
    reserve_packets(&mut tables.links, link, packets)
}

/// Reserves places for `slices` slices queued for a client.
pub(crate) fn make_slices(tables: &mut Tables, client: u32, slices: usize) -> Result<(), AllocError>
    requires { IsFit tables.old }
    ensures made { Leaves (state_of tables.old) tables.new }
    ensures others { tables.new ≡ record tables.old { clients = tables.new.clients } }
    ensures room { OnOk result (HasSlices slices (at client tables.new.clients.entries)) }
    ensures ready { (heard : Heard) → CanHearAt heard (at client tables.old.clients.entries)
        → CanHearAt heard (at client tables.new.clients.entries) }
{
    reserve_slices(&mut tables.clients, client, slices)
}

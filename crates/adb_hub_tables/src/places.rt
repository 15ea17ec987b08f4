//! Places that are reserved for output.

ghost use Rattle.std.specs.Prelude.{◌≡◌, ◌+◌, ◌≤◌, Some, OnOk};
ghost use Rattle.adb_outside.specs.Tables.{at};
ghost use Rattle.adb_hub_tables.specs.Places.{LinkRoom, HasPlaces, ClientRoom, kept_places};
ghost use Rattle.adb_hub_tables.specs.Widening.{WidensClient, WidensClients, WidensPort, WidensLinks};

use crate::ports::Port;
use crate::touched_map::TouchedMap;
use adb_client::{Client, Phase};
use std::alloc::AllocError;

/// Reserves places on a link for `packets` packets, in addition to those for the ends of its
/// streams.
pub fn reserve_packets(
    links: &mut TouchedMap<Port>,
    link: u32,
    packets: usize,
) -> Result<(), AllocError>
    ensures widens { WidensLinks links.old.entries links.new.entries }
    ensures room { OnOk result (LinkRoom packets (at link links.new.entries)) }
    ensures counted { OnOk result (HasPlaces packets (at link links.new.entries)) }
{
    match links.get_mut(&link) {
        Some(port) => reserve_on(port, packets),
        None => Ok(()),
    }
}

fn reserve_on(port: &mut Port, packets: usize) -> Result<(), AllocError>
    ensures widens { WidensPort port.old port.new }
    ensures room { OnOk result (LinkRoom packets (Some port.new)) }
    ensures counted { OnOk result (HasPlaces packets (Some port.new)) }
{
    match port.kept.checked_add(packets) {
        Some(all) => port.link.reserve(all),
        None => Err(AllocError),
    }
}

/// Reserves places for `slices` slices queued for a client, in addition to the one for the answer
/// to it.
pub fn reserve_slices(
    clients: &mut TouchedMap<Client>,
    client: u32,
    slices: usize,
) -> Result<(), AllocError>
    ensures widens { WidensClients clients.old.entries clients.new.entries }
    ensures room { OnOk result (ClientRoom slices (at client clients.new.entries)) }
{
    match clients.get_mut(&client) {
        Some(row) => reserve_for(row, slices),
        None => Ok(()),
    }
}

fn reserve_for(client: &mut Client, slices: usize) -> Result<(), AllocError>
    ensures widens { WidensClient client.old client.new }
    ensures room { OnOk result (ClientRoom slices (Some client.new)) }
{
    let kept = kept_places(client.about().phase);
    match kept.checked_add(slices) {
        Some(all) => client.reserve_slices(all),
        None => Err(AllocError),
    }
}

/// Returns how many places a client keeps for the answer that it waits for.
fn kept_places(phase: Phase) -> usize
    ensures { result ≡ kept_places phase }
{
    match phase {
        Phase::Opening(_) => 1,
        _ => 0,
    }
}

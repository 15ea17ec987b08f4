//! The clients and links with output: the least link, or otherwise the least client; and those that
//! have a worker to notify.

ghost use Rattle.std.specs.Prelude.{◌≡◌, ◌<◌, ◌≤◌, option_and_then, option_map};
ghost use Rattle.adb_outside.specs.Tables.{IsRising};
ghost use Rattle.adb_history.specs.Drained.{next_out};
ghost use Rattle.adb_history.specs.Orderly.{IsDrawnOnly};
ghost use Rattle.adb_hub_tables.specs.Tables.{state_of};
ghost use Rattle.adb_hub_tables.specs.First.{first_number};
ghost use Rattle.adb_hub_hand_outs.specs.NextDue.{owes_link, owes_client, owner_of, entry_of, is_owed, link_owed, client_owed};

use adb_capture::Owner;
use adb_client::Client;
use adb_hub_tables::{Owes, Port, Tables, TouchedMap};

/// Returns the client or link that is handed output next if everything is handed out: the least
/// link with output, or otherwise the least client. Nothing that contracts see changes. Allocates
/// nothing: it looks only at those that may have got output since the last call.
pub fn next_due(tables: &mut Tables) -> Option<Owner>
    requires links { let s = state_of tables.old in IsDrawnOnly s.devices.drawn s.links }
    requires clients { let s = state_of tables.old in IsDrawnOnly s.joined s.clients }
    ensures owner { result ≡ option_and_then owner_of (next_out (state_of tables.old)) }
    ensures entry { next_out (state_of tables.old) ≡ entry_of result (state_of tables.old) }
    ensures same { tables.new ≡ tables.old }
{
    match link_due(&mut tables.links) {
        Some(id) => Some(Owner::Link(id)),
        None => client_due(&mut tables.clients),
    }
}

/// Returns the next client or link whose state changed since it was last returned: output may be
/// queued for it, its input may have room again, or it may be gone. Nothing that contracts see
/// changes. Allocates nothing.
pub fn next_touched(tables: &mut Tables) -> Option<Owner>
    ensures same { tables.new ≡ tables.old }
{
    match tables.links.next_touched() {
        Some(link) => Some(Owner::Link(link)),
        None => tables.clients.next_touched().map(Owner::Client),
    }
}

/// Returns whether a client or link has output, or is gone.
pub fn is_owed(tables: &Tables, owner: Owner) -> bool
    ensures { result ≡ is_owed owner (state_of tables.now) }
{
    match owner {
        Owner::Link(link) => is_link_owed(tables, link),
        Owner::Client(client) => is_client_owed(tables, client),
    }
}

fn is_link_owed(tables: &Tables, link: u32) -> bool
    ensures { result ≡ link_owed ((state_of tables.now).links link) }
{
    match tables.links.get(&link) {
        Some(port) => port.owes(),
        None => true,
    }
}

fn is_client_owed(tables: &Tables, client: u32) -> bool
    ensures { result ≡ client_owed ((state_of tables.now).clients client) }
{
    match tables.clients.get(&client) {
        Some(row) => row.owes(),
        None => true,
    }
}

/// Returns how many bytes to hand out at once, at most `max`, so that no large payload is copied:
/// see `Client::front_len` and `Link::front_len`. It is `max` if nothing is queued.
pub fn front_len(tables: &Tables, owner: Owner, max: usize) -> usize
    requires { 0 < max }
    ensures { (0 < result) × (result ≤ max) }
{
    match owner {
        Owner::Link(link) => link_front_len(tables, link, max),
        Owner::Client(client) => client_front_len(tables, client, max),
    }
}

fn link_front_len(tables: &Tables, link: u32, max: usize) -> usize
    requires { 0 < max }
    ensures { (0 < result) × (result ≤ max) }
{
    match tables.links.get(&link) {
        Some(port) => port.link.front_len(max),
        None => max,
    }
}

fn client_front_len(tables: &Tables, client: u32, max: usize) -> usize
    requires { 0 < max }
    ensures { (0 < result) × (result ≤ max) }
{
    match tables.clients.get(&client) {
        Some(row) => row.front_len(max),
        None => max,
    }
}

/// Returns the least link with output.
fn link_due(links: &mut TouchedMap<Port>) -> Option<u32>
    ensures first { result ≡ first_number owes_link links.old.entries }
    ensures rises { IsRising links.old.entries }
    ensures same { links.new ≡ links.old }
{
    links.first_owed()
}

/// Returns the least client with output, if no link has any.
fn client_due(clients: &mut TouchedMap<Client>) -> Option<Owner>
    ensures first { result
        ≡ option_map Owner.Client (first_number owes_client clients.old.entries) }
    ensures rises { IsRising clients.old.entries }
    ensures same { clients.new ≡ clients.old }
{
    match clients.first_owed() {
        Some(number) => Some(Owner::Client(number)),
        None => None,
    }
}

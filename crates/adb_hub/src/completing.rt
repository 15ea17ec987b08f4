//! The requests and packets that further bytes complete. No call changes the state that contracts
//! see.

ghost use Rattle.std.specs.Prelude.{◌≡◌, ◌≤◌, ℕ, List, Some, true, length, IfOk};
ghost use Rattle.adb_outside.specs.Tables.{at};
ghost use Rattle.adb_capture.specs.declared.entry.Entry.{Entry};
ghost use Rattle.adb_history.specs.Asking.{asks_with, nothing_asked};
ghost use Rattle.adb_history.specs.Kept.{IsLawful};
ghost use Rattle.adb_history.specs.Machine.{state};
ghost use Rattle.adb_hub_tables.specs.Fit.{IsReadOutAt};
ghost use Rattle.adb_hub_tables.specs.Tables.{client_row, link_row, state_of};
ghost use Rattle.adb_hub.specs.Completing.{asks_of, is_request, packets_on, used_of};
ghost use Rattle.std.specs.Prelude.{option_map};

use crate::hub::Hub;
use adb_client::{Client, Phase};
use adb_hub_clients::make_plan;
use adb_hub_tables::{Port, Tables, TouchedMap};
use adb_request::{Found, cut};
use adb_wire::Deframer;
use std::alloc::{AllocError, Global};

impl Hub {
    /// Returns whether the requests of a client are read. Allocates nothing.
    pub fn asks(&self, client: u32) -> bool
        ensures { (h : List Entry) → IsLawful self.now h
            → result ≡ asks_of ((state h).clients client) }
    {
        asks(&self.tables, client)
    }

    /// Returns how many of these bytes are whole requests that the hub would answer if the client
    /// had sent exactly these bytes since its last whole request: 0 if its requests are not read.
    /// Bytes after a request for a service are no requests. Fails if an allocation fails.
    pub fn asked(&self, client: u32, bytes: &[u8]) -> Result<usize, AllocError>
        ensures used { (h : List Entry) → IsLawful self.now h → IfOk result (λ used.
            used ≡ used_of ((state h).clients client) (state h) bytes.now) }
        ensures within { IfOk result (λ used. used ≤ length bytes.now) }
    {
        asked(&self.tables, client, bytes)
    }

    /// Returns the packets that become whole on a link with a further piece, in order: the calls
    /// of `next` give them. There are none if the link is gone. Nothing that contracts see changes.
    /// Fails if an allocation fails.
    pub fn packets(&mut self, link: u32, piece: &[u8]) -> Result<Deframer, AllocError>
        ensures packets { (h : List Entry) → IsLawful self.old h → IfOk result (λ cut.
            cut.given ≡ packets_on ((state h).links link) piece.now) }
        ensures same { self.new ≡ self.old }
    {
        packets(self.tables.alloc, &mut self.tables.links, link, piece)
    }
}

fn asks(tables: &Tables, client: u32) -> bool
    ensures { result ≡ asks_of ((state_of tables.now).clients client) }
{
    match tables.clients.get(&client) {
        Some(row) => is_asking(row),
        None => false,
    }
}

fn is_asking(row: &Client) -> bool
    ensures { result ≡ asks_of (Some (client_row row.now)) }
{
    matches!(row.about().phase, Phase::Asking)
}

fn asked(tables: &Tables, client: u32, bytes: &[u8]) -> Result<usize, AllocError>
    ensures used { IfOk result (λ used.
        used ≡ used_of ((state_of tables.now).clients client) (state_of tables.now) bytes.now) }
    ensures within { IfOk result (λ used. used ≤ length bytes.now) }
{
    match tables.clients.get(&client) {
        Some(row) => asked_in(tables, row, bytes),
        None => Ok(0),
    }
}

fn asked_in(tables: &Tables, row: &Client, bytes: &[u8]) -> Result<usize, AllocError>
    ensures used { IfOk result (λ used.
        used ≡ used_of (Some (client_row row.now)) (state_of tables.now) bytes.now) }
    ensures within { IfOk result (λ used. used ≤ length bytes.now) }
{
    match row.about().phase {
        Phase::Asking => used(tables, row.about().selected, bytes),
        _ => Ok(0),
    }
}

/// Returns how many of these bytes are whole requests of a client that has nothing unread and
/// selected this transport.
fn used(tables: &Tables, selected: Option<u32>, bytes: &[u8]) -> Result<usize, AllocError>
    ensures used { IfOk result (λ used. used ≡ (asks_with tables.now.devices tables.now.forwards
        bytes.now (record nothing_asked { selected = selected })).used) }
    ensures within { IfOk result (λ used. used ≤ length bytes.now) }
{
    if is_request(bytes) {
        return Ok(bytes.len());
    }
    let client = asker(tables.alloc, selected, bytes)?;
    let plan = make_plan(tables.alloc, &client, &tables.devices, &tables.forwards)?;
    Ok(plan.used)
}

/// Returns whether some bytes are exactly one whole request.
fn is_request(bytes: &[u8]) -> bool
    ensures { result ≡ is_request bytes.now }
{
    match cut(bytes) {
        Found::Whole { len } => 4 + len == bytes.len(),
        Found::More | Found::Malformed => false,
    }
}

/// Returns a client that selected this transport and has these bytes unread.
fn asker(alloc: Global, selected: Option<u32>, bytes: &[u8]) -> Result<Client, AllocError>
    ensures held { IfOk result (λ client. client.held ≡ bytes.now) }
    ensures selected { IfOk result (λ client. client.about.selected ≡ selected) }
{
    let mut client = Client::new(alloc, 1, false)?;
    client.about_mut().selected = selected;
    client.take_in(bytes)?;
    Ok(client)
}

/// Returns the packets that become whole on a link of these with a further piece.
fn packets(
    alloc: Global,
    links: &mut TouchedMap<Port>,
    link: u32,
    piece: &[u8],
) -> Result<Deframer, AllocError>
    requires { IsReadOutAt (at link links.old.entries) }
    ensures stays { (k : ℕ) → at k links.new.entries ≡ at k links.old.entries }
    ensures packets { IfOk result (λ cut.
        cut.given ≡ packets_on (option_map link_row (at link links.old.entries)) piece.now) }
{
    match links.get_mut(&link) {
        Some(port) => packets_in(port, piece),
        None => Ok(Deframer::new(alloc)),
    }
}

fn packets_in(port: &mut Port, piece: &[u8]) -> Result<Deframer, AllocError>
    requires { IsReadOutAt (Some port.old) }
    ensures stays { port.new ≡ port.old }
    ensures packets { IfOk result (λ cut.
        cut.given ≡ packets_on (Some (link_row port.old)) piece.now) }
{
    port.link.with_piece(piece)
}

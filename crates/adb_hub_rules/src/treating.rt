//! The packets of a link, one after another (protocol.txt).

ghost use Rattle.std.specs.Prelude.{◌≡◌, ◌≤◌, ℕ, [], ◌∷◌, true, length, All, MatchOption};
ghost use Rattle.adb_outside.specs.Tables.{at};
ghost use Rattle.adb_wire.specs.Format.{packet_under};
ghost use Rattle.adb_stream.specs.Stream.{of_link};
ghost use Rattle.adb_client.specs.declared.output.TheConstants.{MAX_SLICE};
ghost use Rattle.adb_history.specs.Links.{credit_word};
ghost use Rattle.adb_history.specs.Packets.{at_stream, takes_okay, takes_write, takes_close, treat_open, treat_any, treat, treat_all};
ghost use Rattle.adb_hub_tables.specs.Endings.{Reports};
ghost use Rattle.adb_hub_tables.specs.Tables.{state_of};
ghost use Rattle.adb_hub_rules.specs.Came.{IsCame, packet_of, packets_of, slices_of, slices_for, slices_in};
ghost use Rattle.adb_hub_tables.specs.Places.{LinkRoom, ClientRoom, StreamRoom, IsProvided, Takes};

use crate::came::Came;
use crate::okays::take_okay;
use crate::packets::{refuse_open, take_close, take_cnxn, take_login};
use crate::writes::take_write;
use adb_hub_tables::{Endings, Tables};
use adb_stream::Stream;
use adb_wire::{Command, Head};
use bytes::Bytes;
use std::collections::VecDeque;

/// Handles packets of a link, one after another.
pub fn treat_all(tables: &mut Tables, ends: &mut Endings, link: u32, mut packets: VecDeque<Came>)
    requires came { All IsCame packets.items }
    requires provided { IsProvided tables.old }
    requires link { LinkRoom (length packets.items) (at link tables.old.links.entries) }
    requires clients { (c : ℕ) → ClientRoom
        (slices_in (packets_of packets.items) tables.old.streams.streams c)
        (at c tables.old.clients.entries) }
    ensures state { state_of tables.new
        ≡ (treat_all link (packets_of packets.items) (state_of tables.old)).state }
    ensures reports { Reports
        (treat_all link (packets_of packets.items) (state_of tables.old)).told
        ends.old tables.old ends.new tables.new }
    ensures takes { Takes link (length packets.items)
        (slices_in (packets_of packets.items) tables.old.streams.streams) tables.old tables.new }
{
    while let Some(came) = next_of(&mut packets) {
        treat(tables, ends, link, came);
    }
}

/// Handles a packet of a link, which may be gone.
pub fn treat(tables: &mut Tables, ends: &mut Endings, link: u32, came: Came)
    requires came { IsCame came }
    requires provided { IsProvided tables.old }
    requires link { LinkRoom 1 (at link tables.old.links.entries) }
    requires clients { (c : ℕ) → ClientRoom
        (slices_for (packet_of came) tables.old.streams.streams c)
        (at c tables.old.clients.entries) }
    ensures state { state_of tables.new
        ≡ (treat link (packet_of came) (state_of tables.old)).state }
    ensures reports { Reports (treat link (packet_of came) (state_of tables.old)).told
        ends.old tables.old ends.new tables.new }
    ensures takes { Takes link 1 (slices_for (packet_of came) tables.old.streams.streams)
        tables.old tables.new }
{
    if tables.links.contains_key(&link) {
        treat_any(tables, ends, link, came);
    }
}

/// Handles a packet: an identity, a request to log in, or any other packet, which is for a link
/// that had a CNXN.
fn treat_any(tables: &mut Tables, ends: &mut Endings, link: u32, came: Came)
    requires came { IsCame came }
    requires provided { IsProvided tables.old }
    requires link { LinkRoom 1 (at link tables.old.links.entries) }
    requires clients { (c : ℕ) → ClientRoom
        (slices_for (packet_of came) tables.old.streams.streams c)
        (at c tables.old.clients.entries) }
    ensures state { let p = packet_of came in state_of tables.new
        ≡ (treat_any link p.command p (state_of tables.old)).state }
    ensures reports { let p = packet_of came in
        Reports (treat_any link p.command p (state_of tables.old)).told
        ends.old tables.old ends.new tables.new }
    ensures takes { Takes link 1 (slices_for (packet_of came) tables.old.streams.streams)
        tables.old tables.new }
{
    let Came {
        head,
        payload,
        identity,
    } = came;
    match head.command {
        Command::Cnxn => take_cnxn(tables, ends, link, &head, identity),
        Command::Auth | Command::Stls => take_login(tables, link),
        _ if tables.is_connected(link) => treat_open(tables, ends, link, &head, payload),
        _ => {}
    }
}

/// Handles a packet, other than a CNXN, of a link that had a CNXN.
fn treat_open(tables: &mut Tables, ends: &mut Endings, link: u32, head: &Head, payload: Bytes)
    requires provided { IsProvided tables.old }
    requires link { LinkRoom 1 (at link tables.old.links.entries) }
    requires clients { (c : ℕ) → ClientRoom
        (slices_for (packet_under head.now payload) tables.old.streams.streams c)
        (at c tables.old.clients.entries) }
    requires size { length payload ≤ MAX_SLICE }
    ensures state { let p = packet_under head.now payload in state_of tables.new
        ≡ (treat_open link p.command p (state_of tables.old)).state }
    ensures reports { let p = packet_under head.now payload in
        Reports (treat_open link p.command p (state_of tables.old)).told
        ends.old tables.old ends.new tables.new }
    ensures takes { Takes link 1
        (slices_for (packet_under head.now payload) tables.old.streams.streams)
        tables.old tables.new }
{
    match head.command {
        Command::Open => refuse_open(tables, link, head.arg0),
        Command::Okay => treat_okay(tables, link, head, payload.as_slice()),
        Command::Wrte => treat_write(tables, ends, link, head, payload),
        Command::Clse => treat_close(tables, ends, link, head),
        _ => {}
    }
}

/// Returns the stream of an id, if it is one of that link.
fn stream_on(tables: &Tables, link: u32, id: u32) -> Option<Stream>
    ensures { result ≡ of_link link (at id tables.now.streams.streams) }
{
    tables.streams.find(link, id).copied()
}

fn treat_okay(tables: &mut Tables, link: u32, head: &Head, payload: &[u8])
    requires provided { IsProvided tables.old }
    requires client { StreamRoom 1 tables.old (at head.now.arg1 tables.old.streams.streams) }
    ensures state { let id = head.now.arg1 in let s = state_of tables.old in state_of tables.new
        ≡ (at_stream link (s.streams id)
        (takes_okay id head.now.arg0 (credit_word payload.now)) s).state }
    ensures takes { Takes link 1 (slices_of true (at head.now.arg1 tables.old.streams.streams))
        tables.old tables.new }
{
    if let Some(stream) = stream_on(tables, link, head.arg1) {
        take_okay(tables, head.arg1, head.arg0, credit_word(payload), &stream);
    }
}

fn treat_write(tables: &mut Tables, ends: &mut Endings, link: u32, head: &Head, payload: Bytes)
    requires provided { IsProvided tables.old }
    requires link { LinkRoom 1 (at link tables.old.links.entries) }
    requires client { StreamRoom 1 tables.old (at head.now.arg1 tables.old.streams.streams) }
    requires size { length payload ≤ MAX_SLICE }
    ensures state { let id = head.now.arg1 in let s = state_of tables.old in state_of tables.new
        ≡ (at_stream link (s.streams id) (takes_write id head.now.arg0 payload) s).state }
    ensures reports { let id = head.now.arg1 in let s = state_of tables.old in
        Reports (at_stream link (s.streams id) (takes_write id head.now.arg0 payload) s).told
        ends.old tables.old ends.new tables.new }
    ensures takes { Takes link 1 (slices_of true (at head.now.arg1 tables.old.streams.streams))
        tables.old tables.new }
{
    if let Some(stream) = stream_on(tables, link, head.arg1) {
        take_write(tables, ends, head.arg1, head.arg0, payload, &stream);
    }
}

fn treat_close(tables: &mut Tables, ends: &mut Endings, link: u32, head: &Head)
    requires { IsProvided tables.old }
    ensures state { let id = head.now.arg1 in let s = state_of tables.old in state_of tables.new
        ≡ (at_stream link (s.streams id) (takes_close id head.now.arg0) s).state }
    ensures reports { let id = head.now.arg1 in let s = state_of tables.old in
        Reports (at_stream link (s.streams id) (takes_close id head.now.arg0) s).told
        ends.old tables.old ends.new tables.new }
    ensures takes { (slices : ℕ → ℕ) → Takes link 1 slices tables.old tables.new }
{
    if let Some(stream) = stream_on(tables, link, head.arg1) {
        take_close(tables, ends, head.arg1, head.arg0, &stream);
    }
}

/// Returns the next packet, if there is one.
fn next_of(packets: &mut VecDeque<Came>) -> Option<Came>
    ensures { MatchOption result (packets.old.items ≡ [])
        (λ came. packets.old.items ≡ came ∷ packets.new.items) }
{
    packets.pop_front()
}

/// Returns the credit in the payload of an OKAY, if it is a credit word.
pub fn credit_word(payload: &[u8]) -> Option<u32>
    ensures { result ≡ credit_word payload.now }
{
    match payload {
        [a, b, c, d] => Some(u32::from_le_bytes([*a, *b, *c, *d])),
        _ => None,
    }
}

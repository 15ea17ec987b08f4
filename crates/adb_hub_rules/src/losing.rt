//! Lost and broken links, failed clients, and the stop of the server.

ghost use Rattle.std.specs.Prelude.{◌≡◌, ℕ, is_some};
ghost use Rattle.adb_outside.specs.Tables.{Puts};
ghost use Rattle.adb_registry.specs.Registry.{detached};
ghost use Rattle.adb_history.specs.Forwarding.{forwards_without};
ghost use Rattle.adb_history.specs.Losing.{forgets, link_ends, stream_of, stream_fails, input_ends, client_ends};
ghost use Rattle.adb_hub_tables.specs.Endings.{Records, Reports, add_if_place, ended_of};
ghost use Rattle.adb_hub_tables.specs.Tables.{phase_in, state_of, fails_in};
ghost use Rattle.adb_hub_tables.specs.Places.{IsProvided, Uses};

use crate::ends::end_all;
use adb_client::Phase;
use adb_history::Ending;
use adb_hub_tables::{Ended, Endings, Tables};
use adb_outside::Cause;
use adb_stream::Stream;

/// Removes a link with its device, its forwards and its output queue, and ends its streams.
pub fn end_link(tables: &mut Tables, ends: &mut Endings, link: u32, ending: Ending)
    requires { IsProvided tables.old }
    ensures state { state_of tables.new ≡ (link_ends link ending (state_of tables.old)).state }
    ensures reports { Reports (link_ends link ending (state_of tables.old)).told
        ends.old tables.old ends.new tables.new }
    ensures uses { (t c : ℕ) → Uses t 0 c 0 tables.old tables.new }
{
    forget_link(tables, link);
    end_all(tables, ends, link, ending);
    tables.mark_all();
}

/// Removes the row of a link.
fn forget_link(tables: &mut Tables, link: u32)
    ensures state { state_of tables.new ≡ forgets link (state_of tables.old) }
    ensures uses { (t c : ℕ) → Uses t 0 c 0 tables.old tables.new }
{
    remove_link(tables, link);
}

fn remove_link(tables: &mut Tables, link: u32)
    ensures row { Puts link None tables.old.links.entries tables.new.links.entries }
    ensures others { tables.new ≡ record tables.old {
      links = tables.new.links;
      devices = detached link tables.old.devices;
      forwards = forwards_without link tables.old.forwards;
    } }
{
    tables.links.remove(&link);
    tables.devices.detach(link);
    tables.forwards.remove_of(link);
}

/// Ends a client's input, in order or by a failure.
pub fn end_client(tables: &mut Tables, ends: &mut Endings, client: u32, cause: Cause)
    requires { IsProvided tables.old }
    ensures state { let s = state_of tables.old in
        state_of tables.new ≡ (client_ends client cause (s.clients client) s).state }
    ensures records { let s = state_of tables.old in
        Records (client_ends client cause (s.clients client) s).told
        ends.old tables.old ends.new }
    ensures input { cause ≡ Cause.Eof → ends.new ≡ ends.old }
    ensures uses { (t c : ℕ) → Uses t 0 c 0 tables.old tables.new }
{
    match cause {
        Cause::Eof => end_input(tables, client),
        _ if has_client(tables, client) => fail_client(tables, ends, client, cause),
        _ => {}
    }
}

/// Returns whether a client has a row.
fn has_client(tables: &Tables, client: u32) -> bool
    ensures { result ≡ is_some ((state_of tables.now).clients client) }
{
    tables.clients.contains_key(&client)
}

/// Returns the phase of a client, which may have no row.
pub fn phase_of(tables: &Tables, client: u32) -> Phase
    ensures { result ≡ phase_in ((state_of tables.now).clients client) }
{
    match tables.clients.get(&client) {
        Some(row) => row.about().phase,
        None => Phase::Gone,
    }
}

/// Ends a client's input in order: its held bytes are still sent, and its output queue is handed
/// out.
fn end_input(tables: &mut Tables, client: u32)
    ensures state { let s = state_of tables.old in
        state_of tables.new ≡ input_ends (phase_in (s.clients client)) client s }
    ensures uses { (t c : ℕ) → Uses t 0 c 0 tables.old tables.new }
{
    match phase_of(tables, client) {
        Phase::Asking | Phase::Binding | Phase::Tracking => tables.close_client(client),
        Phase::Opening(_) | Phase::Streaming(_) => tables.note_end(client),
        Phase::Closing | Phase::Gone => {}
    }
}

/// Fails a client's connection: its output queue is dropped.
fn fail_client(tables: &mut Tables, ends: &mut Endings, client: u32, cause: Cause)
    requires { IsProvided tables.old }
    ensures state { let s = state_of tables.old in state_of tables.new
        ≡ (fails_in (phase_in (s.clients client)) client cause s).state }
    ensures records { let s = state_of tables.old in
        Records (fails_in (phase_in (s.clients client)) client cause s).told
        ends.old tables.old ends.new }
    ensures uses { (t c : ℕ) → Uses t 0 c 0 tables.old tables.new }
{
    let phase = phase_of(tables, client);
    tables.drop_client(client);
    fail_stream(tables, ends, phase, cause);
}

/// Sends the device of an open stream its end. A stream that its device has not opened yet stays,
/// as an orphan.
fn fail_stream(tables: &mut Tables, ends: &mut Endings, phase: Phase, cause: Cause)
    requires { IsProvided tables.old }
    ensures state { let s = state_of tables.old in
        state_of tables.new ≡ (stream_fails phase cause (stream_of phase s.streams) s).state }
    ensures records { let s = state_of tables.old in
        Records (stream_fails phase cause (stream_of phase s.streams) s).told
        ends.old tables.old ends.new }
    ensures uses { (t c : ℕ) → Uses t 0 c 0 tables.old tables.new }
{
    match phase {
        Phase::Streaming(id) => fail_open(tables, ends, id, cause),
        Phase::Opening(id) => fail_opening(tables, ends, id, cause),
        _ => {}
    }
}

/// Sends the device of an open stream its end.
fn fail_open(tables: &mut Tables, ends: &mut Endings, id: u32, cause: Cause)
    requires { IsProvided tables.old }
    ensures state { let s = state_of tables.old in state_of tables.new
        ≡ (stream_fails (Phase.Streaming id) cause (s.streams id) s).state }
    ensures records { let s = state_of tables.old in
        Records (stream_fails (Phase.Streaming id) cause (s.streams id) s).told
        ends.old tables.old ends.new }
    ensures uses { (t c : ℕ) → Uses t 0 c 0 tables.old tables.new }
{
    if let Some(stream) = tables.streams.get(id).copied() {
        tables.drop_stream(id, &stream);
        tables.owe_close(stream.link, id, stream.part.remote);
        record_failure(ends, id, &stream, cause);
    }
}

/// Keeps a stream that its device has not opened yet, as an orphan.
fn fail_opening(tables: &mut Tables, ends: &mut Endings, id: u32, cause: Cause)
    ensures state { let s = state_of tables.old in state_of tables.new
        ≡ (stream_fails (Phase.Opening id) cause (s.streams id) s).state }
    ensures records { let s = state_of tables.old in
        Records (stream_fails (Phase.Opening id) cause (s.streams id) s).told
        ends.old tables.old ends.new }
    ensures uses { (t c : ℕ) → Uses t 0 c 0 tables.old tables.new }
{
    if let Some(stream) = tables.streams.get(id).copied() {
        let mut part = stream.part;
        part.orphan = true;
        tables.set_part(id, &stream, part);
        record_failure(ends, id, &stream, cause);
    }
}

/// Records that a stream ended because its client's connection failed.
fn record_failure(ends: &mut Endings, id: u32, stream: &Stream, cause: Cause)
    ensures { ends.new
        ≡ add_if_place (ended_of id (Ending.ClientFailed cause) stream.now) ends.old }
{
    ends.push(Ended {
        stream: id,
        client: stream.client,
        link: stream.link,
        ending: Ending::ClientFailed(cause),
    });
}

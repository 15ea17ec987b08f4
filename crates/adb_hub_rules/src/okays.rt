//! OKAY: a stream is open, or may send more (protocol.txt, READY).

ghost use Rattle.std.specs.Prelude.{◌≡◌, ℕ, Some};
ghost use Rattle.adb_outside.specs.Tables.{at};
ghost use Rattle.adb_stream.specs.Flow.{first_credit};
ghost use Rattle.adb_history.specs.Flow.{with_flow};
ghost use Rattle.adb_history.specs.Packets.{with_remote, hears_okay, opened, orphan_opened, okay_open, okay_first, takes_okay};
ghost use Rattle.adb_hub_tables.specs.Tables.{forwarded_in, state_of};
ghost use Rattle.adb_hub_tables.specs.Places.{ClientRoom, IsProvided, Uses};

use adb_hub_tables::Tables;
use adb_stream::{Part, Stream};
use bytes::Bytes;

pub(crate) fn take_okay(
    tables: &mut Tables,
    id: u32,
    remote: u32,
    word: Option<u32>,
    stream: &Stream,
)
    requires here { at id tables.old.streams.streams ≡ Some stream.now }
    requires provided { IsProvided tables.old }
    requires place { ClientRoom 1 (at stream.now.client tables.old.clients.entries) }
    ensures state { state_of tables.new
        ≡ (takes_okay id remote word stream.now (state_of tables.old)).state }
    ensures uses { (t : ℕ) → Uses t 0 stream.now.client 1 tables.old tables.new }
{
    if remote == 0 {
        return;
    }
    if stream.part.remote == 0 {
        take_first(tables, id, remote, word, stream);
    } else if remote == stream.part.remote {
        acknowledge(tables, id, word, stream);
    }
}

/// Acknowledges the outstanding write, or adds credit.
fn acknowledge(tables: &mut Tables, id: u32, word: Option<u32>, stream: &Stream)
    requires { at id tables.old.streams.streams ≡ Some stream.now }
    ensures state { state_of tables.new
        ≡ (okay_open id word stream.now (state_of tables.old)).state }
    ensures uses { (t c : ℕ) → Uses t 0 c 0 tables.old tables.new }
{
    let mut part = stream.part;
    part.flow.acked(word);
    tables.set_part(id, stream, part);
}

fn take_first(tables: &mut Tables, id: u32, remote: u32, word: Option<u32>, stream: &Stream)
    requires here { at id tables.old.streams.streams ≡ Some stream.now }
    requires provided { IsProvided tables.old }
    requires place { ClientRoom 1 (at stream.now.client tables.old.clients.entries) }
    ensures state { state_of tables.new
        ≡ (okay_first stream.now.part.orphan id remote word stream.now (state_of tables.old)).state }
    ensures uses { (t : ℕ) → Uses t 0 stream.now.client 1 tables.old tables.new }
{
    if stream.part.orphan {
        close_orphan(tables, id, remote, stream);
    } else {
        open(tables, id, remote, word, stream);
    }
}

/// Closes an orphan once the device has sent its id.
fn close_orphan(tables: &mut Tables, id: u32, remote: u32, stream: &Stream)
    requires here { at id tables.old.streams.streams ≡ Some stream.now }
    requires provided { IsProvided tables.old }
    ensures state { state_of tables.new
        ≡ (orphan_opened id remote stream.now (state_of tables.old)).state }
    ensures uses { (t c : ℕ) → Uses t 0 c 0 tables.old tables.new }
{
    tables.drop_stream(id, stream);
    tables.owe_close(stream.link, id, remote);
}

/// Opens a stream by its device: its client may send from now on.
fn open(tables: &mut Tables, id: u32, remote: u32, word: Option<u32>, stream: &Stream)
    requires here { at id tables.old.streams.streams ≡ Some stream.now }
    requires place { ClientRoom 1 (at stream.now.client tables.old.clients.entries) }
    ensures state { state_of tables.new
        ≡ (opened id remote word stream.now (state_of tables.old)).state }
    ensures uses { (t : ℕ) → Uses t 0 stream.now.client 1 tables.old tables.new }
{
    let part = opened_part(remote, word, &stream.part);
    hear_okay(tables, stream.client);
    tables.set_part(id, stream, part);
    tables.open_client(stream.client, id);
}

/// Queues `OKAY` for the client of an opened stream, unless the client came through a forward.
fn hear_okay(tables: &mut Tables, client: u32)
    requires { ClientRoom 1 (at client tables.old.clients.entries) }
    ensures state { let s = state_of tables.old in
        state_of tables.new ≡ (hears_okay (s.clients client) client s).state }
    ensures streams { tables.new.streams ≡ tables.old.streams }
    ensures links { tables.new.links ≡ tables.old.links }
    ensures uses { (t : ℕ) → Uses t 0 client 1 tables.old tables.new }
{
    if is_forwarded(tables, client) {
        return;
    }
    tables.owe_client(client, Bytes::from_static(b"OKAY"));
}

/// Returns whether a client came through a forward, or has no row.
fn is_forwarded(tables: &Tables, client: u32) -> bool
    ensures { result ≡ forwarded_in ((state_of tables.now).clients client) }
{
    match tables.clients.get(&client) {
        Some(row) => row.about().forwarded,
        None => true,
    }
}

/// Returns the mutable part of a stream that its device opens.
fn opened_part(remote: u32, word: Option<u32>, part: &Part) -> Part
    ensures { result ≡ with_remote remote
        (with_flow (first_credit word part.now.flow) part.now) }
{
    let mut flow = part.flow;
    flow.opened(word);
    Part {
        remote,
        flow,
        ..*part
    }
}

//! WRTE: bytes of a stream from its device (protocol.txt, WRITE).

ghost use Rattle.std.specs.Prelude.{◌≡◌, ◌≤◌, ℕ, Some, length};
ghost use Rattle.adb_outside.specs.Tables.{at};
ghost use Rattle.adb_stream.specs.Flow.{accepted};
ghost use Rattle.adb_client.specs.declared.output.TheConstants.{MAX_SLICE};
ghost use Rattle.adb_history.specs.Rows.{to_stream, with_stream_part};
ghost use Rattle.adb_history.specs.Clients.{owe_client};
ghost use Rattle.adb_history.specs.Flow.{with_flow};
ghost use Rattle.adb_history.specs.Packets.{accepts_none, accepts, takes_write};
ghost use Rattle.adb_hub_tables.specs.Endings.{Reports};
ghost use Rattle.adb_hub_tables.specs.Tables.{state_of};
ghost use Rattle.adb_hub_tables.specs.Places.{LinkRoom, ClientRoom, IsProvided, Uses};

use crate::ends::end_telling;
use adb_history::Ending;
use adb_hub_tables::{Endings, Tables};
use adb_stream::{Flow, Stream};
use bytes::Bytes;

pub(crate) fn take_write(
    tables: &mut Tables,
    ends: &mut Endings,
    id: u32,
    remote: u32,
    payload: Bytes,
    stream: &Stream,
)
    requires here { at id tables.old.streams.streams ≡ Some stream.now }
    requires provided { IsProvided tables.old }
    requires link { LinkRoom 1 (at stream.now.link tables.old.links.entries) }
    requires place { ClientRoom 1 (at stream.now.client tables.old.clients.entries) }
    requires size { length payload ≤ MAX_SLICE }
    ensures state { state_of tables.new
        ≡ (takes_write id remote payload stream.now (state_of tables.old)).state }
    ensures reports { Reports (takes_write id remote payload stream.now (state_of tables.old)).told
        ends.old tables.old ends.new tables.new }
    ensures uses { Uses stream.now.link 1 stream.now.client 1 tables.old tables.new }
{
    if remote == 0 || remote != stream.part.remote {
        return;
    }
    let mut flow = stream.part.flow;
    if flow.accept(payload.len()) {
        accept_write(tables, id, payload, flow, stream);
    } else {
        end_telling(tables, ends, id, stream, Ending::OutOfTurn);
    }
}

/// Queues a write in turn for the client.
fn accept_write(tables: &mut Tables, id: u32, payload: Bytes, flow: Flow, stream: &Stream)
    requires here { at id tables.old.streams.streams ≡ Some stream.now }
    requires flow { flow ≡ accepted (length payload) stream.now.part.flow }
    requires link { LinkRoom 1 (at stream.now.link tables.old.links.entries) }
    requires place { ClientRoom 1 (at stream.now.client tables.old.clients.entries) }
    requires size { length payload ≤ MAX_SLICE }
    ensures state { state_of tables.new
        ≡ (accepts id payload stream.now (state_of tables.old)).state }
    ensures uses { Uses stream.now.link 1 stream.now.client 1 tables.old tables.new }
{
    if payload.is_empty() {
        accept_none(tables, id, stream);
    } else {
        accept_some(tables, id, payload, flow, stream);
    }
}

/// Handles a write without bytes: with one write each way it is acknowledged at once.
fn accept_none(tables: &mut Tables, id: u32, stream: &Stream)
    requires { LinkRoom 1 (at stream.now.link tables.old.links.entries) }
    ensures state { state_of tables.new
        ≡ (accepts_none stream.now.part.flow id stream.now (state_of tables.old)).state }
    ensures uses { (c : ℕ) → Uses stream.now.link 1 c 0 tables.old tables.new }
{
    if !stream.part.flow.has_credit() {
        tables.owe_okay(stream.link, id, stream.part.remote);
    }
}

fn accept_some(tables: &mut Tables, id: u32, payload: Bytes, flow: Flow, stream: &Stream)
    requires here { at id tables.old.streams.streams ≡ Some stream.now }
    requires place { ClientRoom 1 (at stream.now.client tables.old.clients.entries) }
    requires size { length payload ≤ MAX_SLICE }
    ensures state { state_of tables.new ≡ (owe_client stream.now.client payload
        (to_stream id (with_stream_part (with_flow flow stream.now.part)) (state_of tables.old))).state }
    ensures uses { (t : ℕ) → Uses t 0 stream.now.client 1 tables.old tables.new }
{
    let mut part = stream.part;
    part.flow = flow;
    tables.set_part(id, stream, part);
    tables.owe_client(stream.client, payload);
}

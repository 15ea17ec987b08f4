//! Handing out queued bytes (protocol.txt, READY).

ghost use Rattle.std.specs.Prelude.{◌≡◌, ◌<◌, ℕ, Some, length, drop};
ghost use Rattle.adb_outside.specs.Tables.{at};
ghost use Rattle.adb_stream.specs.Flow.{to_hand, flow_back};
ghost use Rattle.adb_client.specs.Client.{SeenClient};
ghost use Rattle.adb_stream.specs.Window.{OneWrite};
ghost use Rattle.adb_history.specs.Rows.{to_client, to_stream, with_stream_part};
ghost use Rattle.adb_history.specs.Clients.{closes};
ghost use Rattle.adb_history.specs.Flow.{with_flow};
ghost use Rattle.adb_history.specs.Handing.{takes_of, stream_left, sends, tells_handed, tells_credit};
ghost use Rattle.adb_hub_tables.specs.Tables.{state_of};
ghost use Rattle.adb_hub_tables.specs.Places.{LinkRoom, Uses};
ghost use Rattle.adb_hub_rules.specs.Handing.{AreDue, AreDueOn, HasRoom, UsesOf, open_stream, handed, leaves};

use adb_client::Phase;
use adb_hub_tables::Tables;
use adb_stream::{Flow, Part, Stream};

/// Removes the first `n` bytes of a client's output queue, which were handed out. If the queue of a
/// closing client is empty then, the client is removed. On a stream the device is acknowledged the
/// bytes that were handed out.
pub fn hand_client(tables: &mut Tables, client: u32, n: usize)
    requires due { AreDue n (at client tables.old.clients.entries) }
    requires place { HasRoom 1 (open_stream (at client tables.old.clients.entries) tables.old)
        tables.old }
    ensures state { state_of tables.new
        ≡ (takes_of client n ((state_of tables.old).clients client) (state_of tables.old)).state }
    ensures uses { UsesOf (open_stream (at client tables.old.clients.entries) tables.old)
        1 client 0 tables.old tables.new }
{
    let Some(row) = tables.clients.get(&client) else {
        return;
    };
    match row.about().phase {
        Phase::Closing => hand_closing(tables, client, n),
        Phase::Streaming(id) => hand_streaming(tables, client, id, n),
        _ => {
            hand_row(tables, client, n);
        }
    }
}

/// Removes a closing client once its output queue is empty.
fn hand_closing(tables: &mut Tables, client: u32, n: usize)
    requires due { AreDue n (at client tables.old.clients.entries) }
    ensures state { state_of tables.new
        ≡ closes client (to_client client (handed n) (state_of tables.old)) }
    ensures uses { (t c : ℕ) → Uses t 0 c 0 tables.old tables.new }
{
    hand_row(tables, client, n);
    tables.close_client(client);
}

/// Accounts for bytes handed out on a stream: the bytes that it has accepted are the last in its
/// client's output queue.
fn hand_streaming(tables: &mut Tables, client: u32, id: u32, n: usize)
    requires due { AreDue n (at client tables.old.clients.entries) }
    requires place { HasRoom 1 (at id tables.old.streams.streams) tables.old }
    ensures state { (row : SeenClient) → at client tables.old.clients.entries ≡ Some row
        → state_of tables.new ≡ (stream_left (length (drop n row.due)) id
        ((state_of tables.old).streams id)
        (to_client client (handed n) (state_of tables.old))).state }
    ensures uses { (c : ℕ) → UsesOf (at id tables.old.streams.streams) 1 c 0 tables.old tables.new }
{
    let left = hand_row(tables, client, n);
    hand_stream(tables, id, left);
}

/// Removes bytes of a client's output queue, which were handed out. Returns how many are left.
fn hand_row(tables: &mut Tables, client: u32, n: usize) -> usize
    requires { AreDue n (at client tables.old.clients.entries) }
    ensures state { state_of tables.new ≡ to_client client (handed n) (state_of tables.old) }
    ensures left { (row : SeenClient) → at client tables.old.clients.entries ≡ Some row
        → result ≡ length (drop n row.due) }
    ensures streams { tables.new.streams ≡ tables.old.streams }
    ensures links { tables.new.links ≡ tables.old.links }
    ensures uses { (t c : ℕ) → Uses t 0 c 0 tables.old tables.new }
{
    match tables.clients.get_mut(&client) {
        Some(row) => {
            row.hand(n);
            row.owed()
        }
        None => 0,
    }
}

/// Accounts for the stream of a client that has `due` bytes in its output queue.
fn hand_stream(tables: &mut Tables, id: u32, due: usize)
    requires { HasRoom 1 (at id tables.old.streams.streams) tables.old }
    ensures state { let s = state_of tables.old in
        state_of tables.new ≡ (stream_left due id (s.streams id) s).state }
    ensures uses { (c : ℕ) → UsesOf (at id tables.old.streams.streams) 1 c 0 tables.old tables.new }
{
    let Some(stream) = tables.streams.get(id).copied() else {
        return;
    };
    let left = stream.part.flow.to_hand().min(due);
    if left < stream.part.flow.to_hand() {
        leave(tables, id, &stream, left);
    }
}

/// Records that `left` of the bytes that a stream has accepted are left, fewer than before.
fn leave(tables: &mut Tables, id: u32, stream: &Stream, left: usize)
    requires here { at id tables.old.streams.streams ≡ Some stream.now }
    requires fewer { left < to_hand stream.now.part.flow }
    requires place { LinkRoom 1 (at stream.now.link tables.old.links.entries) }
    ensures state { state_of tables.new
        ≡ (leaves left id stream.now.part.flow stream.now (state_of tables.old)).state }
    ensures uses { (c : ℕ) → Uses stream.now.link 1 c 0 tables.old tables.new }
{
    let mut flow = stream.part.flow;
    let back = flow.hand_to(left);
    set_flow(tables, id, stream, &flow);
    tell_handed(tables, id, stream, left, back);
}

/// Acknowledges a device's write that was handed out whole, or gives it back credit.
fn tell_handed(tables: &mut Tables, id: u32, stream: &Stream, left: usize, back: u32)
    requires back { back ≡ flow_back left stream.now.part.flow }
    requires place { LinkRoom 1 (at stream.now.link tables.old.links.entries) }
    ensures state { state_of tables.new
        ≡ (tells_handed stream.now.part.flow left id stream.now (state_of tables.old)).state }
    ensures uses { (c : ℕ) → Uses stream.now.link 1 c 0 tables.old tables.new }
{
    if stream.part.flow.has_credit() {
        tell_credit(tables, id, stream, back);
    } else {
        tell_left(tables, id, stream, left);
    }
}

/// Acknowledges a device's write once it was handed out whole.
fn tell_left(tables: &mut Tables, id: u32, stream: &Stream, left: usize)
    requires { LinkRoom 1 (at stream.now.link tables.old.links.entries) }
    ensures state { (window : OneWrite) → state_of tables.new
        ≡ (tells_handed (Flow.One window) left id stream.now (state_of tables.old)).state }
    ensures uses { (c : ℕ) → Uses stream.now.link 1 c 0 tables.old tables.new }
{
    if left == 0 {
        tables.owe_okay(stream.link, id, stream.part.remote);
    }
}

/// Queues an OKAY with more credit for a device.
fn tell_credit(tables: &mut Tables, id: u32, stream: &Stream, credit: u32)
    requires { LinkRoom 1 (at stream.now.link tables.old.links.entries) }
    ensures state { state_of tables.new
        ≡ (tells_credit credit id stream.now (state_of tables.old)).state }
    ensures uses { (c : ℕ) → Uses stream.now.link 1 c 0 tables.old tables.new }
{
    if credit > 0 {
        tables.owe_credit(stream.link, id, stream.part.remote, credit);
    }
}

/// Replaces the flow state of a stream.
pub(crate) fn set_flow(tables: &mut Tables, id: u32, stream: &Stream, flow: &Flow)
    requires { at id tables.old.streams.streams ≡ Some stream.now }
    ensures state { state_of tables.new
        ≡ to_stream id (with_stream_part (with_flow flow.now stream.now.part))
        (state_of tables.old) }
    ensures clients { tables.new.clients ≡ tables.old.clients }
    ensures links { tables.new.links ≡ tables.old.links }
    ensures uses { (t c : ℕ) → Uses t 0 c 0 tables.old tables.new }
{
    let part = Part {
        flow: *flow,
        ..stream.part
    };
    tables.set_part(id, stream, part);
}

/// Removes the first `n` bytes of a link's output queue, which were handed out.
pub fn hand_link(tables: &mut Tables, link: u32, n: usize)
    requires { AreDueOn n (at link tables.old.links.entries) }
    ensures state { state_of tables.new ≡ sends link n (state_of tables.old) }
    ensures clients { tables.new.clients ≡ tables.old.clients }
    ensures streams { tables.new.streams ≡ tables.old.streams }
    ensures uses { (t c : ℕ) → Uses t 0 c 0 tables.old tables.new }
{
    if let Some(port) = tables.links.get_mut(&link) {
        port.link.hand(n);
    }
}

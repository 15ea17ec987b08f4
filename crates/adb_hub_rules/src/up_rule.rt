//! The bytes that a stream may send to its device, by its window or its credit (protocol.txt, WRITE
//! and READY).

ghost use Rattle.std.specs.Prelude.{◌≡◌, ◌≢◌, ◌≤◌, ◌<◌, ℕ, true, false, [], Some, None, length, take, drop, option_map};
ghost use Rattle.adb_outside.specs.Tables.{at};
ghost use Rattle.adb_wire.specs.declared.headers.TheConstants.{MAX_PAYLOAD};
ghost use Rattle.adb_stream.specs.Flow.{may_send};
ghost use Rattle.adb_client.specs.Client.{SeenClient};
ghost use Rattle.adb_stream.specs.declared.row.Stream.{Stream};
ghost use Rattle.adb_history.specs.Rows.{to_client, with_held};
ghost use Rattle.adb_history.specs.Flow.{write_len, is_over, goes_up, flow_after, all_go_up, noted, closes_if, sends_up, up};
ghost use Rattle.adb_hub_tables.specs.Endings.{Reports};
ghost use Rattle.adb_hub_tables.specs.Tables.{client_row, state_of};
ghost use Rattle.adb_hub_tables.specs.Places.{LinkRoom, IsCounted, IsProvided, Uses};
ghost use Rattle.adb_hub_rules.specs.Handing.{UsesOf};
ghost use Rattle.adb_hub_rules.specs.Up.{IsReadyUp, IsSized, StaysReady, writes_up, held_at, CanCut, cut_off, unsent, all_unsent, has_open, CanSend, IsReadyToSend, Sends};

use crate::ends::end_telling;
use crate::handing::set_flow;
use adb_client::Phase;
use adb_history::Ending;
use adb_hub_tables::{Endings, Tables};
use adb_outside::SplitBytes;
use adb_stream::{Flow, Part, Stream};

/// Applies the up rule to the stream of an id: its client's held bytes are sent in writes, followed
/// by its end, if the client's input ended and all bytes were sent.
pub fn up(tables: &mut Tables, ends: &mut Endings, id: u32)
    requires ready { IsReadyUp id tables.old }
    requires sized { IsSized tables.old }
    requires counted { IsCounted tables.old }
    ensures state { state_of tables.new ≡ (up id (state_of tables.old)).state }
    ensures reports { Reports (up id (state_of tables.old)).told
        ends.old tables.old ends.new tables.new }
    ensures uses { (c : ℕ) → UsesOf (at id tables.old.streams.streams) (writes_up id tables.old)
        c 0 tables.old tables.new }
    ensures others { (l : ℕ) → l ≢ id → StaysReady l tables.old tables.new }
    ensures devices { tables.new.devices ≡ tables.old.devices }
{
    if let Some(stream) = tables.streams.get(id).copied()
        && has_open(tables, stream.client, id)
    {
        send_up(tables, ends, id, &stream);
    }
}

/// Applies the up rule to a stream that cannot send: it takes no places but that of its end.
pub fn close_idle(tables: &mut Tables, ends: &mut Endings, id: u32)
    requires provided { IsProvided tables.old }
    requires idle { (stream : Stream) → at id tables.old.streams.streams ≡ Some stream
        → all_unsent stream tables.old ≡ [] }
    ensures state { state_of tables.new ≡ (up id (state_of tables.old)).state }
    ensures reports { Reports (up id (state_of tables.old)).told
        ends.old tables.old ends.new tables.new }
    ensures uses { (t c : ℕ) → Uses t 0 c 0 tables.old tables.new }
{
    if let Some(stream) = tables.streams.get(id).copied()
        && has_open(tables, stream.client, id)
    {
        close_over(tables, ends, id, &stream);
    }
}

/// Returns whether a client has the stream of an id open.
fn has_open(tables: &Tables, client: u32, id: u32) -> bool
    ensures { result ≡ has_open id (at client tables.now.clients.entries) }
{
    match tables.clients.get(&client) {
        Some(row) => match row.about().phase {
            Phase::Streaming(open) => open == id,
            _ => false,
        },
        None => false,
    }
}

/// Sends a client's held bytes on the stream that it has open.
fn send_up(tables: &mut Tables, ends: &mut Endings, id: u32, stream: &Stream)
    requires here { at id tables.old.streams.streams ≡ Some stream.now }
    requires open { has_open id (at stream.now.client tables.old.clients.entries) ≡ true }
    requires ready { IsReadyToSend stream.now tables.old }
    requires sized { IsSized tables.old }
    requires counted { IsCounted tables.old }
    ensures state { (row : SeenClient)
        → at stream.now.client tables.old.clients.entries ≡ Some row
        → state_of tables.new ≡ (sends_up id stream.now (client_row row)
        (all_unsent stream.now tables.old) (state_of tables.old)).state }
    ensures reports { (row : SeenClient)
        → at stream.now.client tables.old.clients.entries ≡ Some row
        → Reports (sends_up id stream.now (client_row row)
        (all_unsent stream.now tables.old) (state_of tables.old)).told
        ends.old tables.old ends.new tables.new }
    ensures uses { (c : ℕ) → Uses stream.now.link (length (all_unsent stream.now tables.old))
        c 0 tables.old tables.new }
    ensures others { (c : ℕ) → c ≢ stream.now.client
        → at c tables.new.clients.entries ≡ at c tables.old.clients.entries }
{
    let flow = send_held(tables, id, stream);
    let part = Part {
        flow,
        ..stream.part
    };
    close_over(tables, ends, id, &Stream { part, ..*stream });
}

/// Sends as many of a client's held bytes as the flow of its stream allows. Returns the flow
/// afterwards.
fn send_held(tables: &mut Tables, id: u32, stream: &Stream) -> Flow
    requires here { at id tables.old.streams.streams ≡ Some stream.now }
    requires ready { IsReadyToSend stream.now tables.old }
    requires sized { IsSized tables.old }
    ensures state { let writes = all_unsent stream.now tables.old in
        let held = held_at (at stream.now.client tables.old.clients.entries) in
        state_of tables.new ≡ (all_go_up id stream.now writes
        (noted id stream.now held writes (state_of tables.old))).state }
    ensures flow { result
        ≡ flow_after (all_unsent stream.now tables.old) stream.now.part.flow }
    ensures uses { (c : ℕ) → Uses stream.now.link (length (all_unsent stream.now tables.old))
        c 0 tables.old tables.new }
    ensures others { (c : ℕ) → c ≢ stream.now.client
        → at c tables.new.clients.entries ≡ at c tables.old.clients.entries }
{
    let maxdata = tables.maxdata_of(stream.link);
    let flow = write_up(tables, id, stream, maxdata);
    set_flow(tables, id, stream, &flow);
    flow
}

/// Ends a stream that is over for its client.
fn close_over(tables: &mut Tables, ends: &mut Endings, id: u32, stream: &Stream)
    requires here { at id tables.old.streams.streams ≡ Some stream.now }
    requires open { has_open id (at stream.now.client tables.old.clients.entries) ≡ true }
    requires room { LinkRoom 0 (at stream.now.link tables.old.links.entries) }
    requires counted { IsCounted tables.old }
    ensures state { (row : SeenClient)
        → at stream.now.client tables.old.clients.entries ≡ Some row
        → state_of tables.new
        ≡ (closes_if (is_over row.about.ended row.held stream.now.part.flow) id
        (Some stream.now) (state_of tables.old)).state }
    ensures reports { (row : SeenClient)
        → at stream.now.client tables.old.clients.entries ≡ Some row
        → Reports (closes_if (is_over row.about.ended row.held stream.now.part.flow) id
        (Some stream.now) (state_of tables.old)).told
        ends.old tables.old ends.new tables.new }
    ensures uses { (c : ℕ) → Uses stream.now.link 0 c 0 tables.old tables.new }
    ensures others { (c : ℕ) → c ≢ stream.now.client
        → at c tables.new.clients.entries ≡ at c tables.old.clients.entries }
{
    if is_over(tables, stream.client, &stream.part.flow) {
        end_telling(tables, ends, id, stream, Ending::ClientClosed);
    }
}

/// Returns whether a stream is over for its client: the client's input ended, none of it is held,
/// and no write is outstanding.
fn is_over(tables: &Tables, client: u32, flow: &Flow) -> bool
    ensures { (row : SeenClient) → at client tables.now.clients.entries ≡ Some row
        → result ≡ is_over row.about.ended row.held flow.now }
{
    match tables.clients.get(&client) {
        Some(row) => row.held() == 0 && row.about().ended && flow.is_idle(),
        None => false,
    }
}

/// Sends as many writes as the flow of a stream allows. Returns the flow afterwards.
fn write_up(tables: &mut Tables, id: u32, stream: &Stream, maxdata: usize) -> Flow
    requires size { maxdata ≤ MAX_PAYLOAD }
    requires cut { CanSend stream.now maxdata (stream.now.part.flow, tables.old) }
    requires room { LinkRoom (length (unsent stream.now maxdata
        (stream.now.part.flow, tables.old))) (at stream.now.link tables.old.links.entries) }
    ensures sends { Sends id stream.now maxdata (stream.now.part.flow, tables.old)
        (result, tables.new) }
    ensures all { unsent stream.now maxdata (result, tables.new) ≡ [] }
{
    let mut flow = stream.part.flow;
    while write_next(tables, id, stream, &mut flow, maxdata) {}
    flow
}

/// Sends one write, if the flow of a stream allows it. Returns whether it did.
fn write_next(
    tables: &mut Tables,
    id: u32,
    stream: &Stream,
    flow: &mut Flow,
    maxdata: usize,
) -> bool
    requires size { maxdata ≤ MAX_PAYLOAD }
    requires cut { CanSend stream.now maxdata (flow.old, tables.old) }
    requires room { LinkRoom (length (unsent stream.now maxdata (flow.old, tables.old)))
        (at stream.now.link tables.old.links.entries) }
    ensures sends { Sends id stream.now maxdata (flow.old, tables.old) (flow.new, tables.new) }
    ensures all { result ≡ false
        → unsent stream.now maxdata (flow.new, tables.new) ≡ [] }
    ensures less { result ≡ true
        → length (held_at (at stream.now.client tables.new.clients.entries))
        < length (held_at (at stream.now.client tables.old.clients.entries)) }
{
    let n = next_len(tables, stream.client, flow, maxdata);
    if n == 0 {
        return false;
    }
    write_one(tables, id, stream, n);
    flow.wrote(n);
    true
}

/// Returns how many bytes the next write has.
fn next_len(tables: &Tables, client: u32, flow: &Flow, maxdata: usize) -> usize
    ensures { result ≡ write_len maxdata (may_send flow.now maxdata)
        (held_at (at client tables.now.clients.entries)) }
{
    match tables.clients.get(&client) {
        Some(row) => maxdata.min(flow.may_send(maxdata)).min(row.held()),
        None => 0,
    }
}

/// Sends `n` bytes in one write.
fn write_one(tables: &mut Tables, id: u32, stream: &Stream, n: usize)
    requires size { n ≤ MAX_PAYLOAD }
    requires cut { CanCut n (at stream.now.client tables.old.clients.entries) }
    requires some { 0 < n }
    requires held { n ≤ length (held_at (at stream.now.client tables.old.clients.entries)) }
    requires room { LinkRoom 1 (at stream.now.link tables.old.links.entries) }
    ensures state { let held = held_at (at stream.now.client tables.old.clients.entries) in
        state_of tables.new ≡ (goes_up id stream.now (take n held)
        (to_client stream.now.client (with_held (drop n held)) (state_of tables.old))).state }
    ensures client { at stream.now.client tables.new.clients.entries
        ≡ option_map (cut_off n) (at stream.now.client tables.old.clients.entries) }
    ensures others { (c : ℕ) → c ≢ stream.now.client
        → at c tables.new.clients.entries ≡ at c tables.old.clients.entries }
    ensures streams { tables.new.streams ≡ tables.old.streams }
    ensures uses { (c : ℕ) → Uses stream.now.link 1 c 0 tables.old tables.new }
{
    if let Some(payload) = cut(tables, stream.client, n) {
        tables.owe_write(stream.link, id, stream.part.remote, payload);
    }
}

/// Cuts off the first bytes that a client holds.
fn cut(tables: &mut Tables, client: u32, n: usize) -> Option<SplitBytes>
    requires cut { CanCut n (at client tables.old.clients.entries) }
    requires some { 0 < n }
    requires held { n ≤ length (held_at (at client tables.old.clients.entries)) }
    ensures piece { result
        ≡ option_map (λ row. take n row.held) (at client tables.old.clients.entries) }
    ensures state { let held = held_at (at client tables.old.clients.entries) in
        state_of tables.new ≡ to_client client (with_held (drop n held)) (state_of tables.old) }
    ensures client { at client tables.new.clients.entries
        ≡ option_map (cut_off n) (at client tables.old.clients.entries) }
    ensures others { (c : ℕ) → c ≢ client
        → at c tables.new.clients.entries ≡ at c tables.old.clients.entries }
    ensures streams { tables.new.streams ≡ tables.old.streams }
    ensures links { tables.new.links ≡ tables.old.links }
    ensures uses { (t c : ℕ) → Uses t 0 c 0 tables.old tables.new }
{
    let row = tables.clients.get_mut(&client)?;
    Some(row.cut_ready(n))
}

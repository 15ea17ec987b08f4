//! Bytes of a client that has its stream open: they are sent on it.

ghost use Rattle.std.specs.Prelude.{◌≡◌, ℕ, IfOk, OnOk, OnErr, Some, false};
ghost use Rattle.adb_outside.specs.Tables.{at};
ghost use Rattle.adb_history.specs.Flow.{up};
ghost use Rattle.adb_hub_tables.specs.Endings.{Records};
ghost use Rattle.adb_hub_tables.specs.Fit.{IsFit};
ghost use Rattle.adb_hub_tables.specs.Tables.{state_of};
ghost use Rattle.adb_hub_rules.specs.Up.{IsReadyUp, IsSized};
ghost use Rattle.adb_hub_clients.specs.Leaving.{Leaves, HoldsAtLeast};
ghost use Rattle.adb_hub_clients.specs.Taking.{takes_in};
ghost use Rattle.adb_hub_clients.specs.Sending.{IsPreparedAt, can_send_at};

use crate::places::make_packets;
use crate::taking::{take_back, take_in};
use adb_hub_rules::{close_idle, up};
use adb_hub_tables::{Endings, Tables, make_ready};
use adb_stream::Stream;
use std::alloc::AllocError;

/// Submits a piece of a client that has the stream of an id open: it is sent as far as the stream
/// allows.
pub(crate) fn send(
    tables: &mut Tables,
    ends: &mut Endings,
    client: u32,
    id: u32,
    piece: &[u8],
) -> Result<(), AllocError>
    requires fit { IsFit tables.old }
    requires sized { IsSized tables.old }
    ensures made { OnOk result
        (Leaves (up id (takes_in client piece.now (state_of tables.old))).state tables.new) }
    ensures told { OnOk result (Records
        (up id (takes_in client piece.now (state_of tables.old))).told
        ends.old tables.old ends.new) }
    ensures kept { OnErr result (Leaves (state_of tables.old) tables.new) }
    ensures quiet { OnErr result (ends.new ≡ ends.old) }
{
    take_in(tables, client, piece)?;
    match advance(tables, ends, id) {
        Ok(()) => Ok(()),
        Err(error) => {
            take_back(tables, client, piece.len());
            Err(error)
        }
    }
}

/// Sends the held bytes of a stream's client as far as the stream allows. No more than that is
/// prepared, and nothing if the stream allows nothing now.
fn advance(tables: &mut Tables, ends: &mut Endings, id: u32) -> Result<(), AllocError>
    requires fit { IsFit tables.old }
    requires sized { IsSized tables.old }
    ensures made { OnOk result (Leaves (up id (state_of tables.old)).state tables.new) }
    ensures told { OnOk result (Records (up id (state_of tables.old)).told
        ends.old tables.old ends.new) }
    ensures kept { OnErr result (Leaves (state_of tables.old) tables.new) }
    ensures quiet { OnErr result (ends.new ≡ ends.old) }
    ensures held { OnErr result ((c n : ℕ) → HoldsAtLeast n (at c tables.old.clients.entries)
        → HoldsAtLeast n (at c tables.new.clients.entries)) }
{
    if !can_send(tables, id) {
        rest(tables, ends, id);
        return Ok(());
    }
    make_up_ready(tables, id)?;
    go_up(tables, ends, id);
    Ok(())
}

/// Returns whether the stream of an id may send now.
fn can_send(tables: &Tables, id: u32) -> bool
    ensures { result ≡ can_send_at (at id tables.now.streams.streams) }
{
    match tables.streams.get(id) {
        Some(stream) => stream.part.flow.can_send(),
        None => false,
    }
}

/// Applies the up rule to a stream that may not send now.
fn rest(tables: &mut Tables, ends: &mut Endings, id: u32)
    requires fit { IsFit tables.old }
    requires idle { can_send_at (at id tables.old.streams.streams) ≡ false }
    ensures made { Leaves (up id (state_of tables.old)).state tables.new }
    ensures told { Records (up id (state_of tables.old)).told ends.old tables.old ends.new }
{
    close_idle(tables, ends, id);
}

/// Sends the held bytes of a stream's client as far as the stream allows.
fn go_up(tables: &mut Tables, ends: &mut Endings, id: u32)
    requires fit { IsFit tables.old }
    requires ready { IsReadyUp id tables.old }
    requires sized { IsSized tables.old }
    ensures made { Leaves (up id (state_of tables.old)).state tables.new }
    ensures told { Records (up id (state_of tables.old)).told ends.old tables.old ends.new }
{
    up(tables, ends, id);
}

/// Prepares the held bytes of a stream's client, and reserves places on its link for the writes
/// that it may send.
fn make_up_ready(tables: &mut Tables, id: u32) -> Result<(), AllocError>
    requires { IsFit tables.old }
    ensures made { Leaves (state_of tables.old) tables.new }
    ensures devices { tables.new.devices ≡ tables.old.devices }
    ensures held { (c n : ℕ) → HoldsAtLeast n (at c tables.old.clients.entries)
        → HoldsAtLeast n (at c tables.new.clients.entries) }
    ensures ready { OnOk result (IsReadyUp id tables.new) }
{
    match tables.streams.get(id).copied() {
        Some(stream) => make_stream_ready(tables, id, &stream),
        None => Ok(()),
    }
}

fn make_stream_ready(tables: &mut Tables, id: u32, stream: &Stream) -> Result<(), AllocError>
    requires fit { IsFit tables.old }
    requires here { at id tables.old.streams.streams ≡ Some stream.now }
    ensures made { Leaves (state_of tables.old) tables.new }
    ensures devices { tables.new.devices ≡ tables.old.devices }
    ensures held { (c n : ℕ) → HoldsAtLeast n (at c tables.old.clients.entries)
        → HoldsAtLeast n (at c tables.new.clients.entries) }
    ensures ready { OnOk result (IsReadyUp id tables.new) }
{
    let maxdata = tables.maxdata_of(stream.link);
    let writes = prepare(tables, stream, maxdata)?;
    make_packets(tables, stream.link, writes)
}

/// Prepares the held bytes of a stream's client. Returns in how many writes at most they can be
/// sent.
fn prepare(tables: &mut Tables, stream: &Stream, maxdata: usize) -> Result<usize, AllocError>
    requires { IsFit tables.old }
    ensures made { Leaves (state_of tables.old) tables.new }
    ensures others { tables.new ≡ record tables.old { clients = tables.new.clients } }
    ensures held { (c n : ℕ) → HoldsAtLeast n (at c tables.old.clients.entries)
        → HoldsAtLeast n (at c tables.new.clients.entries) }
    ensures ready { IfOk result (λ writes. IsPreparedAt writes stream.now.part.flow maxdata
        (at stream.now.client tables.new.clients.entries)) }
{
    make_ready(
        &mut tables.clients,
        stream.client,
        &stream.part.flow,
        0,
        maxdata,
    )
}

//! Preparing clients: places for their output, and their held bytes for sending.

ghost use Rattle.std.specs.Prelude.{◌≡◌, ◌+◌, ℕ, IfOk, OnOk};
ghost use Rattle.adb_outside.specs.Tables.{at};
ghost use Rattle.adb_hub_tables.specs.Places.{ClientRoom};
ghost use Rattle.adb_hub_tables.specs.Widening.{WidensClients};
ghost use Rattle.adb_hub_tables.specs.Tracked.{IsAmong};
ghost use Rattle.adb_hub_links.specs.Counting.{count_at, credit_in};
ghost use Rattle.adb_hub_links.specs.Reserving.{IsCutAt, writes_at, all_writes};

use crate::counting::{counted, sum};
use adb_client::Client;
use adb_hub_tables::{TouchedMap, make_ready, reserve_slices};
use adb_stream::{Stream, Streams};
use std::alloc::AllocError;
use std::collections::{BTreeMap, BTreeSet};

/// Reserves places for this many slices for each client, in addition to those that it keeps.
pub(crate) fn reserve_each(
    clients: &mut TouchedMap<Client>,
    counts: &BTreeMap<u32, usize>,
) -> Result<(), AllocError>
    requires { (c : ℕ) → ClientRoom 0 (at c clients.old.entries) }
    ensures widens { WidensClients clients.old.entries clients.new.entries }
    ensures room { OnOk result ((c : ℕ) → ClientRoom (count_at (at c counts.now.entries))
        (at c clients.new.entries)) }
{
    for (client, count) in counts.iter() {
        reserve_slices(clients, *client, *count)?;
    }
    Ok(())
}

/// Prepares the held bytes of these streams' clients: as many as each stream may write after the
/// credit that it is given. Returns the maximum number of writes. The device of all of them accepts
/// `maxdata` bytes in one packet.
pub(crate) fn prepare_each(
    clients: &mut TouchedMap<Client>,
    streams: &Streams,
    ids: &BTreeSet<u32>,
    given: &BTreeMap<u32, usize>,
    maxdata: usize,
) -> Result<usize, AllocError>
    ensures widens { WidensClients clients.old.entries clients.new.entries }
    ensures cut { OnOk result ((l : ℕ) → IsAmong l ids.now.keys
        → IsCutAt (credit_in given.now.entries l) maxdata
        (at l streams.now.streams) clients.new.entries) }
    ensures writes { IfOk result (λ writes. writes ≡ all_writes (credit_in given.now.entries)
        maxdata ids.now.keys streams.now.streams clients.old.entries) }
{
    let mut writes = 0usize;
    for id in ids.iter() {
        let more = counted(given, *id);
        writes = prepare_also(clients, streams.get(*id).copied(), more, maxdata, writes)?;
    }
    Ok(writes)
}

/// Prepares the held bytes of a stream's client, and adds its writes to those of others.
pub(crate) fn prepare_also(
    clients: &mut TouchedMap<Client>,
    stream: Option<Stream>,
    more: usize,
    maxdata: usize,
    before: usize,
) -> Result<usize, AllocError>
    ensures widens { WidensClients clients.old.entries clients.new.entries }
    ensures cut { OnOk result (IsCutAt more maxdata stream clients.new.entries) }
    ensures writes { IfOk result (λ writes. writes
        ≡ before + writes_at more maxdata stream clients.old.entries) }
{
    let Some(stream) = stream else {
        return Ok(before);
    };
    let writes = make_ready(clients, stream.client, &stream.part.flow, more, maxdata)?;
    sum(before, writes)
}

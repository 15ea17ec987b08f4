//! Counting the slices that packets queue for each client, at most.

ghost use Rattle.std.specs.Prelude.{◌≡◌, ◌+◌, ℕ, if◌then◌else◌, nat_eq, IfOk, OnOk};
ghost use Rattle.adb_outside.specs.Tables.{at};
ghost use Rattle.adb_hub_rules.specs.Came.{packet_of, packets_of, slices_for, slices_in};
ghost use Rattle.adb_hub_links.specs.Counting.{count_at, fed_client};

use adb_hub_rules::Came;
use adb_stream::Streams;
use adb_wire::Command;
use std::alloc::{AllocError, Global};
use std::collections::{BTreeMap, VecDeque};

/// Returns how many slices the packets queue for each client, at most.
pub(crate) fn count(
    alloc: Global,
    streams: &Streams,
    packets: &VecDeque<Came>,
) -> Result<BTreeMap<u32, usize>, AllocError>
    ensures { IfOk result (λ counts. (c : ℕ) → count_at (at c counts.entries)
        ≡ slices_in (packets_of packets.now.items) streams.now.streams c) }
{
    let mut counts = BTreeMap::new(alloc);
    for came in packets.iter() {
        count_also(&mut counts, streams, came)?;
    }
    Ok(counts)
}

/// Counts one more packet.
fn count_also(
    counts: &mut BTreeMap<u32, usize>,
    streams: &Streams,
    came: &Came,
) -> Result<(), AllocError>
    ensures { OnOk result ((c : ℕ) → count_at (at c counts.new.entries)
        ≡ count_at (at c counts.old.entries)
        + slices_for (packet_of came.now) streams.now.streams c) }
{
    match fed_client(streams, came) {
        Some(client) => add(counts, client, 1),
        None => Ok(()),
    }
}

/// Returns the client for which a packet may queue bytes.
pub(crate) fn fed_client(streams: &Streams, came: &Came) -> Option<u32>
    ensures { result ≡ fed_client (packet_of came.now) streams.now.streams }
{
    match came.head.command {
        Command::Okay | Command::Wrte => { streams.get(came.head.arg1).map(|stream| stream.client) }
        _ => None,
    }
}

/// Adds `n` to the count of a number.
pub(crate) fn add(
    counts: &mut BTreeMap<u32, usize>,
    number: u32,
    n: usize,
) -> Result<(), AllocError>
    ensures { OnOk result ((k : ℕ) → count_at (at k counts.new.entries)
        ≡ count_at (at k counts.old.entries) + (if nat_eq number k then n else 0)) }
{
    let now = sum(counted(counts, number), n)?;
    counts.insert(number, now)?;
    Ok(())
}

/// Returns the count of a number.
pub(crate) fn counted(counts: &BTreeMap<u32, usize>, number: u32) -> usize
    ensures { result ≡ count_at (at number counts.now.entries) }
{
    counts.get(&number).copied().unwrap_or(0)
}

/// Returns the sum of two counts. An overflow counts as an allocation failure, since that many
/// could not be allocated either.
pub(crate) fn sum(a: usize, b: usize) -> Result<usize, AllocError>
    ensures { IfOk result (λ sum. sum ≡ a + b) }
{
    a.checked_add(b).ok_or(AllocError)
}

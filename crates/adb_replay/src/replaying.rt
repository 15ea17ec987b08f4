//! Replaying a capture: its entries are applied in order, and all output is handed out after each.

ghost use Rattle.std.specs.Prelude.{◌≡◌, ◌≢◌, None, Err, not, true, false};
ghost use Rattle.adb_outside.specs.Outside.{Counts};
ghost use Rattle.adb_capture_reader.specs.Reading.{HoldsLittle};
ghost use Rattle.adb_capture.specs.Lent.{entry_lent};
ghost use Rattle.adb_capture.specs.Records.{HasRecord};
ghost use Rattle.adb_history.specs.Machine.{History};
ghost use Rattle.adb_history.specs.Kept.{IsLawful};
ghost use Rattle.adb_history.specs.Accepted.{is_input};
ghost use Rattle.adb_entries.specs.Machine.{IsHeld};
ghost use Rattle.adb_replay.specs.Replay.{IsDrained, Drains, ReplaysEntry, Replays, moment};
ghost use Rattle.adb_replay.specs.Replayed.{ReplaysCapture};
ghost use Rattle.adb_replay.specs.Keeping.{KeepsEntry, CountsReads, IsLoss};
ghost use Rattle.adb_replay.specs.Keeping.{is_write_fault, is_read_fault};

use crate::output::Output;
use crate::stop::Stop;
use adb_capture::{Entry, Lent};
use adb_capture_reader::{CaptureReader, Record};
use adb_entries::{apply, hand_next};
use adb_history::draining_ends;
use adb_hub::Hub;
use adb_outside::{Sink, Source};
use std::alloc::Global;

/// Replays the capture of a source, up to its end or a kill, and writes the whole history to the
/// sink as a capture. If the magic is wrong, nothing is written.
///
/// - `ReadFault`: the source failed. The history of the consumed bytes is written.
/// - `WriteFault`: the sink failed. A prefix of the history is written.
/// - `OutOfMemory`: an allocation failed. Nothing is written, or a prefix of the history up to the
///   end of a record.
/// - `Refused`: a record, or the magic, is refused. The history before it is written.
pub fn replay<S: Source, K: Sink>(alloc: Global, source: &mut S, sink: &mut K) -> Result<(), Stop>
    ensures replays { ReplaysCapture (S.left source.old) (S.left source.new)
        (K.written sink.old) (K.written sink.new) result }
    ensures reads { CountsReads result (Counts S.steady S.faults source.old source.new) }
    ensures writes { Counts K.steady K.faults sink.old sink.new (is_write_fault result) }
{
    let mut reader = CaptureReader::new(alloc)?;
    reader.open(source)?;
    let mut output = Output::new(alloc)?;
    let ended = replay_records(alloc, &mut reader, source, &mut output, sink);
    output.write_out(sink)?;
    ended
}

/// Replays the records of a capture, after its magic was read: all of them, or those up to a kill.
fn replay_records<S: Source, K: Sink>(
    alloc: Global,
    reader: &mut CaptureReader,
    source: &mut S,
    output: &mut Output,
    sink: &mut K,
) -> Result<(), Stop>
    requires sound { reader.old.failed ≡ None }
    requires opened { reader.old.opened ≡ true }
    requires few { HoldsLittle reader.old.held }
    ensures replays { Replays
        (moment reader.old (S.left source.old) (K.written sink.old, output.old))
        (moment reader.new (S.left source.new) (K.written sink.new, output.new)) result }
    ensures reads { Counts S.steady S.faults source.old source.new (is_read_fault result) }
    ensures writes { Counts K.steady K.faults sink.old sink.new (is_write_fault result) }
{
    let mut hub = Hub::new(alloc);
    while !hub.is_stopped() {
        let Some(size) = reader.await_next(source)? else {
            return Ok(());
        };
        replay_record(&mut hub, output, sink, &reader.first(size))?;
        reader.pass(size);
    }
    Ok(())
}

/// Replays one record: applies its entry, keeps its bytes, and hands out all output. A hand-out
/// that was recorded is skipped.
fn replay_record<K: Sink>(
    hub: &mut Hub,
    output: &mut Output,
    sink: &mut K,
    read: &Record<'_>,
) -> Result<(), Stop>
    requires held { IsHeld hub.old }
    requires running { hub.old.stopped ≡ false }
    ensures replays { (h : History) → IsDrained hub.old h
        → ReplaysEntry result read.now.0 read.now.1 h
        (K.written sink.old, output.old) (K.written sink.new, output.new) hub.new }
    ensures source { result ≢ Err Stop.ReadFault }
    ensures counts { Counts K.steady K.faults sink.old sink.new (is_write_fault result) }
{
    let entry = read.entry();
    if is_hand_out(entry) {
        return Ok(());
    }
    match apply(hub, entry) {
        Err(why) => Err(Stop::at(read.offset(), why)),
        Ok(()) => {
            output.keep_record(sink, read)?;
            drain(hub, output, sink)
        }
    }
}

/// Hands out all output to every client and link, and keeps each hand-out. By the law
/// `draining_ends` this ends, with no output left.
fn drain<K: Sink>(hub: &mut Hub, output: &mut Output, sink: &mut K) -> Result<(), Stop>
    requires held { IsHeld hub.old }
    ensures drains { (h : History) → IsLawful hub.old h → Drains result h
        (K.written sink.old, output.old) (K.written sink.new, output.new) hub.new }
    ensures loss { IsLoss result }
    ensures counts { Counts K.steady K.faults sink.old sink.new (is_write_fault result) }
{
    draining_ends();
    while let Some(entry) = hand_next(hub)? {
        keep(output, sink, entry)?;
    }
    Ok(())
}

/// Keeps an entry, and drops it.
fn keep<K: Sink>(output: &mut Output, sink: &mut K, entry: Entry) -> Result<(), Stop>
    requires { HasRecord entry }
    ensures kept { KeepsEntry result entry
        (K.written sink.old, output.old) (K.written sink.new, output.new) }
    ensures loss { IsLoss result }
    ensures counts { Counts K.steady K.faults sink.old sink.new (is_write_fault result) }
{
    output.keep(sink, &entry)
}

/// Returns whether an entry is a hand-out.
fn is_hand_out(entry: Lent<'_>) -> bool
    ensures { result ≡ not (is_input (entry_lent entry.entry)) }
{
    matches!(entry, Lent::Put { .. } | Lent::Send { .. })
}

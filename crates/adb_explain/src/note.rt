//! The lines of the note: one for each status but Done.

ghost use Rattle.std.specs.Prelude.{◌≡◌, ◌≢◌, ◌<◌, ◌⊎◌, IfOk, length, Bool};
ghost use Rattle.adb_outside.specs.Outside.{Counts, Rises};
ghost use Rattle.adb_explain.specs.Notes.{IsLine, bad_capture_line};
ghost use Rattle.adb_explain.specs.Stopping.{EndsIn, SaysLine};

use crate::status::Status;
use adb_history::Refusal;
use adb_outside::{Sink, Text, Wrote};
use adb_replay::Stop;
use itoa::Buffer;
use std::alloc::{AllocError, Global};

/// Writes the line for the reason why a run stopped, and returns the status of the run.
pub(crate) fn say_stop<N: Sink>(alloc: Global, note: &mut N, stop: Stop) -> Status
    ensures status { EndsIn stop result }
    ensures told { SaysLine result (N.written note.old) (N.written note.new) }
    ensures fault { result ≡ Status.WriteFault
        → (stop ≡ Stop.WriteFault) ⊎ Rises (N.faults note.old) (N.faults note.new) }
{
    match stop {
        Stop::ReadFault => say(note, Status::ReadFault, b"adbexplain: read fault\n"),
        Stop::WriteFault => say_write_fault(note),
        Stop::OutOfMemory => say(note, Status::OutOfMemory, b"adbexplain: out of memory\n"),
        Stop::Refused(refusal) => match refusal_line(alloc, refusal) {
            Ok(line) => say(note, Status::BadCapture, line.as_slice()),
            Err(AllocError) => say(note, Status::OutOfMemory, b"adbexplain: out of memory\n"),
        },
    }
}

/// Writes the line of a history that is not legal, and returns the status of the run.
pub(crate) fn say_illegal<N: Sink>(note: &mut N) -> Status
    ensures status { (result ≡ Status.Illegal) ⊎ (result ≡ Status.WriteFault) }
    ensures told { SaysLine result (N.written note.old) (N.written note.new) }
    ensures fault { result ≡ Status.WriteFault
        → Rises (N.faults note.old) (N.faults note.new) }
{
    say(note, Status::Illegal, b"adbexplain: illegal history\n")
}

/// Writes the usage line, and returns the status of the run.
pub(crate) fn say_usage<N: Sink>(note: &mut N) -> Status
    ensures status { (result ≡ Status.Usage) ⊎ (result ≡ Status.WriteFault) }
    ensures told { SaysLine result (N.written note.old) (N.written note.new) }
    ensures fault { result ≡ Status.WriteFault
        → Rises (N.faults note.old) (N.faults note.new) }
{
    say(note, Status::Usage, b"usage: adbexplain [--lengths]\n")
}

/// Writes the line of a status, and returns the status. If that write fails, tries once to write
/// the line of WriteFault, and returns WriteFault.
fn say<N: Sink>(note: &mut N, status: Status, line: &[u8]) -> Status
    requires some { 0 < length line.now }
    requires own { IsLine status line.now }
    requires other { status ≢ Status.WriteFault }
    ensures status { (result ≡ status) ⊎ (result ≡ Status.WriteFault) }
    ensures told { SaysLine result (N.written note.old) (N.written note.new) }
    ensures fault { result ≡ Status.WriteFault
        → Rises (N.faults note.old) (N.faults note.new) }
{
    match note.write(line) {
        Wrote::All => status,
        Wrote::Failed { .. } => say_write_fault(note),
    }
}

/// Tries once to write the line of WriteFault, and returns WriteFault.
fn say_write_fault<N: Sink>(note: &mut N) -> Status
    ensures status { result ≡ Status.WriteFault }
    ensures counts { (failed : Bool) × Counts N.steady N.faults note.old note.new failed }
{
    let _last = note.write(b"adbexplain: write fault\n");
    Status::WriteFault
}

/// Returns the line that names a refusal.
#[tactic(auto, unfolding(crate::specs::Notes::bad_capture_line))]
fn refusal_line(alloc: Global, refusal: Refusal) -> Result<Text, AllocError>
    ensures line { IfOk result (λ line. line ≡ bad_capture_line refusal) }
    ensures some { IfOk result (λ line. 0 < length line) }
{
    let mut line = Text::from_slice(alloc, b"adbexplain: bad capture at byte ")?;
    let mut digits = Buffer::new();
    line.push_slice(digits.format(refusal.offset).as_bytes())?;
    line.push_slice(b": ")?;
    line.push_slice(refusal.reason.text())?;
    line.push_slice(b"\n")?;
    Ok(line)
}

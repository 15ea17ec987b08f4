//! The lines of the note: one for each status except `Done`.

ghost use Rattle.std.specs.Prelude.{◌≡◌, ◌≢◌, ◌<◌, ◌≤◌, ◌⊎◌, length};
ghost use Rattle.adb_outside.specs.Outside.{Counts};
ghost use Rattle.adb_outside.specs.Sink.{TellsWrite, is_failed_write};
ghost use Rattle.adb_top.specs.Faults.{tells_write_fault};
ghost use Rattle.adb_top.specs.Notes.{usage_line, read_fault_line, write_fault_line};
ghost use Rattle.adb_top.specs.Notes.{out_of_memory_line, illegal_history_line};
ghost use Rattle.adb_top.specs.Notes.{record_fault_line, door_fault_line};
ghost use Rattle.adb_top.specs.Notes.{IsJust, IsLine, WritesNote};

use crate::status::Status;
use adb_outside::{Sink, Wrote};

/// Writes the line for words that are no command.
pub fn say_usage<N: Sink>(note: &mut N) -> Status
    ensures status { (result ≡ Status.Usage) ⊎ (result ≡ Status.WriteFault) }
    ensures told { WritesNote result (IsJust Status.Usage usage_line)
        N.faults N.written note.old note.new }
    ensures counts { Counts N.steady N.faults note.old note.new (tells_write_fault result) }
{
    say(
        note,
        Status::Usage,
        b"usage: adbhub replay | gen <seed> <streams> | local <seed> | serve [--port <n>] [--device <serial>] [--connect <port>] [--record] | devices | push <path> | pull <path> | shell <command> | wait <serial> <state> | check | copy <seed>\n",
    )
}

/// Writes the line for a source that failed.
pub(crate) fn say_read_fault<N: Sink>(note: &mut N) -> Status
    ensures status { (result ≡ Status.ReadFault) ⊎ (result ≡ Status.WriteFault) }
    ensures told { WritesNote result (IsJust Status.ReadFault read_fault_line)
        N.faults N.written note.old note.new }
    ensures counts { Counts N.steady N.faults note.old note.new (tells_write_fault result) }
{
    say(note, Status::ReadFault, b"adbhub: read fault\n")
}

/// Writes the line for an allocation failure.
pub fn say_out_of_memory<N: Sink>(note: &mut N) -> Status
    ensures status { (result ≡ Status.OutOfMemory) ⊎ (result ≡ Status.WriteFault) }
    ensures told { WritesNote result (IsJust Status.OutOfMemory out_of_memory_line)
        N.faults N.written note.old note.new }
    ensures counts { Counts N.steady N.faults note.old note.new (tells_write_fault result) }
{
    say(note, Status::OutOfMemory, b"adbhub: out of memory\n")
}

/// Writes the line for a history that is not legal.
pub(crate) fn say_illegal<N: Sink>(note: &mut N) -> Status
    ensures status { (result ≡ Status.Illegal) ⊎ (result ≡ Status.WriteFault) }
    ensures told { WritesNote result (IsJust Status.Illegal illegal_history_line)
        N.faults N.written note.old note.new }
    ensures counts { Counts N.steady N.faults note.old note.new (tells_write_fault result) }
{
    say(note, Status::Illegal, b"adbhub: illegal history\n")
}

/// Writes the line for a recorder that failed.
pub fn say_record_fault<N: Sink>(note: &mut N) -> Status
    ensures status { (result ≡ Status.RecordFault) ⊎ (result ≡ Status.WriteFault) }
    ensures told { WritesNote result (IsJust Status.RecordFault record_fault_line)
        N.faults N.written note.old note.new }
    ensures counts { Counts N.steady N.faults note.old note.new (tells_write_fault result) }
{
    say(note, Status::RecordFault, b"adbhub: record fault\n")
}

/// Writes the line for a port on which listening failed, or for a door that failed.
pub(crate) fn say_door_fault<N: Sink>(note: &mut N) -> Status
    ensures status { (result ≡ Status.DoorFault) ⊎ (result ≡ Status.WriteFault) }
    ensures told { WritesNote result (IsJust Status.DoorFault door_fault_line)
        N.faults N.written note.old note.new }
    ensures counts { Counts N.steady N.faults note.old note.new (tells_write_fault result) }
{
    say(note, Status::DoorFault, b"adbhub: door fault\n")
}

/// Tries to write the line of `WriteFault`, once, after a line that could not be written.
pub(crate) fn say_lost_line<N: Sink>(note: &mut N) -> Status
    ensures status { result ≡ Status.WriteFault }
    ensures told { WritesNote result (IsJust Status.WriteFault write_fault_line)
        N.faults N.written note.old note.new }
    ensures count { N.faults note.old ≤ N.faults note.new }
    ensures keeps { N.steady note.old → N.steady note.new }
{
    let _last = say_write_fault(note);
    Status::WriteFault
}

/// Writes the line of a status. If that fails, tries the line of `WriteFault` once.
pub(crate) fn say<N: Sink>(note: &mut N, status: Status, line: &[u8]) -> Status
    requires some { 0 < length line.now }
    requires own { IsLine status line.now }
    requires other { status ≢ Status.WriteFault }
    ensures status { (result ≡ status) ⊎ (result ≡ Status.WriteFault) }
    ensures told { WritesNote result (IsJust status line.now)
        N.faults N.written note.old note.new }
    ensures whole { result ≡ status
        → TellsWrite (N.written note.old) (N.written note.new) line.now Wrote.All }
    ensures counts { Counts N.steady N.faults note.old note.new (tells_write_fault result) }
{
    match note.write(line) {
        Wrote::All => status,
        Wrote::Failed { taken: _ } => {
            let _last = say_write_fault(note);
            Status::WriteFault
        }
    }
}

fn say_write_fault<N: Sink>(note: &mut N) -> Wrote
    ensures told { TellsWrite (N.written note.old) (N.written note.new) write_fault_line result }
    ensures counts { Counts N.steady N.faults note.old note.new (is_failed_write result) }
{
    note.write(b"adbhub: write fault\n")
}

//! The lines of the note for the ends of client tools.

ghost use Rattle.std.specs.Prelude.{◌≡◌, ◌⊎◌, ◌<◌, IfOk, length};
ghost use Rattle.adb_outside.specs.Outside.{Counts};
ghost use Rattle.adb_outside.specs.Sink.{TellsWrite};
ghost use Rattle.adb_top.specs.Faults.{tells_write_fault};
ghost use Rattle.adb_top.specs.Notes.{bad_answer_line, port_fault_line, refused_line};
ghost use Rattle.adb_top.specs.Notes.{too_large_line};
ghost use Rattle.adb_top.specs.Notes.{IsJust, IsLineOr, WritesNote};

use crate::note::{say, say_out_of_memory};
use crate::status::Status;
use adb_commands::push_number;
use adb_outside::{Sink, Text, Wrote};
use std::alloc::{AllocError, Global};

/// Writes the line for a refusal of a server, with its escaped text.
pub(crate) fn say_refused<N: Sink>(alloc: Global, note: &mut N, shown: &[u8]) -> Status
    ensures status { (result ≡ Status.Refused) ⊎ (result ≡ Status.OutOfMemory)
        ⊎ (result ≡ Status.WriteFault) }
    ensures told { WritesNote result (IsLineOr Status.Refused (refused_line shown.now))
        N.faults N.written note.old note.new }
    ensures shows { result ≡ Status.Refused → TellsWrite (N.written note.old)
        (N.written note.new) (refused_line shown.now) Wrote.All }
    ensures counts { Counts N.steady N.faults note.old note.new (tells_write_fault result) }
{
    match line_of_refusal(alloc, shown) {
        Ok(line) => say(note, Status::Refused, line.as_slice()),
        Err(AllocError) => say_out_of_memory(note),
    }
}

/// Writes the line for a server's answer that is not valid, with the offset of the byte.
pub(crate) fn say_bad_answer<N: Sink>(alloc: Global, note: &mut N, offset: u64) -> Status
    ensures status { (result ≡ Status.BadAnswer) ⊎ (result ≡ Status.OutOfMemory)
        ⊎ (result ≡ Status.WriteFault) }
    ensures told { WritesNote result (IsLineOr Status.BadAnswer (bad_answer_line offset))
        N.faults N.written note.old note.new }
    ensures names { result ≡ Status.BadAnswer → TellsWrite (N.written note.old)
        (N.written note.new) (bad_answer_line offset) Wrote.All }
    ensures counts { Counts N.steady N.faults note.old note.new (tells_write_fault result) }
{
    match line_of_offset(alloc, offset) {
        Ok(line) => say(note, Status::BadAnswer, line.as_slice()),
        Err(AllocError) => say_out_of_memory(note),
    }
}

/// Writes the line for a server that could not be dialled, or a connection that failed.
pub(crate) fn say_port_fault<N: Sink>(note: &mut N) -> Status
    ensures status { (result ≡ Status.PortFault) ⊎ (result ≡ Status.WriteFault) }
    ensures told { WritesNote result (IsJust Status.PortFault port_fault_line)
        N.faults N.written note.old note.new }
    ensures counts { Counts N.steady N.faults note.old note.new (tells_write_fault result) }
{
    say(note, Status::PortFault, b"adbhub: port fault\n")
}

/// Writes the line for a push that is too large.
pub(crate) fn say_too_large<N: Sink>(note: &mut N) -> Status
    ensures status { (result ≡ Status.TooLarge) ⊎ (result ≡ Status.WriteFault) }
    ensures told { WritesNote result (IsJust Status.TooLarge too_large_line)
        N.faults N.written note.old note.new }
    ensures counts { Counts N.steady N.faults note.old note.new (tells_write_fault result) }
{
    say(note, Status::TooLarge, b"adbhub: input too large\n")
}

/// Returns the line that shows a refusal.
#[tactic(auto, unfolding(crate::specs::Notes::refused_line))]
fn line_of_refusal(alloc: Global, shown: &[u8]) -> Result<Text, AllocError>
    ensures line { IfOk result (λ line. line ≡ refused_line shown.now) }
    ensures some { IfOk result (λ line. 0 < length line) }
{
    let mut line = Text::from_slice(alloc, b"adbhub: refused: ")?;
    line.push_slice(shown)?;
    line.push_slice(b"\n")?;
    Ok(line)
}

/// Returns the line that names a byte of an answer.
#[tactic(auto, unfolding(crate::specs::Notes::bad_answer_line))]
fn line_of_offset(alloc: Global, offset: u64) -> Result<Text, AllocError>
    ensures line { IfOk result (λ line. line ≡ bad_answer_line offset) }
    ensures some { IfOk result (λ line. 0 < length line) }
{
    let mut line = Text::from_slice(alloc, b"adbhub: bad answer at byte ")?;
    push_number(&mut line, offset)?;
    line.push_slice(b"\n")?;
    Ok(line)
}

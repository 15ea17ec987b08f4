//! The lines of the note for the ends of commands that neither serve nor dial.

ghost use Rattle.std.specs.Prelude.{◌≡◌, ◌⊎◌, ◌<◌, Err, IfOk, false, length};
ghost use Rattle.adb_outside.specs.Outside.{Counts};
ghost use Rattle.adb_outside.specs.Sink.{TellsWrite};
ghost use Rattle.adb_replay.specs.Keeping.{is_write_fault};
ghost use Rattle.adb_commands.specs.Loads.{loses_load};
ghost use Rattle.adb_commands.specs.ScriptStop.{is_write_stop};
ghost use Rattle.adb_top.specs.Commands.{TellsNotice, TellsCommand, judgement_notice, load_notice};
ghost use Rattle.adb_top.specs.Commands.{script_notice, stop_notice, words_notice};
ghost use Rattle.adb_top.specs.Faults.{tells_write_fault};
ghost use Rattle.adb_top.specs.Notes.{IsLineOr, WritesNote, bad_capture_line, bad_script_line};

use crate::note::{say, say_illegal, say_lost_line, say_out_of_memory, say_read_fault, say_usage};
use crate::status::Status;
use adb_check::Judgement;
use adb_commands::{CommandEnd, LoadStop, ScriptStop, push_number};
use adb_history::Refusal;
use adb_outside::{Sink, Text, Wrote};
use adb_replay::Stop;
use adb_words::WordsError;
use std::alloc::{AllocError, Global};

/// Writes the line of a command's end to the note, if it has one.
pub(crate) fn say_command<N: Sink>(alloc: Global, note: &mut N, end: CommandEnd) -> Status
    ensures { TellsCommand end result
        (record { told = N.written; faults = N.faults; steady = N.steady }) note.old note.new }
{
    match end {
        CommandEnd::NotRun(error) => say_words_error(note, error),
        CommandEnd::Replayed(Ok(())) => Status::Done,
        CommandEnd::Replayed(Err(stop)) => say_stop(alloc, note, stop),
        CommandEnd::Judged(Ok(judgement)) => say_judgement(note, judgement),
        CommandEnd::Judged(Err(stop)) => say_stop(alloc, note, stop),
        CommandEnd::Generated(Ok(())) => Status::Done,
        CommandEnd::Generated(Err(stop)) => say_load_stop(note, stop),
        CommandEnd::Answered(Ok(())) => Status::Done,
        CommandEnd::Answered(Err(stop)) => say_script_stop(alloc, note, stop),
    }
}

/// Writes the line that says why the words are no command that was run.
fn say_words_error<N: Sink>(note: &mut N, error: WordsError) -> Status
    ensures { TellsNotice (words_notice error) false result
        (record { told = N.written; faults = N.faults; steady = N.steady }) note.old note.new }
{
    match error {
        WordsError::Usage => say_usage(note),
        WordsError::OutOfMemory => say_out_of_memory(note),
    }
}

/// Writes the line of a history that is not legal.
fn say_judgement<N: Sink>(note: &mut N, judgement: Judgement) -> Status
    ensures { TellsNotice (judgement_notice judgement) false result
        (record { told = N.written; faults = N.faults; steady = N.steady }) note.old note.new }
{
    match judgement {
        Judgement::Legal { .. } => Status::Done,
        Judgement::Illegal { .. } => say_illegal(note),
    }
}

/// Writes the line that says why a command stopped.
fn say_stop<N: Sink>(alloc: Global, note: &mut N, stop: Stop) -> Status
    ensures { TellsNotice (stop_notice stop) (is_write_fault (Err stop)) result
        (record { told = N.written; faults = N.faults; steady = N.steady }) note.old note.new }
{
    match stop {
        Stop::ReadFault => say_read_fault(note),
        Stop::WriteFault => say_lost_line(note),
        Stop::OutOfMemory => say_out_of_memory(note),
        Stop::Refused(refusal) => say_bad_capture(alloc, note, refusal),
    }
}

/// Writes the line that says why the lines of a load were not written.
fn say_load_stop<N: Sink>(note: &mut N, stop: LoadStop) -> Status
    ensures { TellsNotice (load_notice stop) (loses_load (Err stop)) result
        (record { told = N.written; faults = N.faults; steady = N.steady }) note.old note.new }
{
    match stop {
        LoadStop::WriteFault => say_lost_line(note),
        LoadStop::OutOfMemory => say_out_of_memory(note),
    }
}

/// Writes the line that says why a script was not answered.
fn say_script_stop<N: Sink>(alloc: Global, note: &mut N, stop: ScriptStop) -> Status
    ensures { TellsNotice (script_notice stop) (is_write_stop stop) result
        (record { told = N.written; faults = N.faults; steady = N.steady }) note.old note.new }
{
    match stop {
        ScriptStop::ReadFault => say_read_fault(note),
        ScriptStop::WriteFault => say_lost_line(note),
        ScriptStop::OutOfMemory => say_out_of_memory(note),
        ScriptStop::BadLine { line } => say_bad_script(alloc, note, line),
    }
}

/// Writes the line that says why a capture is refused.
fn say_bad_capture<N: Sink>(alloc: Global, note: &mut N, refusal: Refusal) -> Status
    ensures status { (result ≡ Status.BadCapture) ⊎ (result ≡ Status.OutOfMemory)
        ⊎ (result ≡ Status.WriteFault) }
    ensures told { WritesNote result (IsLineOr Status.BadCapture (bad_capture_line refusal))
        N.faults N.written note.old note.new }
    ensures names { result ≡ Status.BadCapture → TellsWrite (N.written note.old)
        (N.written note.new) (bad_capture_line refusal) Wrote.All }
    ensures counts { Counts N.steady N.faults note.old note.new (tells_write_fault result) }
{
    match refusal_line(alloc, refusal) {
        Ok(line) => say(note, Status::BadCapture, line.as_slice()),
        Err(AllocError) => say_out_of_memory(note),
    }
}

/// Returns the line that names a refusal.
#[tactic(auto, unfolding(crate::specs::Notes::bad_capture_line))]
fn refusal_line(alloc: Global, refusal: Refusal) -> Result<Text, AllocError>
    ensures line { IfOk result (λ line. line ≡ bad_capture_line refusal) }
    ensures some { IfOk result (λ line. 0 < length line) }
{
    let mut line = Text::from_slice(alloc, b"adbhub: bad capture at byte ")?;
    push_number(&mut line, refusal.offset)?;
    line.push_slice(b": ")?;
    line.push_slice(refusal.reason.text())?;
    line.push_slice(b"\n")?;
    Ok(line)
}

/// Writes the line that names the refused line of a script.
fn say_bad_script<N: Sink>(alloc: Global, note: &mut N, line: u32) -> Status
    ensures status { (result ≡ Status.BadScript) ⊎ (result ≡ Status.OutOfMemory)
        ⊎ (result ≡ Status.WriteFault) }
    ensures told { WritesNote result (IsLineOr Status.BadScript (bad_script_line line))
        N.faults N.written note.old note.new }
    ensures names { result ≡ Status.BadScript → TellsWrite (N.written note.old)
        (N.written note.new) (bad_script_line line) Wrote.All }
    ensures counts { Counts N.steady N.faults note.old note.new (tells_write_fault result) }
{
    match line_of_script(alloc, line) {
        Ok(text) => say(note, Status::BadScript, text.as_slice()),
        Err(AllocError) => say_out_of_memory(note),
    }
}

/// Returns the line that names a line of a script.
#[tactic(auto, unfolding(crate::specs::Notes::bad_script_line))]
fn line_of_script(alloc: Global, line: u32) -> Result<Text, AllocError>
    ensures text { IfOk result (λ text. text ≡ bad_script_line line) }
    ensures some { IfOk result (λ text. 0 < length text) }
{
    let mut text = Text::from_slice(alloc, b"adbhub: bad script at line ")?;
    push_number(&mut text, u64::from(line))?;
    text.push_slice(b"\n")?;
    Ok(text)
}

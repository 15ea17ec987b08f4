//! Client tools.

ghost use Rattle.std.specs.Prelude.{◌≡◌, IfOk, None};
ghost use Rattle.adb_asking.specs.Telling.{seen};
ghost use Rattle.adb_script.specs.Output.{escaped};
ghost use Rattle.adb_top.specs.Tools.{RunsTool, TellsEnd};
ghost use Rattle.adb_top.specs.Usage.{SaysUsage};
ghost use Rattle.adb_words.specs.Tools.{tool_of};
ghost use Rattle.adb_words.specs.Words.{texts};

use crate::note::{say_lost_line, say_out_of_memory, say_read_fault, say_usage};
use crate::status::Status;
use crate::tool_note::{say_bad_answer, say_port_fault, say_refused, say_too_large};
use adb_outside::{Sink, Source, Text};
use adb_script::push_escaped;
use adb_server_yard::Yard;
use adb_tools::{ToolEnd, run_tool};
use std::alloc::{AllocError, Global};
use std::sync::Wait;

/// Calls a tool as the words say, and writes the line of its end to the note, except for `Done`.
pub(crate) fn run_call<W: Wait + Copy + Drop, S: Source, K: Sink, N: Sink, Y: Yard>(
    rt: W,
    alloc: Global,
    words: &[String],
    source: &mut S,
    sink: &mut K,
    note: &mut N,
    yard: Y,
) -> Status
    ensures tool { RunsTool words.now (seen S.steady S.faults S.left) (seen K.steady K.faults K.written)
        (seen N.steady N.faults N.written) (seen Y.steady Y.faults Y.answers)
        source.old source.new sink.old sink.new note.old note.new yard result }
    ensures unheard { tool_of (texts words.now) ≡ None
        → SaysUsage result (seen N.steady N.faults N.written) note.old note.new
        × (source.new ≡ source.old) × (sink.new ≡ sink.old) }
{
    let mut yard = yard;
    let end = run_tool(rt, alloc, words, source, sink, note, &mut yard);
    say_end(alloc, note, end)
}

/// Writes the line of a tool's end to the note, except for `Done`.
fn say_end<N: Sink>(alloc: Global, note: &mut N, end: ToolEnd) -> Status
    ensures { TellsEnd end result (seen N.steady N.faults N.written) note.old note.new }
{
    match end {
        ToolEnd::Done => Status::Done,
        ToolEnd::Usage => say_usage(note),
        ToolEnd::ReadFault => say_read_fault(note),
        ToolEnd::WriteFault => say_lost_line(note),
        ToolEnd::OutOfMemory => say_out_of_memory(note),
        ToolEnd::Refused(text) => say_refusal(alloc, note, &text),
        ToolEnd::BadAnswer { offset } => say_bad_answer(alloc, note, offset),
        ToolEnd::PortFault => say_port_fault(note),
        ToolEnd::TooLarge => say_too_large(note),
    }
}

/// Writes the line of a refusal with a text to the note.
fn say_refusal<N: Sink>(alloc: Global, note: &mut N, text: &Text) -> Status
    ensures { TellsEnd (ToolEnd.Refused text.now) result (seen N.steady N.faults N.written)
        note.old note.new }
{
    match shown(alloc, text) {
        Ok(shown) => say_refused(alloc, note, shown.as_slice()),
        Err(AllocError) => say_out_of_memory(note),
    }
}

/// Returns a text in its escaped form.
fn shown(alloc: Global, text: &Text) -> Result<Text, AllocError>
    ensures { IfOk result (λ shown. shown ≡ escaped text.now) }
{
    let mut shown = Text::new(alloc);
    push_escaped(&mut shown, text.as_slice())?;
    Ok(shown)
}

//! The commands that neither serve nor dial.

ghost use Rattle.adb_top.specs.Alone.{RunsAlone};

use crate::alone_note::say_command;
use crate::status::Status;
use adb_commands::run_command;
use adb_outside::{Sink, Source};
use std::alloc::Global;

/// Runs the command of the words after the program's name, if it is one that neither serves nor
/// dials (`adb_commands::run_command`), and writes the line of its end to the note. It never waits,
/// and returns.
///
/// If the words are no such command, the status is `Usage`, and nothing is read or written.
///
/// Each status except `Done` writes its one line to the note. If that write fails, the status is
/// `WriteFault`, and its own line is tried once.
pub fn run_alone<S: Source, K: Sink, N: Sink>(
    alloc: Global,
    words: &[String],
    source: &mut S,
    sink: &mut K,
    note: &mut N,
) -> Status
    ensures { RunsAlone words.now result
        (record { told = S.left; faults = S.faults; steady = S.steady })
        (record { told = K.written; faults = K.faults; steady = K.steady })
        (record { told = N.written; faults = N.faults; steady = N.steady })
        source.old source.new sink.old sink.new note.old note.new }
{
    let end = run_command(alloc, words, source, sink);
    say_command(alloc, note, end)
}

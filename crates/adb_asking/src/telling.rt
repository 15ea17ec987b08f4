//! Writing of a server's answer.

ghost use Rattle.std.specs.Prelude.{◌≡◌, ◌++◌, []};
ghost use Rattle.adb_asking.specs.Lines.{exit_line, pushed_line};
ghost use Rattle.adb_asking.specs.Telling.{Leaves, TellsAnswer, parts_of, seen, size_of};

use crate::ends::{ToolEnd, end_of};
use crate::lines::{exit_line, pushed_line};
use crate::writing::{put, put_both};
use adb_outside::{Sink, Text};
use adb_remote::{Outcome, Remote, RemoteError};
use std::alloc::Global;

/// Writes an outcome, or returns the end of an answer without one.
pub fn tell_answer<K: Sink, N: Sink>(
    alloc: Global,
    job: &Remote,
    answer: Result<Outcome, RemoteError>,
    sink: &mut K,
    note: &mut N,
) -> ToolEnd
    ensures { TellsAnswer (size_of job.now) answer (seen K.steady K.faults K.written)
        (seen N.steady N.faults N.written) sink.old sink.new note.old note.new result }
{
    match answer {
        Ok(outcome) => tell(alloc, sent_size(job), &outcome, sink, note),
        Err(error) => end_of(error),
    }
}

/// Returns how many bytes a push sends.
fn sent_size(job: &Remote) -> u64
    ensures { result ≡ size_of job.now }
{
    match job {
        Remote::Push { bytes, .. } => bytes.len() as u64,
        _ => 0,
    }
}

/// Writes an outcome: the requested bytes to the sink, and the rest to the note.
fn tell<K: Sink, N: Sink>(
    alloc: Global,
    size: u64,
    outcome: &Outcome,
    sink: &mut K,
    note: &mut N,
) -> ToolEnd
    ensures { Leaves (seen K.steady K.faults K.written) (seen N.steady N.faults N.written)
        (parts_of size outcome.now) sink.old sink.new note.old note.new result }
{
    match outcome {
        Outcome::Listed(text) | Outcome::Pulled(text) => {
            tell_parts(text.as_slice(), b"", b"", sink, note)
        }
        Outcome::Pushed => tell_pushed(alloc, size, sink, note),
        Outcome::Ran { out, err, status } => tell_run(alloc, out, err, *status, sink, note),
        Outcome::Ready => tell_parts(b"", b"", b"", sink, note),
    }
}

/// Writes how many bytes were pushed.
fn tell_pushed<K: Sink, N: Sink>(alloc: Global, size: u64, sink: &mut K, note: &mut N) -> ToolEnd
    ensures { Leaves (seen K.steady K.faults K.written) (seen N.steady N.faults N.written)
        (record { out = pushed_line size; note = [] }) sink.old sink.new note.old note.new result }
{
    let Ok(line) = pushed_line(alloc, size) else {
        return ToolEnd::OutOfMemory;
    };
    tell_parts(line.as_slice(), b"", b"", sink, note)
}

/// Writes the outputs of a command and its exit status.
fn tell_run<K: Sink, N: Sink>(
    alloc: Global,
    out: &Text,
    err: &Text,
    status: u8,
    sink: &mut K,
    note: &mut N,
) -> ToolEnd
    ensures { Leaves (seen K.steady K.faults K.written) (seen N.steady N.faults N.written)
        (record { out = out.now; note = err.now ++ exit_line status })
        sink.old sink.new note.old note.new result }
{
    let Ok(line) = exit_line(alloc, status) else {
        return ToolEnd::OutOfMemory;
    };
    tell_parts(out.as_slice(), err.as_slice(), line.as_slice(), sink, note)
}

/// Writes bytes to the sink, and then other bytes and a line to the note.
fn tell_parts<K: Sink, N: Sink>(
    out: &[u8],
    err: &[u8],
    line: &[u8],
    sink: &mut K,
    note: &mut N,
) -> ToolEnd
    ensures { Leaves (seen K.steady K.faults K.written) (seen N.steady N.faults N.written)
        (record { out = out.now; note = err.now ++ line.now })
        sink.old sink.new note.old note.new result }
{
    if !put(sink, out) {
        return ToolEnd::WriteFault;
    }
    if !put_both(note, err, line) {
        return ToolEnd::WriteFault;
    }
    ToolEnd::Done
}

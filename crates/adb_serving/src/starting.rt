//! The start of a run, from the words of the command line.

ghost use Rattle.std.specs.Prelude.{◌≡◌, ◌≢◌, ◌⊎◌, drop, IfErr, IfOk, None, Some, true, false};
ghost use Rattle.std.specs.IoError.{error_kind};
ghost use Rattle.adb_asking.specs.Telling.{seen};
ghost use Rattle.adb_top.specs.Alone.{RunsAlone};
ghost use Rattle.adb_top.specs.Notes.{usage_line, out_of_memory_line, IsJust, WritesNote};
ghost use Rattle.adb_top.specs.Faults.{tells_write_fault};
ghost use Rattle.adb_outside.specs.Outside.{Counts};
ghost use Rattle.adb_serving.specs.Live.{ServesLive, live_yard};
ghost use Rattle.adb_serving.specs.History.{GivesRecord, asks_record};
ghost use Rattle.adb_top.specs.Tools.{RunsTool};
ghost use Rattle.adb_top.specs.Usage.{SaysUsage};
ghost use Rattle.adb_words.specs.Serve.{Serving, is_serve, serve_of};
ghost use Rattle.adb_words.specs.Tools.{names_tool, tool_of};
ghost use Rattle.adb_words.specs.Words.{texts};

use crate::running::run_live;
use crate::started::{HistorySink, Started};
use adb_outside::{Sink, Source};
use adb_top::{Status, say_out_of_memory, say_usage};
use std::alloc::Global;
use std::io;
use std::io::ErrorKind;
use std::net::{Net, TcpListener, TcpStream};
use std::sync::Wait;
use std::thread::Threads;

/// Runs the words of the command line: a server over this machine, a client tool, or a command that
/// neither serves nor dials. The history of a server goes to a sink of its own.
///
/// If the words could not be read, the run reads nothing and writes only the note. The note has the
/// line of OutOfMemory if an allocation failed, and otherwise the usage line.
pub fn start<
    W: Net<Listener = TcpListener, Stream = TcpStream>
        + Threads
        + Wait
        + Copy
        + Send
        + Sync
        + Drop
        + 'static,
    S: Source,
    K: Sink,
    N: Sink,
    R: Sink + Send + Drop + 'static,
>(
    rt: W,
    alloc: Global,
    words: io::Result<Vec<String>>,
    source: &mut S,
    sink: &mut K,
    note: &mut N,
    history: R,
) -> Started<R>
    // If the words could be read, they are run. The first case is a command that neither serves nor
    // dials.
    ensures alone { IfOk words (λ list. is_serve (texts list.items) ≡ false
        → names_tool (texts list.items) ≡ false → RunsAlone list.items result.status
        (record { told = S.left; faults = S.faults; steady = S.steady })
        (record { told = K.written; faults = K.faults; steady = K.steady })
        (record { told = N.written; faults = N.faults; steady = N.steady })
        source.old source.new sink.old sink.new note.old note.new) }

    // The second case is a client tool, over a yard that shows only how many of its calls failed.
    // The sink and the note have the meaning of some answer of a server to the tool's job.
    ensures tools { IfOk words (λ list. is_serve (texts list.items) ≡ false
        → names_tool (texts list.items) ≡ true → RunsTool list.items
        (seen S.steady S.faults S.left) (seen K.steady K.faults K.written)
        (seen N.steady N.faults N.written) live_yard
        source.old source.new sink.old sink.new note.old note.new 0 result.status) }
    ensures unheard { IfOk words (λ list. is_serve (texts list.items) ≡ false
        → names_tool (texts list.items) ≡ true → tool_of (texts list.items) ≡ None
        → SaysUsage result.status (seen N.steady N.faults N.written) note.old note.new
        × (source.new ≡ source.old) × (sink.new ≡ sink.old)) }

    // The third case is a server. It reads nothing, and writes to its history and to the note. The
    // note has the port on which the server listens, and how it ended.
    ensures serves { IfOk words (λ list. (asked : Serving)
        → serve_of (texts list.items) ≡ Some asked
        → ServesLive asked.port result.status (seen N.steady N.faults N.written) note.old note.new) }
    ensures unread { IfOk words (λ list. is_serve (texts list.items) ≡ true
        → (source.new ≡ source.old) × (sink.new ≡ sink.old)) }
    ensures usage { IfOk words (λ list. is_serve (texts list.items) ≡ true
        → serve_of (texts list.items) ≡ None
        → SaysUsage result.status (seen N.steady N.faults N.written) note.old note.new) }
    ensures command { IfOk words (λ list. is_serve (texts list.items) ≡ true
        → result.status ≡ Status.Usage → serve_of (texts list.items) ≡ None) }

    // If the words could not be read, nothing is read, and only the note is written. It has the
    // reason: an allocation failure, or that the words are no command. The status is WriteFault
    // only if the fault count of the note rose.
    ensures untouched { IfErr words (λ _. (source.new ≡ source.old) × (sink.new ≡ sink.old)) }
    ensures memory { IfErr words (λ error. error_kind error ≡ ErrorKind.OutOfMemory
        → (result.status ≡ Status.OutOfMemory) ⊎ (result.status ≡ Status.WriteFault)) }
    ensures memory_note { IfErr words (λ error. error_kind error ≡ ErrorKind.OutOfMemory
        → WritesNote result.status (IsJust Status.OutOfMemory out_of_memory_line)
        N.faults N.written note.old note.new) }
    ensures no_text { IfErr words (λ error. error_kind error ≢ ErrorKind.OutOfMemory
        → (result.status ≡ Status.Usage) ⊎ (result.status ≡ Status.WriteFault)) }
    ensures no_text_note { IfErr words (λ error. error_kind error ≢ ErrorKind.OutOfMemory
        → WritesNote result.status (IsJust Status.Usage usage_line)
        N.faults N.written note.old note.new) }
    ensures counts { IfErr words (λ _. Counts N.steady N.faults note.old note.new
        (tells_write_fault result.status)) }

    // A server that is asked for a record writes it to the sink of its history: the magic and the
    // records of a legal history, which is fifo, has its causes and is answered. The sink is
    // returned, unless the thread that writes it is stuck, which is never Done. Every other run
    // returns the sink as it was.
    ensures record { IfOk words (λ list. asks_record (texts list.items) ≡ true
        → GivesRecord R.written history result.status result.history) }
    ensures unasked { IfOk words (λ list. asks_record (texts list.items) ≡ false
        → result.history ≡ HistorySink.Returned history) }
    ensures unused { IfErr words (λ _. result.history ≡ HistorySink.Returned history) }
{
    match words {
        Ok(words) => run_live(rt, alloc, words.as_slice(), source, sink, note, history),
        Err(error) if error.kind() == ErrorKind::OutOfMemory => Started {
            status: say_out_of_memory(note),
            history: HistorySink::Returned(history),
        },
        Err(_) => Started {
            status: say_usage(note),
            history: HistorySink::Returned(history),
        },
    }
}

/// Returns the words after the program's name, which is the first of the arguments.
pub fn words_of(arguments: Vec<String>) -> Vec<String>
    ensures { result.items ≡ drop 1 arguments.items }
{
    let mut words = arguments;
    if !words.is_empty() {
        drop(words.remove(0));
    }
    words
}

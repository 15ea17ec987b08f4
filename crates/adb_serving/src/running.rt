//! Running the words of the command line over this machine.

ghost use Rattle.std.specs.Prelude.{◌≡◌, None, Some, true, false};
ghost use Rattle.adb_asking.specs.Telling.{seen};
ghost use Rattle.adb_top.specs.Alone.{RunsAlone};
ghost use Rattle.adb_serving.specs.Live.{ServesLive, live_yard};
ghost use Rattle.adb_serving.specs.History.{GivesRecord, asks_record};
ghost use Rattle.adb_top.specs.Tools.{RunsTool};
ghost use Rattle.adb_top.specs.Usage.{SaysUsage};
ghost use Rattle.adb_words.specs.Serve.{Serving, is_serve, serve_of};
ghost use Rattle.adb_words.specs.Tools.{names_tool, tool_of};
ghost use Rattle.adb_words.specs.Words.{texts};

use crate::calling::call_live;
use crate::serving::serve_live;
use crate::started::{HistorySink, Started};
use adb_outside::{Sink, Source};
use adb_server_yard::{NoYard, YardDevice};
use adb_top::{Status, run};
use adb_words::{is_serve, names_tool};
use std::alloc::Global;
use std::net::{Net, TcpListener, TcpStream};
use std::sync::Wait;
use std::thread::Threads;

/// Runs the command of the words by `adb_top::run`, over a yard of this machine if the command
/// serves or dials. A server's record goes to a sink of its own, which is returned.
pub(crate) fn run_live<
    W: Net<Listener = TcpListener, Stream = TcpStream>
        + Threads
        + Wait
        + Copy
        + Send
        + Sync
        + Drop
        + 'static,
    S: Source,
    K: Sink,
    N: Sink,
    R: Sink + Send + Drop + 'static,
>(
    rt: W,
    alloc: Global,
    words: &[String],
    source: &mut S,
    sink: &mut K,
    note: &mut N,
    history: R,
) -> Started<R>
    ensures alone { is_serve (texts words.now) ≡ false → names_tool (texts words.now) ≡ false
        → RunsAlone words.now result.status
        (record { told = S.left; faults = S.faults; steady = S.steady })
        (record { told = K.written; faults = K.faults; steady = K.steady })
        (record { told = N.written; faults = N.faults; steady = N.steady })
        source.old source.new sink.old sink.new note.old note.new }
    ensures unheard { is_serve (texts words.now) ≡ false → names_tool (texts words.now) ≡ true
        → tool_of (texts words.now) ≡ None
        → SaysUsage result.status (seen N.steady N.faults N.written) note.old note.new
        × (source.new ≡ source.old) × (sink.new ≡ sink.old) }
    ensures tools { is_serve (texts words.now) ≡ false → names_tool (texts words.now) ≡ true
        → RunsTool words.now
        (seen S.steady S.faults S.left) (seen K.steady K.faults K.written)
        (seen N.steady N.faults N.written) live_yard
        source.old source.new sink.old sink.new note.old note.new 0 result.status }
    ensures untouched { is_serve (texts words.now) ≡ true
        → (source.new ≡ source.old) × (sink.new ≡ sink.old) }
    ensures usage { is_serve (texts words.now) ≡ true → serve_of (texts words.now) ≡ None
        → SaysUsage result.status (seen N.steady N.faults N.written) note.old note.new }
    ensures serves { (asked : Serving) → serve_of (texts words.now) ≡ Some asked
        → ServesLive asked.port result.status (seen N.steady N.faults N.written) note.old note.new }
    ensures command { is_serve (texts words.now) ≡ true → result.status ≡ Status.Usage
        → serve_of (texts words.now) ≡ None }
    ensures unasked { asks_record (texts words.now) ≡ false
        → result.history ≡ HistorySink.Returned history }
    ensures record { asks_record (texts words.now) ≡ true
        → GivesRecord R.written history result.status result.history }
{
    if is_serve(words) {
        return serve_live(rt, alloc, words, source, sink, note, history);
    }
    let status = run_other(rt, alloc, words, source, sink, note);
    Started {
        status,
        history: HistorySink::Returned(history),
    }
}

/// Runs a client tool, or a command that neither serves nor dials.
fn run_other<
    W: Net<Listener = TcpListener, Stream = TcpStream>
        + Threads
        + Wait
        + Copy
        + Send
        + Sync
        + Drop
        + 'static,
    S: Source,
    K: Sink,
    N: Sink,
>(rt: W, alloc: Global, words: &[String], source: &mut S, sink: &mut K, note: &mut N) -> Status
    requires { is_serve (texts words.now) ≡ false }
    ensures alone { names_tool (texts words.now) ≡ false
        → RunsAlone words.now result
        (record { told = S.left; faults = S.faults; steady = S.steady })
        (record { told = K.written; faults = K.faults; steady = K.steady })
        (record { told = N.written; faults = N.faults; steady = N.steady })
        source.old source.new sink.old sink.new note.old note.new }
    ensures unheard { names_tool (texts words.now) ≡ true
        → tool_of (texts words.now) ≡ None
        → SaysUsage result (seen N.steady N.faults N.written) note.old note.new
        × (source.new ≡ source.old) × (sink.new ≡ sink.old) }
    ensures tools { names_tool (texts words.now) ≡ true
        → RunsTool words.now
        (seen S.steady S.faults S.left) (seen K.steady K.faults K.written)
        (seen N.steady N.faults N.written) live_yard
        source.old source.new sink.old sink.new note.old note.new 0 result }
{
    if names_tool(words) {
        return call_live(rt, alloc, words, source, sink, note);
    }
    let (yard, devices) = (NoYard::new(alloc), Vec::<YardDevice<NoYard>>::new(alloc));
    let ran = run(rt, alloc, words, source, sink, note, yard, devices);
    ran.status
}

//! The top call.

ghost use Rattle.std.specs.Prelude.{◌≡◌, true, false, None, Some};
ghost use Rattle.adb_words.specs.Serve.{Serving, is_serve, serve_of};
ghost use Rattle.adb_words.specs.Tools.{names_tool, tool_of};
ghost use Rattle.adb_words.specs.Words.{texts};
ghost use Rattle.adb_asking.specs.Telling.{seen};
ghost use Rattle.adb_top.specs.Alone.{RunsAlone};
ghost use Rattle.adb_top.specs.Kept.{KeepsRecord};
ghost use Rattle.adb_top.specs.Serve.{Serves};
ghost use Rattle.adb_top.specs.Tools.{RunsTool};
ghost use Rattle.adb_top.specs.Usage.{SaysUsage};

use crate::alone::run_alone;
use crate::ran::Ran;
use crate::serving::run_serve;
use crate::status::Status;
use crate::tools::run_call;
use adb_outside::{Sink, Source};
use adb_server_yard::{Yard, YardDevice};
use adb_words::{is_serve, names_tool};
use std::alloc::Global;
use std::sync::Wait;
use std::thread::Threads;

/// Runs the command of the words after the program's name: `serve`, a client tool, or a command of
/// `run_alone`.
///
/// `serve` listens at a port of the yard, plugs in the devices that it is given, and serves the
/// clients that come, until one of them kills the server. It reads nothing from the source and
/// writes nothing to the sink. The history goes to the yard's recorder, which is returned. `serve`
/// waits as long as its clients and devices do.
///
/// A client tool asks the server at a port of this machine for one job, and writes the answer
/// (`adb_tools::run_tool`). It waits as long as that server does.
///
/// Each status except `Done` writes its one line to the note, after the line that names the port of
/// a server. If that write fails, the status is `WriteFault`, and its own line is tried once.
pub fn run<
    W: Threads + Wait + Copy + Send + Sync + Drop + 'static,
    S: Source,
    K: Sink,
    N: Sink,
    Y: Yard + 'static,
>(
    rt: W,
    alloc: Global,
    words: &[String],
    source: &mut S,
    sink: &mut K,
    note: &mut N,
    yard: Y,
    devices: Vec<YardDevice<Y>>,
) -> Ran<Y::Keeper>
    // The yard of a server has the recorder that the words ask for.
    requires records { is_serve (texts words.now) ≡ true → (asked : Serving)
        → serve_of (texts words.now) ≡ Some asked → Y.records yard asked.records }

    // A command that neither serves nor dials has every property of `run_alone`.
    ensures alone { is_serve (texts words.now) ≡ false → names_tool (texts words.now) ≡ false
        → RunsAlone words.now result.status
        (record { told = S.left; faults = S.faults; steady = S.steady })
        (record { told = K.written; faults = K.faults; steady = K.steady })
        (record { told = N.written; faults = N.faults; steady = N.steady })
        source.old source.new sink.old sink.new note.old note.new }

    // A server reads nothing, and writes only to the note.
    ensures untouched { is_serve (texts words.now) ≡ true
        → (source.new ≡ source.old) × (sink.new ≡ sink.old) }

    // Words that begin with `serve` and are no command serve no client, and the note has the line
    // for them.
    ensures usage { is_serve (texts words.now) ≡ true → serve_of (texts words.now) ≡ None
        → SaysUsage result.status (seen N.steady N.faults N.written) note.old note.new }
    ensures command { is_serve (texts words.now) ≡ true → result.status ≡ Status.Usage
        → serve_of (texts words.now) ≡ None }

    // The end of a server, the contents of the note, and the ends that a steady or lasting yard
    // rules out.
    ensures serves { (asked : Serving) → serve_of (texts words.now) ≡ Some asked
        → Serves asked result.status (Y.steady yard) (Y.lasting yard)
        (seen N.steady N.faults N.written) note.old note.new }

    // The recorder of a server is returned with the legal history that it kept, depending on the
    // status.
    ensures kept { (asked : Serving) → serve_of (texts words.now) ≡ Some asked
        → KeepsRecord Y.Keeper.stands Y.Keeper.faults result.status result.recorder }

    // Words that begin with a tool's name and call no tool dial nothing, and the note has the line
    // for them.
    ensures unheard { is_serve (texts words.now) ≡ false → names_tool (texts words.now) ≡ true
        → tool_of (texts words.now) ≡ None
        → SaysUsage result.status (seen N.steady N.faults N.written) note.old note.new
        × (source.new ≡ source.old) × (sink.new ≡ sink.old) }

    // The requests of a client tool, the output of the answer, and the end of the tool.
    ensures tools { is_serve (texts words.now) ≡ false → names_tool (texts words.now) ≡ true
        → RunsTool words.now
        (seen S.steady S.faults S.left) (seen K.steady K.faults K.written)
        (seen N.steady N.faults N.written) (seen Y.steady Y.faults Y.answers)
        source.old source.new sink.old sink.new note.old note.new yard result.status }
{
    if is_serve(words) {
        run_serve(rt, alloc, words, note, yard, devices)
    } else if names_tool(words) {
        Ran::bare(run_call(rt, alloc, words, source, sink, note, yard))
    } else {
        Ran::bare(run_alone(alloc, words, source, sink, note))
    }
}

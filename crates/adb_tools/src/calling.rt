//! The call of a client tool.

ghost use Rattle.std.specs.Prelude.{◌≡◌, ◌<◌, ◌⊎◌, None, Some};
ghost use Rattle.adb_asking.specs.Telling.{seen};
ghost use Rattle.adb_words.specs.declared.tool.Call.{Call as TheCall};
ghost use Rattle.adb_words.specs.Tools.{tool_of};
ghost use Rattle.adb_words.specs.Words.{texts};
ghost use Rattle.adb_asking.specs.Jobs.{FitsJob, FitsTool};
ghost use Rattle.adb_asking.specs.Calling.{Asked, CallsTool, IsUncalled};

use adb_asking::{Job, ToolEnd, ask, failed_input, make_job};
use adb_outside::{Sink, Source};
use adb_server_yard::{Dialled, Yard};
use adb_words::{Call, WordsError, read_tool};
use std::alloc::Global;
use std::sync::Wait;

/// Runs the client tool that the words after the program's name call: asks the server at a port of
/// this machine, and writes its answer. A push first reads the source to its end; no other tool
/// reads the source. The call waits as long as the server does.
///
/// `devices` writes the list of devices to the sink, and `pull` writes the bytes of a file. `push`
/// writes the line `pushed <n>` to the sink. `shell` writes the output of the command to the sink,
/// its error output to the note, and after that the line `exit <status>` to the note. `wait` writes
/// nothing.
///
/// `TooLarge`: the source of a push has more than `MAX_INPUT` bytes. Nothing is dialled.
///
/// Only `shell` writes to the note, so the caller still has to write the line of each end other
/// than `Done`.
pub fn run_tool<W: Wait + Copy + Drop, S: Source, K: Sink, N: Sink, Y: Yard>(
    rt: W,
    alloc: Global,
    words: &[String],
    source: &mut S,
    sink: &mut K,
    note: &mut N,
    yard: &mut Y,
) -> ToolEnd
    // Words that call no tool connect to no server, and change nothing.
    ensures usage { tool_of (texts words.now) ≡ None
        → (result ≡ ToolEnd.Usage) ⊎ (result ≡ ToolEnd.OutOfMemory) }
    ensures words { result ≡ ToolEnd.Usage → tool_of (texts words.now) ≡ None }
    ensures untouched { tool_of (texts words.now) ≡ None
        → IsUncalled source.old source.new sink.old sink.new note.old note.new yard.old yard.new }

    // The end of a call, and its effects.
    ensures calls { (call : TheCall) → tool_of (texts words.now) ≡ Some call
        → CallsTool (seen S.steady S.faults S.left) (seen K.steady K.faults K.written)
        (seen N.steady N.faults N.written) (seen Y.steady Y.faults Y.answers) call.tool
        source.old source.new sink.old sink.new note.old note.new yard.old yard.new result }
{
    match read_tool(alloc, words) {
        Ok(call) => call_tool(rt, alloc, call, source, sink, note, yard),
        Err(WordsError::Usage) => ToolEnd::Usage,
        Err(WordsError::OutOfMemory) => ToolEnd::OutOfMemory,
    }
}

/// Calls a tool.
fn call_tool<W: Wait + Copy + Drop, S: Source, K: Sink, N: Sink, Y: Yard>(
    rt: W,
    alloc: Global,
    call: Call,
    source: &mut S,
    sink: &mut K,
    note: &mut N,
    yard: &mut Y,
) -> ToolEnd
    requires port { 0 < call.port }
    requires fits { FitsTool call.tool }
    ensures { CallsTool (seen S.steady S.faults S.left) (seen K.steady K.faults K.written)
        (seen N.steady N.faults N.written) (seen Y.steady Y.faults Y.answers) call.tool
        source.old source.new sink.old sink.new note.old note.new yard.old yard.new result }
{
    let Call { port, tool } = call;
    match make_job(alloc, tool, source) {
        Ok(job) => ask_at(rt, alloc, port, &job, sink, note, yard),
        Err(error) => failed_input(error),
    }
}

/// Dials a port, and asks the server there for a job.
fn ask_at<W: Wait + Copy + Drop, K: Sink, N: Sink, Y: Yard>(
    rt: W,
    alloc: Global,
    port: u16,
    job: &Job,
    sink: &mut K,
    note: &mut N,
    yard: &mut Y,
) -> ToolEnd
    requires port { 0 < port }
    requires fits { FitsJob job.now }
    ensures { Asked (seen K.steady K.faults K.written) (seen N.steady N.faults N.written)
        (seen Y.steady Y.faults Y.answers) job.now.remote sink.old sink.new note.old note.new
        yard.old yard.new result }
{
    match yard.dial(port) {
        Dialled::Here(mut input, mut output) => ask(
            rt,
            alloc,
            &job.remote,
            job.on.as_ref(),
            &mut input,
            &mut output,
            sink,
            note,
        ),
        Dialled::Failed => ToolEnd::PortFault,
    }
}

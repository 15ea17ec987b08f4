//! A tool's call of a server: its conversation, and the output of the answer.

ghost use Rattle.std.specs.Prelude.{◌≤◌, length, option_map, IfSome};
ghost use Rattle.adb_remote_words.specs.Words.{HasWords};
ghost use Rattle.adb_remote.specs.Conversing.{inlet, ports_of};
ghost use Rattle.adb_remote.specs.Sending.{seen as written_to};
ghost use Rattle.adb_asking.specs.Asking.{Asks};
ghost use Rattle.adb_asking.specs.Telling.{seen};

use crate::ends::ToolEnd;
use crate::telling::tell_answer;
use adb_connections::{PortIn, PortOut};
use adb_outside::{Sink, Text};
use adb_remote::{MAX_WORD, Remote, converse};
use adb_remote_words::decided_answers_stay;
use std::alloc::Global;
use std::sync::Wait;

/// Asks a server for a job, on the device with this serial if one is given, and writes the answer.
/// A list or a file goes to the sink unchanged. After a file was sent, the line `pushed <n>` goes
/// to the sink. The output of a command goes to the sink; its error output and then the line `exit
/// <status>` go to the note.
///
/// - `Done`: there is an outcome.
/// - `WriteFault`: the sink or the note failed. A prefix of the output was written.
/// - Any other end is that of `converse`. The sink and the note are unchanged.
pub fn ask<W: Wait + Copy + Drop, I: PortIn, O: PortOut, K: Sink, N: Sink>(
    rt: W,
    alloc: Global,
    job: &Remote,
    on: Option<&Text>,
    input: &mut I,
    output: &mut O,
    sink: &mut K,
    note: &mut N,
) -> ToolEnd
    requires words { HasWords job.now }
    requires on { IfSome on (λ serial. length serial.now ≤ MAX_WORD) }
    ensures { Asks (ports_of I.steady (inlet I.faults I.left) O.steady
        (written_to O.faults O.written O.closed)) (seen K.steady K.faults K.written)
        (seen N.steady N.faults N.written) job.now (option_map (λ text. text.now) on.entry)
        input.old input.new output.old output.new sink.old sink.new note.old note.new result }
{
    decided_answers_stay();
    let answer = converse(rt, alloc, job, on, input, output);
    tell_answer(alloc, job, answer, sink, note)
}

//! A client tool over the sockets of this machine.

ghost use Rattle.std.specs.Prelude.{◌≡◌, None, false, true};
ghost use Rattle.adb_asking.specs.Telling.{seen};
ghost use Rattle.adb_serving.specs.Live.{live_yard};
ghost use Rattle.adb_top.specs.Tools.{RunsTool};
ghost use Rattle.adb_top.specs.Usage.{SaysUsage};
ghost use Rattle.adb_words.specs.Serve.{is_serve};
ghost use Rattle.adb_words.specs.Tools.{names_tool, tool_of};
ghost use Rattle.adb_words.specs.Words.{texts};

use adb_outside::{Sink, Source};
use adb_ports::{Ending, LiveDevice, RealYard};
use adb_top::{Status, run, say_out_of_memory};
use std::alloc::Global;
use std::marker::Brand;
use std::net::{Net, TcpListener, TcpStream};
use std::sync::Wait;
use std::thread::Threads;

/// Runs the client tool of the words: `adb_top::run` over a yard of this machine, which dials the
/// server's port. If the words are those of no tool, no port is dialled.
pub(crate) fn call_live<
    W: Net<Listener = TcpListener, Stream = TcpStream>
        + Threads
        + Wait
        + Copy
        + Send
        + Sync
        + Drop
        + 'static,
    S: Source,
    K: Sink,
    N: Sink,
>(rt: W, alloc: Global, words: &[String], source: &mut S, sink: &mut K, note: &mut N) -> Status
    requires serves { is_serve (texts words.now) ≡ false }
    requires tool { names_tool (texts words.now) ≡ true }
    ensures unheard { tool_of (texts words.now) ≡ None
        → SaysUsage result (seen N.steady N.faults N.written) note.old note.new
        × (source.new ≡ source.old) × (sink.new ≡ sink.old) }
    ensures tool { RunsTool words.now
        (seen S.steady S.faults S.left) (seen K.steady K.faults K.written)
        (seen N.steady N.faults N.written) live_yard
        source.old source.new sink.old sink.new note.old note.new 0 result }
{
    let Ok(ending) = Ending::new(alloc) else {
        return say_out_of_memory(note);
    };
    let yard = RealYard::<W, Brand>::new(rt, alloc, ending, None, None);
    let nobody = Vec::<LiveDevice<W>>::new(alloc);
    let ran = run(rt, alloc, words, source, sink, note, yard, nobody);
    ran.status
}

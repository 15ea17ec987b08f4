//! The record of a yard over sockets of this machine.

ghost use Rattle.std.specs.Prelude.{◌≡◌, [], Some};

use adb_capture::{Entry, Owner};
use adb_outside::MemorySink;
use adb_ports::{Begun, Ending, Named, PipeSink, RealYard, Settled, begin_record, end_record};
use adb_recorder::{Recorder, SinkRecorder};
use adb_server_yard::Yard;
use std::alloc::{AllocError, Global};
use std::marker::Brand;
use std::net::{Net, TcpListener, TcpStream};
use std::sync::Wait;
use std::thread::Threads;

/// Returns whether a recorder keeps three entries.
fn keeps(recorder: &mut impl Recorder) -> bool {
    recorder.keep(&Entry::Join { client: 1 }) == Ok(())
        && recorder.keep_piece(Owner::Client(1), b"000Chost:version") == Ok(())
        && recorder.keep(&Entry::Join { client: 2 }) == Ok(())
}

/// Returns whether a sink has the capture of those entries.
fn is_captured(alloc: Global, sink: &MemorySink) -> bool {
    let mut direct = SinkRecorder::new(MemorySink::new(alloc, Vec::new(alloc)));
    keeps(&mut direct) && direct.sink().bytes() == sink.bytes()
}

/// Returns whether a record that was begun has the entries that the recorder of its yard kept.
fn records<
    W: Net<Listener = TcpListener, Stream = TcpStream>
        + Threads
        + Wait
        + Copy
        + Send
        + Sync
        + Drop
        + 'static,
    B: Named + Send + 'static,
>(rt: W, alloc: Global, ending: Ending, begun: Begun<W, MemorySink>) -> bool
    requires pipe { Some begun.out.pipe ≡ B.pipe }
    requires begun { (begun.out.put ≡ [])
        × (begun.writing.thread.promise.input.value.pipe ≡ begun.out.pipe) }
{
    let Begun {
        out,
        state,
        writing,
    } = begun;
    let into = PipeSink::<W, B>::new(rt, alloc, out, state);
    let mut yard = RealYard::<W, B>::new(rt, alloc, ending, None, Some(into));
    let mut recorder = yard.recorder(true);
    let kept = keeps(&mut recorder);
    match end_record(&rt, recorder, writing) {
        Some(Settled { sink, whole }) => kept && whole && is_captured(alloc, &sink),
        None => false,
    }
}

/// Returns whether the recorder of a yard without a record discards entries.
fn discards<
    W: Net<Listener = TcpListener, Stream = TcpStream>
        + Threads
        + Wait
        + Copy
        + Send
        + Sync
        + Drop
        + 'static,
>(rt: W, alloc: Global, ending: Ending) -> bool {
    let mut yard = RealYard::<W, Brand>::new(rt, alloc, ending, None, None);
    keeps(&mut yard.recorder(false))
}

/// Returns whether a record is written in order and whole, and a yard without one keeps nothing.
pub fn a_record_is_written<
    W: Net<Listener = TcpListener, Stream = TcpStream>
        + Threads
        + Wait
        + Copy
        + Send
        + Sync
        + Drop
        + 'static,
>(rt: W, alloc: Global) -> Result<bool, AllocError> {
    let sink = MemorySink::new(alloc, Vec::new(alloc));
    let (on, off) = (Ending::new(alloc)?, Ending::new(alloc)?);
    let begun = begin_record(rt, alloc, &on, sink)?;
    Ok(records::<W, Brand>(rt, alloc, on, begun) && discards(rt, alloc, off))
}

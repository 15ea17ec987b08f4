//! A server over the sockets and the threads of this machine.

ghost use Rattle.std.specs.Prelude.{◌≡◌, ◌≢◌, [], IfOk, None, Some, true, false};
ghost use Rattle.adb_asking.specs.Telling.{seen};
ghost use Rattle.adb_serving.specs.Live.{Ended, ServesLive};
ghost use Rattle.adb_serving.specs.History.{GivesRecord, asks_record};
ghost use Rattle.adb_os_record.specs.Live.{Keeps, live_faults};
ghost use Rattle.adb_top.specs.Kept.{KeepsRecord};
ghost use Rattle.adb_top.specs.Usage.{SaysUsage};
ghost use Rattle.adb_words.specs.Serve.{Serving, is_serve, serve_of};
ghost use Rattle.adb_words.specs.Words.{texts};

use crate::devices::{Devices, devices_of};
use crate::started::{HistorySink, Started};
use adb_outside::{Sink, Source};
use adb_ports::{
    Begun, Deliveries, Ending, LiveDevice, LiveRecorder, Named, PipeSink, RealYard, Settled,
    Writing, begin_record, end_record,
};
use adb_top::{Ran, Status, run, say_out_of_memory, say_record_fault, wanted};
use adb_words::{Ports, WordsError, read_serve};
use std::alloc::{AllocError, Global};
use std::marker::Brand;
use std::net::{Net, TcpListener, TcpStream};
use std::sync::{Arc, Wait};
use std::thread::Threads;

/// Runs the server of the words, with the devices that they request: `adb_top::run` over a yard of
/// this machine. If the words request a record, it goes to `history` through a pipe and a thread of
/// its own, and the sink is returned when the server has ended and the record is written. Otherwise
/// `history` is returned as it was.
///
/// If a write of the record failed, or had not returned a second after the server's end, a status
/// of Done becomes RecordFault. If an allocation fails before the yard exists, or the system has no
/// thread for the record, the server listens on no port, and the status is OutOfMemory.
pub(crate) fn serve_live<
    W: Net<Listener = TcpListener, Stream = TcpStream>
        + Threads
        + Wait
        + Copy
        + Send
        + Sync
        + Drop
        + 'static,
    S: Source,
    K: Sink,
    N: Sink,
    R: Sink + Send + Drop + 'static,
>(
    rt: W,
    alloc: Global,
    words: &[String],
    source: &mut S,
    sink: &mut K,
    note: &mut N,
    history: R,
) -> Started<R>
    requires serve { is_serve (texts words.now) ≡ true }
    ensures untouched { (source.new ≡ source.old) × (sink.new ≡ sink.old) }
    ensures usage { serve_of (texts words.now) ≡ None
        → SaysUsage result.status (seen N.steady N.faults N.written) note.old note.new }
    ensures command { result.status ≡ Status.Usage → serve_of (texts words.now) ≡ None }
    ensures serves { (asked : Serving) → serve_of (texts words.now) ≡ Some asked
        → ServesLive asked.port result.status (seen N.steady N.faults N.written) note.old note.new }
    ensures unasked { asks_record (texts words.now) ≡ false
        → result.history ≡ HistorySink.Returned history }
    ensures record { asks_record (texts words.now) ≡ true
        → GivesRecord R.written history result.status result.history }
{
    let Ok(prepared) = prepare(rt, alloc, words) else {
        return Started {
            status: say_out_of_memory(note),
            history: HistorySink::Returned(history),
        };
    };
    if !prepared.records {
        let status = serve_unrecorded(rt, alloc, words, source, sink, note, prepared);
        return Started {
            status,
            history: HistorySink::Returned(history),
        };
    }
    let Ok(begun) = begin_record(rt, alloc, &prepared.ending, history) else {
        prepared.closing.close(&rt);
        return Started {
            status: say_out_of_memory(note),
            history: HistorySink::Dropped,
        };
    };
    serve_recorded::<W, Brand, S, K, N, R>(rt, alloc, words, source, sink, note, prepared, begun)
}

/// The flag that says whether a server ends, its devices, and whether its words request a record.
/// The dialers end when `closing` is closed.
#[derive(Drop)]
struct Prepared<
    W: Net<Listener = TcpListener, Stream = TcpStream>
        + Threads
        + Wait
        + Copy
        + Send
        + Sync
        + Drop
        + 'static,
> {
    ending: Ending,
    models: Vec<LiveDevice<W>>,
    deliveries: Arc<Deliveries, Global>,
    closing: Arc<Deliveries, Global>,
    records: bool,
}

/// Makes the flag and the devices of a server. There are no devices if the words are no command.
fn prepare<
    W: Net<Listener = TcpListener, Stream = TcpStream>
        + Threads
        + Wait
        + Copy
        + Send
        + Sync
        + Drop
        + 'static,
>(rt: W, alloc: Global, words: &[String]) -> Result<Prepared<W>, AllocError>
    requires serve { is_serve (texts words.now) ≡ true }
    ensures { IfOk result (λ prepared. prepared.records ≡ asks_record (texts words.now)) }
{
    let ending = Ending::new(alloc)?;
    let records = is_recorded(alloc, words)?;
    let Devices { models, deliveries } = devices_for(rt, alloc, words, &ending)?;
    let closing = Arc::try_clone(&deliveries)?;
    Ok(Prepared {
        ending,
        models,
        deliveries,
        closing,
        records,
    })
}

/// Returns whether the words request a record.
fn is_recorded(alloc: Global, words: &[String]) -> Result<bool, AllocError>
    ensures { IfOk result (λ records. records ≡ asks_record (texts words.now)) }
{
    match read_serve(alloc, words) {
        Ok(serve) => Ok(serve.records),
        Err(WordsError::Usage) => Ok(false),
        Err(WordsError::OutOfMemory) => Err(AllocError),
    }
}

/// Serves without a record.
fn serve_unrecorded<
    W: Net<Listener = TcpListener, Stream = TcpStream>
        + Threads
        + Wait
        + Copy
        + Send
        + Sync
        + Drop
        + 'static,
    S: Source,
    K: Sink,
    N: Sink,
>(
    rt: W,
    alloc: Global,
    words: &[String],
    source: &mut S,
    sink: &mut K,
    note: &mut N,
    prepared: Prepared<W>,
) -> Status
    requires serve { is_serve (texts words.now) ≡ true }
    requires unasked { asks_record (texts words.now) ≡ false }
    ensures untouched { (source.new ≡ source.old) × (sink.new ≡ sink.old) }
    ensures usage { serve_of (texts words.now) ≡ None
        → SaysUsage result (seen N.steady N.faults N.written) note.old note.new }
    ensures command { result ≡ Status.Usage → serve_of (texts words.now) ≡ None }
    ensures serves { (asked : Serving) → serve_of (texts words.now) ≡ Some asked
        → ServesLive asked.port result (seen N.steady N.faults N.written) note.old note.new }
{
    let Prepared {
        ending,
        models,
        deliveries,
        closing,
        records: _,
    } = prepared;
    let yard = RealYard::<W, Brand>::new(rt, alloc, ending, Some(deliveries), None);
    let ran = run(rt, alloc, words, source, sink, note, yard, models);
    closing.close(&rt);
    ran.status
}

/// Serves with a record that was begun. `B` names the pipe of the record.
fn serve_recorded<
    W: Net<Listener = TcpListener, Stream = TcpStream>
        + Threads
        + Wait
        + Copy
        + Send
        + Sync
        + Drop
        + 'static,
    B: Named + Send + 'static,
    S: Source,
    K: Sink,
    N: Sink,
    R: Sink + Send + Drop + 'static,
>(
    rt: W,
    alloc: Global,
    words: &[String],
    source: &mut S,
    sink: &mut K,
    note: &mut N,
    prepared: Prepared<W>,
    begun: Begun<W, R>,
) -> Started<R>
    requires serve { is_serve (texts words.now) ≡ true }
    requires asked { asks_record (texts words.now) ≡ true }
    requires pipe { Some begun.out.pipe ≡ B.pipe }
    requires begun { (begun.out.put ≡ [])
        × (begun.writing.thread.promise.input.value.pipe ≡ begun.out.pipe) }
    ensures untouched { (source.new ≡ source.old) × (sink.new ≡ sink.old) }
    ensures usage { serve_of (texts words.now) ≡ None
        → SaysUsage result.status (seen N.steady N.faults N.written) note.old note.new }
    ensures command { result.status ≡ Status.Usage → serve_of (texts words.now) ≡ None }
    ensures serves { (asked : Serving) → serve_of (texts words.now) ≡ Some asked
        → ServesLive asked.port result.status (seen N.steady N.faults N.written) note.old note.new }
    ensures record { GivesRecord R.written begun.writing.thread.promise.sink.value
        result.status result.history }
{
    let Prepared {
        ending,
        models,
        deliveries,
        closing,
        records: _,
    } = prepared;
    let Begun {
        out,
        state,
        writing,
    } = begun;
    let into = PipeSink::<W, B>::new(rt, alloc, out, state);
    let yard = RealYard::<W, B>::new(rt, alloc, ending, Some(deliveries), Some(into));
    let Ran { status, recorder } = run(rt, alloc, words, source, sink, note, yard, models);
    closing.close(&rt);
    settle_record::<W, B, N, R>(&rt, note, status, recorder, writing)
}

/// Ends the record of a server that has ended, and returns its sink. If the server did not serve,
/// there is no recorder, and the sink is dropped. If the thread that writes is stuck, it keeps the
/// sink, and a status of Done becomes RecordFault.
fn settle_record<W: Threads + Wait + Drop, B: Named, N: Sink, R: Sink + Drop>(
    rt: &W,
    note: &mut N,
    status: Status,
    recorder: Option<LiveRecorder<W, B>>,
    writing: Writing<W, R>,
) -> Started<R>
    requires { Some writing.thread.promise.input.value.pipe ≡ B.pipe }
    ensures ended { Ended status result.status
        (seen N.steady N.faults N.written) note.old note.new }
    ensures command { result.status ≡ Status.Usage → status ≡ Status.Usage }
    ensures record { KeepsRecord Keeps live_faults status recorder
        → GivesRecord R.written writing.thread.promise.sink.value result.status result.history }
{
    let Some(recorder) = recorder else {
        writing.abandon(rt);
        return Started {
            status,
            history: HistorySink::Dropped,
        };
    };
    let Some(Settled { sink, whole }) = end_record(rt, recorder, writing) else {
        return Started {
            status: ended(note, status, false),
            history: HistorySink::Stuck,
        };
    };
    Started {
        status: ended(note, status, whole),
        history: HistorySink::Returned(sink),
    }
}

/// Returns the status of a server that has ended: Done becomes that of a record fault if the record
/// was not written.
fn ended<N: Sink>(note: &mut N, status: Status, kept: bool) -> Status
    ensures ended { Ended status result (seen N.steady N.faults N.written) note.old note.new }
    ensures command { result ≡ Status.Usage → status ≡ Status.Usage }
    ensures done { result ≡ Status.Done → (status ≡ Status.Done) × (kept ≡ true) }
{
    match status {
        Status::Done if !kept => say_record_fault(note),
        _ => status,
    }
}

/// Makes the devices that the words request, or none if the words are no command.
fn devices_for<
    W: Net<Listener = TcpListener, Stream = TcpStream>
        + Threads
        + Wait
        + Copy
        + Send
        + Sync
        + Drop
        + 'static,
>(rt: W, alloc: Global, words: &[String], ending: &Ending) -> Result<Devices<W>, AllocError> {
    match wanted(alloc, words) {
        Ok(ports) => devices_of(rt, alloc, &ports, ending),
        Err(WordsError::Usage) => devices_of(rt, alloc, &no_ports(alloc), ending),
        Err(WordsError::OutOfMemory) => Err(AllocError),
    }
}

fn no_ports(alloc: Global) -> Ports {
    Ports {
        devices: Vec::new(alloc),
        connects: Vec::new(alloc),
    }
}

//! The thread that writes the chunks of a pipe to a sink.

ghost use Rattle.std.specs.Prelude.{◌≡◌, [], ℕ, List, Some, IfOk, IfSome, true, not, ◌&&◌, ◌++◌};
ghost use Rattle.adb_outside.specs.Outside.{Counts};
ghost use Rattle.adb_outside.specs.Sink.{FitsPiece, TellsWrite, is_failed_write};
ghost use Rattle.adb_os_record.specs.Written.{GoesOut, Settles, joined, with_left, with_next};

use crate::record_state::RecordState;
use adb_os_sockets::Ending;
use adb_outside::{Sink, Text, Wrote};
use adb_pipe::{PipeEnd, PipeIn, PipeOut, Taken, pipe};
use std::alloc::{AllocError, Global};
use std::snapshot::Snapshot;
use std::sync::Wait;
use std::thread;
use std::thread::{Promise, PromisedHandle, Threads};

/// The maximum number of chunks in the pipe of a record. A recorder blocks while the pipe holds
/// this many.
pub const MAX_CHUNKS: usize = 256;

/// The number of bytes at which gathered chunks are written.
const BATCH: usize = 65_536;

/// A chunk of at least this many bytes is written by itself, so that it is not copied.
const LARGE: usize = 16_384;

/// The state of a writing thread that has returned.
#[derive(Drop)]
pub struct Written<W: Wait + Drop, K: Drop> {
    pub input: PipeIn<W>,
    pub sink: K,
    /// Whether the end mark was taken.
    pub ended: bool,
    /// Whether a write failed.
    pub torn: bool,
}

/// The item that ended a batch.
#[derive(Drop)]
pub enum Next {
    /// No item: the pipe held no more.
    More,
    /// A chunk that was taken and is not in the batch: it is large, or an allocation failed.
    Chunk(Text),
    /// The end mark.
    End,
}

/// Appends the next chunk to the batch if the pipe holds one now. `None`: more chunks may follow.
#[tactic(auto, using(crate::proofs::GoingOut::gathered, crate::proofs::GoingOut::set_aside))]
fn gather_one<W: Wait + Drop>(input: &mut PipeIn<W>, batch: &mut Text) -> Option<Next>
    ensures pipe { input.new.pipe ≡ input.old.pipe }
    ensures ended { result ≡ Some Next.End → input.new.ended ≡ true }
    ensures taken { (before : List ℕ) → joined input.old.taken ≡ before ++ batch.old
        → joined input.new.taken ≡ with_left (before ++ batch.new) result }
{
    if batch.len() >= BATCH {
        return Some(Next::More);
    }
    match input.try_take() {
        None => Some(Next::More),
        Some(Taken::Lost) => Some(Next::More),
        Some(Taken::End) => Some(Next::End),
        Some(Taken::Chunk(chunk)) => {
            if chunk.len() >= LARGE {
                return Some(Next::Chunk(chunk));
            }
            if batch.push_slice(chunk.as_slice()).is_err() {
                return Some(Next::Chunk(chunk));
            }
            None
        }
    }
}

/// Appends the chunks that the pipe holds now to a batch. Does not wait.
fn gather<W: Wait + Drop>(input: &mut PipeIn<W>, batch: &mut Text) -> Next
    ensures pipe { input.new.pipe ≡ input.old.pipe }
    ensures ended { result ≡ Next.End → input.new.ended ≡ true }
    ensures taken { (before : List ℕ) → joined input.old.taken ≡ before ++ batch.old
        → joined input.new.taken ≡ with_next (before ++ batch.new) result }
{
    for _ in 0..MAX_CHUNKS {
        if let Some(next) = gather_one(input, batch) {
            return next;
        }
    }
    Next::More
}

/// Writes a chunk, which may be empty.
#[tactic(auto, using(crate::proofs::GoingOut::nothing_more))]
fn write_chunk<K: Sink>(sink: &mut K, chunk: &[u8]) -> Wrote
    ensures fits { FitsPiece chunk.now result }
    ensures told { TellsWrite (K.written sink.old) (K.written sink.new) chunk.now result }
    ensures counts { Counts K.steady K.faults sink.old sink.new (is_failed_write result) }
{
    if chunk.is_empty() {
        return Wrote::All;
    }
    sink.write(chunk)
}

/// Writes one more piece of the text, unless a write has failed. Returns whether a write has
/// failed.
#[tactic(auto, using(crate::proofs::GoingOut::one_whole, crate::proofs::GoingOut::one_torn, crate::proofs::GoingOut::one_dropped))]
fn go_on<K: Sink>(sink: &mut K, torn: bool, chunk: &[u8]) -> bool
    ensures { (had : List ℕ) (first : ℕ) (text : List ℕ)
        → GoesOut had first torn (K.written sink.old) (K.faults sink.old) text
        → GoesOut had first result (K.written sink.new) (K.faults sink.new) (text ++ chunk.now) }
{
    if torn {
        return true;
    }
    match write_chunk(sink, chunk) {
        Wrote::All => false,
        Wrote::Failed { taken: _ } => true,
    }
}

/// Writes a chunk that was taken, and with it the chunks that the pipe holds now. Returns
/// `Some(true)` if the end mark was taken, and whether a write has failed.
fn write_batch<W: Wait + Drop, K: Sink>(
    input: &mut PipeIn<W>,
    sink: &mut K,
    torn: bool,
    chunk: Text,
) -> (Option<bool>, bool)
    ensures pipe { input.new.pipe ≡ input.old.pipe }
    ensures ended { result.0 ≡ Some true → input.new.ended ≡ true }
    ensures out { (had : List ℕ) (first : ℕ) (before : List ℕ)
        → joined input.old.taken ≡ before ++ chunk
        → GoesOut had first torn (K.written sink.old) (K.faults sink.old) before
        → GoesOut had first result.1 (K.written sink.new) (K.faults sink.new)
        (joined input.new.taken) }
{
    let mut batch = chunk;
    let next = gather(input, &mut batch);
    let torn = go_on(sink, torn, batch.as_slice());
    match next {
        Next::More => (None, torn),
        Next::End => (Some(true), torn),
        Next::Chunk(chunk) => (None, go_on(sink, torn, chunk.as_slice())),
    }
}

/// Waits for a chunk, and writes it with those that follow. Returns whether the end mark was taken
/// if the pipe yields no more, and whether a write has failed.
fn turn<W: Wait + Drop, K: Sink>(
    input: &mut PipeIn<W>,
    sink: &mut K,
    torn: bool,
) -> (Option<bool>, bool)
    ensures pipe { input.new.pipe ≡ input.old.pipe }
    ensures ended { result.0 ≡ Some true → input.new.ended ≡ true }
    ensures out { (had : List ℕ) (first : ℕ)
        → GoesOut had first torn (K.written sink.old) (K.faults sink.old) (joined input.old.taken)
        → GoesOut had first result.1 (K.written sink.new) (K.faults sink.new)
        (joined input.new.taken) }
{
    match input.take() {
        Taken::Chunk(chunk) => write_batch(input, sink, torn, chunk),
        Taken::End => (Some(true), torn),
        Taken::Lost => (Some(false), torn),
    }
}

/// Takes every chunk and writes it, and reports after each write. Returns whether the end mark was
/// taken, and whether a write failed.
#[tactic(auto, using(crate::proofs::GoingOut::begins))]
fn take_all<W: Wait + Drop, K: Sink>(
    rt: &W,
    input: &mut PipeIn<W>,
    sink: &mut K,
    state: &RecordState,
) -> (bool, bool)
    requires { input.old.taken ≡ [] }
    ensures pipe { input.new.pipe ≡ input.old.pipe }
    ensures ended { result.0 ≡ true → input.new.ended ≡ true }
    ensures out { (had : List ℕ) → K.written sink.old ≡ Some had
        → GoesOut had (K.faults sink.old) result.1 (K.written sink.new) (K.faults sink.new)
        (joined input.new.taken) }
{
    let mut torn = false;
    for _ in rt.forever() {
        let (over, failed) = turn(input, sink, torn);
        torn = failed;
        state.take();
        if torn {
            state.fail();
        }
        if let Some(ended) = over {
            return (ended, torn);
        }
    }
    unreachable!()
}

/// Writes the chunks of a pipe to a sink, until the output end is finished or dropped. After a
/// failed write it reports the failure, writes nothing more and discards the chunks, so that no
/// recorder blocks on a full pipe. It reports when it returns.
pub fn write_out<W: Wait + Drop, K: Sink + Drop>(
    rt: W,
    input: PipeIn<W>,
    sink: K,
    state: RecordState,
) -> Written<W, K>
    requires { input.taken ≡ [] }
    ensures pipe { result.input.pipe ≡ input.pipe }
    ensures ended { result.ended ≡ true → result.input.ended ≡ true }
    ensures out { (had : List ℕ) → K.written sink ≡ Some had
        → GoesOut had (K.faults sink) result.torn (K.written result.sink) (K.faults result.sink)
        (joined result.input.taken) }
{
    let (mut input, mut sink) = (input, sink);
    let (ended, torn) = take_all(&rt, &mut input, &mut sink, &state);
    state.finish();
    Written {
        input,
        sink,
        ended,
        torn,
    }
}

/// The promise of a writing thread: its result is that of `write_out` with this input and this
/// sink.
#[derive(Drop)]
pub struct WillWrite<W: Wait + Drop, K: Drop> {
    input: Snapshot<PipeIn<W>>,
    sink: Snapshot<K>,
}

impl<W: Wait + Drop, K: Sink + Drop> Promise<Written<W, K>> for WillWrite<W, K> {
    ghost use Rattle.std.specs.Prelude.{◌≡◌, ℕ, List, Some, true};
    ghost use Rattle.adb_os_record.specs.Written.{GoesOut, joined};

    ghost kept_by = { λ p r. (r.input.pipe ≡ p.input.value.pipe)
        × (r.ended ≡ true → r.input.ended ≡ true)
        × ((had : List ℕ) → K.written p.sink.value ≡ Some had
        → GoesOut had (K.faults p.sink.value) r.torn (K.written r.sink) (K.faults r.sink)
        (joined r.input.taken)) };
}

/// Starts the thread that writes the chunks of a pipe to a sink. Returns `None` if the system
/// cannot start a thread.
fn start<W: Threads + Wait + Copy + Send + Sync + Drop + 'static, K: Sink + Send + Drop + 'static>(
    rt: W,
    input: PipeIn<W>,
    sink: K,
    state: RecordState,
) -> Option<PromisedHandle<Written<W, K>, WillWrite<W, K>>>
    requires { input.taken ≡ [] }
    ensures { IfSome result (λ h. (h.promise.input.value ≡ input)
        × (h.promise.sink.value ≡ sink)) }
{
    let promise = WillWrite {
        input: Snapshot::of(&input),
        sink: Snapshot::of(&sink),
    };
    let started = thread::spawn_with(
        &rt,
        promise,
        move || -> Written<W, K>
            requires { input.taken ≡ [] }
            ensures { (result.input.pipe ≡ input.pipe)
                × (result.ended ≡ true → result.input.ended ≡ true)
                × ((had : List ℕ) → K.written sink ≡ Some had
                → GoesOut had (K.faults sink) result.torn (K.written result.sink) (K.faults result.sink)
                (joined result.input.taken)) }
        { write_out(rt, input, sink, state) },
    );
    started.ok()
}

/// A record that was begun: the output end of its pipe, the state for its recorder, and the thread
/// that writes.
#[derive(Drop)]
pub struct Begun<W: Wait + Drop, K: Sink + Drop> {
    pub out: PipeOut<W>,
    pub state: RecordState,
    pub writing: Writing<W, K>,
}

/// A thread that writes a record, and what it reports.
#[derive(Drop)]
pub struct Writing<W: Wait + Drop, K: Sink + Drop> {
    pub thread: PromisedHandle<Written<W, K>, WillWrite<W, K>>,
    pub state: RecordState,
}

/// Opens the pipe of a record and starts the thread that writes it to a sink. `ending` says whether
/// the server ends.
///
/// `Err`: an allocation failed, or the system cannot start a thread. The sink is dropped, and
/// nothing was written to it.
pub fn begin_record<
    W: Threads + Wait + Copy + Send + Sync + Drop + 'static,
    K: Sink + Send + Drop + 'static,
>(rt: W, alloc: Global, ending: &Ending, sink: K) -> Result<Begun<W, K>, AllocError>
    ensures { IfOk result (λ begun. (begun.out.put ≡ [])
        × (begun.writing.thread.promise.input.value.pipe ≡ begun.out.pipe)
        × (begun.writing.thread.promise.sink.value ≡ sink)) }
{
    let state = RecordState::new(alloc, ending)?;
    let theirs = state.share()?;
    let ends = state.share()?;
    let (out, input) = pipe(rt, alloc, MAX_CHUNKS)?;
    let Some(thread) = start(rt, input, sink, theirs) else {
        return Err(AllocError);
    };
    let writing = Writing {
        thread,
        state: ends,
    };
    Ok(Begun {
        out,
        state,
        writing,
    })
}

/// The result of a thread that has written: its sink, and whether every chunk was written.
#[derive(Drop)]
pub struct Settled<K: Drop> {
    pub sink: K,
    pub whole: bool,
}

impl<W: Threads + Wait + Drop, K: Sink + Drop> Writing<W, K> {
    /// Waits until the thread returns after the output end was dropped, for a second at most since
    /// the server ends. Its sink is dropped.
    pub fn abandon(self, rt: &W) {
        self.state.await_return(rt);
    }

    /// Waits until the thread returns after the output end is finished, for a second at most since
    /// the server ends.
    ///
    /// `None`: the thread has not returned. It keeps its sink.
    pub fn settle(self, rt: &W, end: PipeEnd) -> Option<Settled<K>>
        requires { end.pipe ≡ self.thread.promise.input.value.pipe }
        ensures { IfSome result (λ settled. (had : List ℕ)
            → K.written self.thread.promise.sink.value ≡ Some had
            → Settles had (K.written settled.sink) settled.whole (joined end.put)) }
    {
        let Writing { thread, state } = self;
        if !state.await_return(rt) {
            return None;
        }
        Some(join_thread(rt, end, thread))
    }
}

/// Joins the writing thread after the output end is finished.
fn join_thread<W: Threads + Wait + Drop, K: Sink + Drop>(
    rt: &W,
    end: PipeEnd,
    thread: PromisedHandle<Written<W, K>, WillWrite<W, K>>,
) -> Settled<K>
    requires { end.pipe ≡ thread.promise.input.value.pipe }
    ensures { (had : List ℕ) → K.written thread.promise.sink.value ≡ Some had
        → Settles had (K.written result.sink) result.whole (joined end.put) }
{
    let Written {
        input,
        sink,
        ended,
        torn,
    } = thread.join(rt);
    end.compare(input);
    Settled {
        sink,
        whole: all_went(ended, torn),
    }
}

/// Returns whether every chunk was written.
fn all_went(ended: bool, torn: bool) -> bool
    ensures { result ≡ (ended && not torn) }
{
    ended && !torn
}

//! A sink that puts the pieces that it is given into a pipe.

ghost use Rattle.std.specs.Prelude.{◌≡◌, [], ◌∷◌, ◌++◌, Some, IfSome, true, false};

use crate::record_state::RecordState;
use adb_outside::{Sink, Text, Wrote};
use adb_pipe::{NotPut, PipeEnd, PipeOut};
use std::alloc::Global;
use std::marker::{Brand, Model, PhantomData};
use std::sync::Wait;

/// The name of the pipe of a record, chosen at the call that opens the pipe. `None` is the name for
/// a server without a record.
pub trait Named {
    ghost use Rattle.std.specs.Prelude.{Option};
    ghost use Rattle.adb_pipe.specs.Ends.{PipeId};

    ghost pipe: { Option PipeId };
}

impl Named for Brand {
    ghost use Rattle.std.specs.Prelude.{None};

    ghost pipe = { None };
}

/// A sink that puts each piece into the pipe named by `B`, as a chunk of its own. A write blocks
/// while the pipe is full; if the server ends or is asked to end, for a second at most. It fails if
/// the pipe is still full then, if an allocation fails, if the pipe refuses the chunk, and after
/// the writing thread has reported a failure.
#[derive(Drop)]
pub struct PipeSink<W: Wait + Drop, B: Named> {
    rt: W,
    alloc: Global,
    out: PipeOut<W>,
    state: RecordState,
    faults: u64,
    of: PhantomData<B>,
}

impl<W: Wait + Drop, B: Named> Model for PipeSink<W, B> {
    ghost use Rattle.std.specs.Prelude.{◌≡◌, Some};
    ghost use Rattle.adb_os_record.specs.Written.{PipeSinkView};

    ghost Value = { PipeSinkView };

    ghost invariant = { λ s. Some s.out.pipe ≡ B.pipe };

    ghost view = { λ s. record { pipe = s.out.pipe; put = s.out.put; faults = s.faults } };
}

impl<W: Wait + Drop, B: Named> PipeSink<W, B> {
    /// Returns a sink over the output end of the pipe named by `B`.
    pub fn new(rt: W, alloc: Global, out: PipeOut<W>, state: RecordState) -> PipeSink<W, B>
        requires { Some out.pipe ≡ B.pipe }
        ensures { result ≡ record { pipe = out.pipe; put = out.put; faults = 0 } }
    {
        PipeSink {
            rt,
            alloc,
            out,
            state,
            faults: 0,
            of: PhantomData,
        }
    }

    /// Puts the end mark. Waits for room in the pipe for a second at most, since the server ends.
    /// `None`: the pipe was full. Its input end finds no mark.
    pub fn finish(self) -> Option<PipeEnd>
        ensures is { IfSome result (λ end. end ≡ record { pipe = self.pipe; put = self.put }) }
        ensures named { IfSome result (λ end. Some end.pipe ≡ B.pipe) }
    {
        let PipeSink {
            rt,
            alloc: _,
            out,
            state,
            faults: _,
            of: _,
        } = self;
        finish_out(&rt, out, &state)
    }
}

/// Puts the end mark of a pipe, as `PipeSink::finish` does.
fn finish_out<W: Wait + Drop>(rt: &W, out: PipeOut<W>, state: &RecordState) -> Option<PipeEnd>
    ensures { IfSome result (λ end. end ≡ record { pipe = out.pipe; put = out.put }) }
{
    let mut out = out;
    for _ in rt.forever() {
        match out.try_finish() {
            Ok(end) => return Some(end),
            Err(full) => out = full,
        }
        if !state.await_room(rt) {
            return None;
        }
    }
    unreachable!()
}

/// Puts a chunk, and waits while the pipe is full. Returns whether it was put: not if the pipe
/// refuses it, and not if a server that ends or is asked to end has waited for a second.
fn put_out<W: Wait + Drop>(rt: &W, out: &mut PipeOut<W>, state: &RecordState, chunk: Text) -> bool
    ensures pipe { out.new.pipe ≡ out.old.pipe }
    ensures put { result ≡ true → out.new.put ≡ out.old.put ++ chunk ∷ [] }
    ensures unput { result ≡ false → out.new.put ≡ out.old.put }
{
    let mut chunk = chunk;
    for _ in rt.forever() {
        match out.try_put(chunk) {
            Ok(()) => {
                state.put();
                return true;
            }
            Err(NotPut::Refused(_)) => return false,
            Err(NotPut::Full(back)) => chunk = back,
        }
        if !state.await_room(rt) {
            return false;
        }
    }
    unreachable!()
}

impl<W: Wait + Drop, B: Named> Sink for PipeSink<W, B> {
    ghost use Rattle.std.specs.Prelude.{Some};
    ghost use Rattle.adb_os_record.specs.Written.{joined};

    ghost faults = { λ sink. sink.faults };

    ghost written = { λ sink. Some (joined sink.put) };

    ghost steady = { λ sink. ⊥ };

    /// Puts the piece into the pipe.
    ///
    /// `Failed`: the write failed, nothing was put, and the count of faults rises.
    #[tactic(auto, using(crate::proofs::GoingOut::put_more, crate::proofs::GoingOut::nothing_more))]
    fn write(&mut self, piece: &[u8]) -> Wrote {
        if !self.state.has_failed() {
            if let Ok(chunk) = Text::from_slice(self.alloc, piece) {
                if put_out(&self.rt, &mut self.out, &self.state, chunk) {
                    return Wrote::All;
                }
            }
        }
        self.faults = self.faults.saturating_add(1);
        Wrote::Failed { taken: 0 }
    }
}

//! The two ends of a pipe.

ghost use Rattle.std.specs.Prelude.{◌≡◌, ◌<◌, ◌++◌, ℕ, List, true, IfOk, MatchResult};
ghost use Rattle.adb_pipe.specs.Ends.{Begins, Puts, PutsNow, Takes, TakesNow};
ghost use Rattle.adb_pipe.specs.Rule.{IsChunk, bytes_of};

use crate::rule::{Cut, InOrder, Item, Kept, Moves, View, Whole};
use adb_outside::Text;
use crossbeam_channel::{Pass, RuledReceiver, RuledSender, TrySendError, bounded_with};
use std::alloc::{AllocError, Global};
use std::marker::Model;
use std::sync::Wait;

/// The output end of a pipe. Contracts see the chunks that it put, and how many were refused; that
/// count stays at its largest value.
///
/// If it is dropped without `finish`, no end mark is put: the chunks that were put can be taken,
/// and then `take` returns `Lost`.
#[derive(Drop)]
pub struct PipeOut<W: Wait + Drop> {
    rt: W,
    sender: RuledSender<Item, View, InOrder>,
    pass: Pass<Item, View>,
    refused: u64,
}

impl<W: Wait + Drop> Model for PipeOut<W> {
    ghost use Rattle.std.specs.Prelude.{◌≡◌};
    ghost use Rattle.crossbeam_channel.specs.Claims.{IsSeatAt, view as known};
    ghost use Rattle.crossbeam_channel.specs.Ends.{ruled_capacity, sends_on};
    ghost use Rattle.adb_pipe.specs.Ends.{OutView};
    ghost use Rattle.adb_pipe.specs.Rule.{open_putter, passed};

    ghost Value = { OutView };

    ghost view = { λ p. record {
      pipe = record {
        table = (sends_on p.sender).stamps.shared.table_id;
        key = (sends_on p.sender).stamps.shared.key;
      };
      room = ruled_capacity (sends_on p.sender);
      put = (passed (known p.pass)).chunks;
      refused = p.refused;
    } };

    ghost invariant = { λ p. IsSeatAt (sends_on p.sender) p.pass
        × (known p.pass ≡ open_putter (passed (known p.pass)).chunks) };
}

/// The input end of a pipe. Contracts see the chunks that it took, whether it returned `End`, and
/// how often it returned `Lost`; that count stays at its largest value.
#[derive(Drop)]
pub struct PipeIn<W: Wait + Drop> {
    rt: W,
    receiver: RuledReceiver<Item, View, InOrder>,
    pass: Pass<Item, View>,
    lost: u64,
}

impl<W: Wait + Drop> Model for PipeIn<W> {
    ghost use Rattle.std.specs.Prelude.{◌≡◌};
    ghost use Rattle.crossbeam_channel.specs.Claims.{IsSeatAt, view as known};
    ghost use Rattle.crossbeam_channel.specs.Ends.{receives_on};
    ghost use Rattle.adb_pipe.specs.Ends.{InView};
    ghost use Rattle.adb_pipe.specs.Rule.{passed};
    ghost use Rattle.adb_pipe.specs.declared.rule.View.TheVariants.{Taker};

    ghost Value = { InView };

    ghost view = { λ p. record {
      pipe = record {
        table = (receives_on p.receiver).stamps.shared.table_id;
        key = (receives_on p.receiver).stamps.shared.key;
      };
      taken = (passed (known p.pass)).chunks;
      ended = (passed (known p.pass)).ended;
      lost = p.lost;
    } };

    ghost invariant = { λ p. IsSeatAt (receives_on p.receiver) p.pass
        × (known p.pass ≡ Taker (passed (known p.pass))) };
}

/// The reason why `PipeOut::try_put` has not put a chunk, which is returned.
#[derive(Drop)]
pub enum NotPut {
    /// The pipe was full at some moment of the call.
    Full(Text),
    /// The channel refused the chunk.
    Refused(Text),
}

/// The answer of `PipeIn::take`.
#[derive(Drop)]
pub enum Taken {
    /// The next chunk.
    Chunk(Text),
    /// Every chunk was taken, and the output end is finished.
    End,
    /// The channel yielded nothing. It was empty at some moment of the call. The answer does not
    /// say why, for example that the output end was dropped.
    Lost,
}

/// Returns the two ends of a new pipe that holds at most `chunks` chunks at a time.
pub fn pipe<W: Wait + Copy + Drop>(
    rt: W,
    alloc: Global,
    chunks: usize,
) -> Result<(PipeOut<W>, PipeIn<W>), AllocError>
    requires { 0 < chunks }
    ensures { IfOk result (λ ends. Begins chunks ends.0 ends.1) }
{
    let (sender, receiver, mut putter) = bounded_with::<_, _, InOrder, _>(alloc, chunks)?;
    let taker = sender.another::<Cut>(&mut putter);
    let out = PipeOut {
        rt,
        sender,
        pass: putter,
        refused: 0,
    };
    let input = PipeIn {
        rt,
        receiver,
        pass: taker,
        lost: 0,
    };
    Ok((out, input))
}

impl<W: Wait + Drop> PipeOut<W> {
    /// Puts a chunk after the others. Blocks while the pipe is full.
    ///
    /// `Err`: the channel refused the chunk, which is returned. The pipe is unchanged except for
    /// the count of refusals.
    pub fn put(&mut self, chunk: Text) -> Result<(), Text>
        ensures { Puts self.old chunk result self.new }
    {
        let item = Item::Chunk(chunk);
        let sent = self
            .sender
            .send_as::<Moves, W>(&self.rt, &mut self.pass, item);
        match sent {
            Ok(()) => Ok(()),
            Err(refusal) => {
                self.refused = self.refused.saturating_add(1);
                Err(chunk_of(refusal.into_inner()))
            }
        }
    }

    /// Puts a chunk after the others if the pipe has room for it now. Does not wait.
    ///
    /// - `Full`: the pipe was full. It is unchanged.
    /// - `Refused`: the channel refused the chunk, as of `put`.
    pub fn try_put(&mut self, chunk: Text) -> Result<(), NotPut>
        ensures { PutsNow self.old chunk result self.new }
    {
        let item = Item::Chunk(chunk);
        let sent = self
            .sender
            .try_send_as::<Moves, W>(&self.rt, &mut self.pass, item);
        match sent {
            Ok(()) => Ok(()),
            Err(TrySendError::Full(item)) => Err(NotPut::Full(chunk_of(item))),
            Err(refusal) => {
                self.refused = self.refused.saturating_add(1);
                Err(NotPut::Refused(chunk_of(refusal.into_inner())))
            }
        }
    }

    /// Puts the end mark after the chunks. Blocks while the pipe is full. If the channel refuses
    /// the mark, the input end returns `Lost` in its place.
    pub fn finish(self) -> PipeEnd
        ensures { result ≡ record { pipe = self.pipe; put = self.put } }
    {
        let PipeOut {
            rt,
            sender,
            mut pass,
            refused: _,
        } = self;
        let _ = sender.send_as::<Moves, W>(&rt, &mut pass, Item::End);
        PipeEnd { sender, pass }
    }

    /// Puts the end mark after the chunks if the pipe has room for it now, as `finish` does. Does
    /// not wait. `Err`: the pipe was full, and this end is returned as it was.
    pub fn try_finish(self) -> Result<PipeEnd, PipeOut<W>>
        ensures { MatchResult result
            (λ end. end ≡ record { pipe = self.pipe; put = self.put })
            (λ out. out ≡ self) }
    {
        let PipeOut {
            rt,
            sender,
            mut pass,
            refused,
        } = self;
        match sender.try_send_as::<Moves, W>(&rt, &mut pass, Item::End) {
            Err(TrySendError::Full(_)) => Err(PipeOut {
                rt,
                sender,
                pass,
                refused,
            }),
            _ => Ok(PipeEnd { sender, pass }),
        }
    }
}

/// A finished output end.
#[derive(Drop)]
pub struct PipeEnd {
    sender: RuledSender<Item, View, InOrder>,
    pass: Pass<Item, View>,
}

impl Model for PipeEnd {
    ghost use Rattle.std.specs.Prelude.{◌≡◌};
    ghost use Rattle.crossbeam_channel.specs.Claims.{IsSeatAt, view as known};
    ghost use Rattle.crossbeam_channel.specs.Ends.{sends_on};
    ghost use Rattle.adb_pipe.specs.Ends.{EndView};
    ghost use Rattle.adb_pipe.specs.Rule.{passed};
    ghost use Rattle.adb_pipe.specs.declared.rule.View.TheVariants.{Putter};

    ghost Value = { EndView };

    ghost view = { λ p. record {
      pipe = record {
        table = (sends_on p.sender).stamps.shared.table_id;
        key = (sends_on p.sender).stamps.shared.key;
      };
      put = (passed (known p.pass)).chunks;
    } };

    ghost invariant = { λ p. IsSeatAt (sends_on p.sender) p.pass
        × (known p.pass ≡ Putter (passed (known p.pass))) };
}

impl PipeEnd {
    /// Joins the two ends of one pipe. The chunks that were taken are a prefix of those that were
    /// put, and all of them if the end mark was taken.
    #[tactic(auto, using(crate::proofs::Rules::merges, crate::proofs::Rules::learns, crate::proofs::Rules::held, crate::proofs::Rules::whole))]
    pub fn compare<W: Wait + Drop>(self, input: PipeIn<W>)
        requires { self.pipe ≡ input.pipe }
        ensures front { (left : List (List ℕ)) × (self.put ≡ input.taken ++ left) }
        ensures whole { input.ended ≡ true → self.put ≡ input.taken }
    {
        let PipeEnd { sender, mut pass } = self;
        let PipeIn {
            rt: _,
            receiver: _,
            pass: taker,
            lost: _,
        } = input;
        sender.absorb::<Whole>(&mut pass, taker);
        sender.learn_as::<Kept>(&mut pass);
    }
}

fn chunk_of(item: Item) -> Text
    requires { IsChunk item }
    ensures { result ≡ bytes_of item }
{
    match item {
        Item::Chunk(chunk) => chunk,
        Item::End => unreachable!(),
    }
}

impl<W: Wait + Drop> PipeIn<W> {
    /// Takes the next chunk, or the end mark after the last one. Blocks while the pipe is empty.
    /// After the end mark each call returns `Lost`.
    #[tactic(auto, using(crate::proofs::Rules::takes))]
    pub fn take(&mut self) -> Taken
        ensures { Takes self.old result self.new }
    {
        let received = self.receiver.recv_as::<Moves, W>(&self.rt, &mut self.pass);
        match received {
            Ok(Item::Chunk(chunk)) => Taken::Chunk(chunk),
            Ok(Item::End) => Taken::End,
            Err(_) => {
                self.lost = self.lost.saturating_add(1);
                Taken::Lost
            }
        }
    }

    /// Takes the next chunk or the end mark if the pipe holds one now. Does not wait. `None` says
    /// nothing of the output end; a later `take` returns `Lost` if that was dropped.
    #[tactic(auto, using(crate::proofs::Rules::takes))]
    pub fn try_take(&mut self) -> Option<Taken>
        ensures { TakesNow self.old result self.new }
    {
        let received = self
            .receiver
            .try_recv_as::<Moves, W>(&self.rt, &mut self.pass);
        match received {
            Ok(Item::Chunk(chunk)) => Some(Taken::Chunk(chunk)),
            Ok(Item::End) => Some(Taken::End),
            Err(_) => None,
        }
    }
}

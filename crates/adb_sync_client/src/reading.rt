//! The answer bytes that a machine holds.

ghost use Rattle.std.specs.Prelude.{◌≡◌, ◌≢◌, [], true, false, Err, IfOk, OnOk, OnErr, IsErr};
ghost use Rattle.adb_outside.specs.Framing.{answer_of};
ghost use Rattle.adb_sync_client.specs.Reading.{Continues, Gathers, Reads, StandsFor};
ghost use Rattle.adb_sync_client.specs.Reading.{meaning, spend, with_said};
ghost use Rattle.adb_sync_client.specs.Values.{Said, unended};

use crate::expected::Expected;
use crate::kind::AnswerKind;
use crate::step::Step;
use crate::told::{Next, Told};
use adb_outside::{FeedError, Framer};
use adb_sync::SyncAnswer;
use std::alloc::{AllocError, Global};
use std::marker::Model;

/// The state of reading the answer to a request: the content of the whole answers, whether one of
/// them ended it, and the bytes past them. An allocation failure spends it.
#[derive(Drop)]
pub struct Reading {
    framer: Framer<Expected, SyncAnswer, u64>,
    pub told: Told,
    next: Next,
    spent: bool,
}

impl Model for Reading {
    ghost use Rattle.adb_sync_client.specs.Reading.{Read};

    ghost Value = { Read };

    ghost view = { λ r. record { cut = r.framer; said = r.told; next = r.next; spent = r.spent } };
}

impl Reading {
    /// Returns the state before any byte was fed. Allocates nothing.
    pub fn new(alloc: Global, kind: AnswerKind) -> Reading
        ensures stands { StandsFor kind [] result }
        ensures spent { result.spent ≡ false }
    {
        Reading {
            framer: Framer::new(alloc, Expected::to(kind)),
            told: Told::new(alloc),
            next: Next::GoesOn,
            spent: false,
        }
    }

    /// Takes the next piece of the answer bytes. If they are a whole answer, its content is in
    /// `told`. If an allocation fails, the state is spent.
    pub fn feed(&mut self, piece: &[u8]) -> Result<Step<()>, AllocError>
        ensures ok { IfOk result (λ step. Reads self.old piece.now step self.new) }
        ensures open { OnOk result ((self.old.spent ≡ false) × (self.new.spent ≡ false)) }
        ensures err { OnErr result (self.new.spent ≡ true) }
        ensures stays { self.old.spent ≡ true → (IsErr result) × (self.new ≡ self.old) }
    {
        if self.spent {
            return Err(AllocError);
        }
        let step = self.feed_open(piece);
        self.spend_on(step)
    }

    /// Passes on the result of a call, and marks the state as spent if it is an error.
    pub fn spend_on<V: Drop>(&mut self, answer: Result<V, AllocError>) -> Result<V, AllocError>
        ensures same { result ≡ answer }
        ensures spent { self.new ≡ spend self.old answer }
    {
        if answer.is_err() {
            self.spent = true;
        }
        answer
    }

    /// Takes the next piece, if no allocation has failed.
    fn feed_open(&mut self, piece: &[u8]) -> Result<Step<()>, AllocError>
        ensures ok { IfOk result (λ step. Reads self.old piece.now step self.new) }
        ensures same { self.new.spent ≡ self.old.spent }
    {
        let fault = match self.next {
            Next::GoesOn => self.continue_with(piece)?,
            Next::Done | Next::Refused(_) => None,
        };
        self.step(fault)
    }

    /// Returns the meaning of all the bytes, if this is their fault.
    fn step(&self, fault: Option<u64>) -> Result<Step<()>, AllocError>
        requires held { self.now.next ≡ Next.GoesOn → self.now.cut.given ≡ [] }
        requires fault { self.now.next ≡ Next.GoesOn → self.now.cut.fault ≡ fault }
        ensures { IfOk result (λ step. with_said self.now.said step ≡ meaning self.now) }
    {
        match &self.next {
            Next::GoesOn => Ok(unended(fault)),
            Next::Done => Ok(Step::Done(())),
            Next::Refused(text) => Ok(Step::Refused(text.copy()?)),
        }
    }

    /// Cuts the next piece, takes the answers that it completes, and returns the fault after them.
    fn continue_with(&mut self, piece: &[u8]) -> Result<Option<u64>, AllocError>
        requires { self.old.next ≡ Next.GoesOn }
        ensures ok { IfOk result (λ fault. Continues self.old piece.now fault self.new) }
        ensures same { self.new.spent ≡ self.old.spent }
    {
        let fault = told_fault(self.framer.feed(piece))?;
        self.gather()?;
        Ok(fault)
    }

    /// Takes the answers that are held, up to one that ends them.
    fn gather(&mut self) -> Result<(), AllocError>
        ensures ok { OnOk result (Gathers self.old self.new) }
        ensures fault { self.new.cut.fault ≡ self.old.cut.fault }
        ensures same { self.new.spent ≡ self.old.spent }
    {
        while matches!(self.next, Next::GoesOn) {
            let Some(answer) = self.framer.next() else {
                return Ok(());
            };
            self.next = self.told.take(answer)?;
        }
        Ok(())
    }
}

/// Returns the meaning of bytes with answers that do not end.
fn unended(fault: Option<u64>) -> Step<()>
    ensures { (said : Said) → with_said said result ≡ unended fault }
{
    match fault {
        None => Step::More,
        Some(offset) => Step::BadAnswer { offset },
    }
}

/// Returns the fault that a framer reported. An allocation failure is passed on as an error.
fn told_fault(answer: Result<(), FeedError<u64>>) -> Result<Option<u64>, AllocError>
    ensures ok { IfOk result (λ fault. (answer ≢ Err FeedError.OutOfMemory)
        × (answer ≡ answer_of FeedError.Fault fault)) }
    ensures err { OnErr result (answer ≡ Err FeedError.OutOfMemory) }
{
    match answer {
        Ok(()) => Ok(None),
        Err(FeedError::Fault(offset)) => Ok(Some(offset)),
        Err(FeedError::OutOfMemory) => Err(AllocError),
    }
}

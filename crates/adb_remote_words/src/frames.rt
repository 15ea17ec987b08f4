//! Parsing of an answer in frames: lists, or the packets of a command.

ghost use Rattle.std.specs.Prelude.{◌≡◌, ◌≢◌, [], None, Err, IfOk, OnOk, OnErr};
ghost use Rattle.adb_outside.specs.Framing.{answer_of};
ghost use Rattle.adb_sync_client.specs.declared.step.Step.TheVariants.{More};
ghost use Rattle.adb_remote_words.specs.Meaning.{nothing_told, or_further, unended};
ghost use Rattle.adb_remote_words.specs.Reading.{Gathers, ReadsFrames, fresh_frames};

use crate::remote::{Outcome, Remote};
use crate::step::{is_more, or_fault};
use crate::told::Told;
use adb_outside::{FeedError, Framer};
use adb_remote_frames::{Frame, Place};
use adb_sync_client::Step;
use std::alloc::{AllocError, Global};
use std::marker::Model;

/// The reader of an answer in frames: the contents of the frames so far, and the bytes after them.
#[derive(Drop)]
pub struct Frames {
    alloc: Global,
    framer: Framer<Place, Frame, u64>,
    told: Told,
}

impl Model for Frames {
    ghost use Rattle.adb_remote_words.specs.Held.{HeldFrames};

    ghost Value = { HeldFrames };

    ghost view = { λ f. record { cut = f.framer; told = f.told } };
}

impl Frames {
    /// Makes the reader of frames from a place on, to which nothing was fed. It allocates nothing.
    pub fn new(alloc: Global, place: Place) -> Frames
        ensures { result ≡ fresh_frames place }
    {
        Frames {
            alloc,
            framer: Framer::new(alloc, place),
            told: Told::new(alloc),
        }
    }

    /// Takes the next piece and returns the meaning of all pieces so far. After a decision, and
    /// after an allocation failure, nothing more may be fed.
    pub fn feed(&mut self, job: &Remote, piece: &[u8]) -> Result<Step<Outcome>, AllocError>
        ensures { IfOk result (λ step. self.old.cut.given ≡ [] → self.old.cut.fault ≡ None
            → ReadsFrames job.now self.old piece.now step self.new) }
    {
        let fault = told_fault(self.framer.feed(piece))?;
        let step = self.gather(job)?;
        Ok(or_fault(step, fault))
    }

    /// Takes the frames that are held, up to one that decides.
    fn gather(&mut self, job: &Remote) -> Result<Step<Outcome>, AllocError>
        ensures { IfOk result (λ step. Gathers job.now self.old step self.new) }
    {
        while let Some(frame) = self.framer.next() {
            let step = self.told.take(self.alloc, job, frame)?;
            if !is_more(&step) {
                return Ok(step);
            }
        }
        Ok(Step::More)
    }
}

/// Returns the fault that a framer reported. An allocation failure is no fault.
fn told_fault(answer: Result<(), FeedError<u64>>) -> Result<Option<u64>, AllocError>
    ensures ok { IfOk result (λ fault. (answer ≢ Err FeedError.OutOfMemory)
        × (answer ≡ answer_of FeedError.Fault fault)) }
    ensures err { OnErr result (answer ≡ Err FeedError.OutOfMemory) }
{
    match answer {
        Ok(()) => Ok(None),
        Err(FeedError::Fault(offset)) => Ok(Some(offset)),
        Err(FeedError::OutOfMemory) => Err(AllocError),
    }
}

//! The body of an answer: the bytes after its OKAYs.

ghost use Rattle.std.specs.Prelude.{◌≡◌, ◌++◌, [], List, ℕ, IfOk};
ghost use Rattle.adb_sync_client.specs.declared.step.Step.TheVariants.{More};
ghost use Rattle.adb_sync_client.specs.declared.step.Step.{Step as TheStep};
ghost use Rattle.adb_remote_words.specs.Meaning.{body_step, sync_step};
ghost use Rattle.adb_remote_words.specs.Reading.{BodyStands, HasFed};

use crate::frames::Frames;
use crate::remote::{Outcome, Remote};
use adb_outside::Text;
use adb_remote_frames::{Awaited, Place};
use adb_sync_client::{Pull, Push, Step};
use std::alloc::{AllocError, Global};

/// The reader of an answer's body.
#[derive(Drop)]
pub enum Body {
    /// Lists, or the packets of a command.
    Frames(Frames),
    /// The answer to a SEND.
    Pushing(Push),
    /// The answer to a RECV.
    Pulling(Pull),
}

impl Body {
    /// Makes the reader of the answer to a job, to which nothing was fed.
    pub fn new(alloc: Global, job: &Remote) -> Result<Body, AllocError>
        ensures { IfOk result (λ body. BodyStands job.now [] body) }
    {
        Ok(match job {
            Remote::Devices | Remote::Wait { .. } => Body::Frames(Frames::new(
                alloc,
                Place {
                    awaited: Awaited::List,
                    offset: 4,
                },
            )),
            Remote::Shell { .. } => Body::Frames(Frames::new(
                alloc,
                Place {
                    awaited: Awaited::Packet,
                    offset: 8,
                },
            )),
            Remote::Push { .. } => Body::Pushing(Push::new(alloc, b"", 0, 0, b"")?),
            Remote::Pull { .. } => Body::Pulling(Pull::new(alloc, b"")?),
        })
    }

    /// Takes the next piece and returns the meaning of all pieces so far. After a decision, and
    /// after an allocation failure, nothing more may be fed.
    pub fn feed(&mut self, job: &Remote, piece: &[u8]) -> Result<Step<Outcome>, AllocError>
        ensures { IfOk result (λ step. (fed : List ℕ) → BodyStands job.now fed self.old
            → HasFed job.now (fed ++ piece.now) step self.new) }
    {
        match self {
            Body::Frames(frames) => frames.feed(job, piece),
            Body::Pushing(push) => Ok(pushed(push.feed(piece)?)),
            Body::Pulling(pull) => Ok(pulled(pull.feed_to_end(piece)?)),
        }
    }
}

/// Returns the meaning of the answer to a push, given the meaning of its body.
fn pushed(step: Step<()>) -> Step<Outcome>
    ensures { result ≡ sync_step (λ done. Outcome.Pushed) step }
{
    match step {
        Step::More => Step::More,
        Step::Done(()) => Step::Done(Outcome::Pushed),
        Step::Refused(text) => Step::Refused(text),
        Step::BadAnswer { offset } => Step::BadAnswer {
            offset: offset.saturating_add(8),
        },
    }
}

/// Returns the meaning of the answer to a pull, given the meaning of its body.
fn pulled(step: Step<Text>) -> Step<Outcome>
    ensures { result ≡ sync_step Outcome.Pulled step }
{
    match step {
        Step::More => Step::More,
        Step::Done(bytes) => Step::Done(Outcome::Pulled(bytes)),
        Step::Refused(text) => Step::Refused(text),
        Step::BadAnswer { offset } => Step::BadAnswer {
            offset: offset.saturating_add(8),
        },
    }
}

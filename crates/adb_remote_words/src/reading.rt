//! Parsing of a server's answer, piece by piece.

ghost use Rattle.std.specs.Prelude.{◌≡◌, ◌++◌, [], List, ℕ, IfOk};
ghost use Rattle.adb_sync_client.specs.declared.step.Step.TheVariants.{More};
ghost use Rattle.adb_remote_words.specs.Meaning.{limited_at};
ghost use Rattle.adb_remote_words.specs.Words.{requests};
ghost use Rattle.adb_remote_words.specs.Reading.{Follows, HasRead, Means, ReadingStands};

use crate::body::Body;
use crate::opening::Opening;
use crate::remote::{Outcome, Remote};
use crate::step::is_more;
use adb_sync_client::Step;
use std::alloc::{AllocError, Global};
use std::marker::Model;

/// The maximum number of bytes of an answer that are parsed.
pub const MAX_ANSWER: usize = 536_870_912;

/// The reader of a server's answer to a job. Each byte is parsed once. It holds the bytes that the
/// outcome needs and those of a frame that is not complete.
#[derive(Drop)]
pub struct Reading {
    opening: Opening,
    body: Body,
    count: usize,
}

impl Model for Reading {
    ghost use Rattle.adb_remote_words.specs.Reading.{HeldAnswer};

    ghost Value = { HeldAnswer };

    ghost view = { λ r. record { opening = r.opening; body = r.body; count = r.count } };
}

impl Reading {
    /// Makes the reader of the answer to a job, to which nothing was fed.
    pub fn new(alloc: Global, job: &Remote) -> Result<Reading, AllocError>
        ensures { IfOk result (λ new. ReadingStands job.now [] new) }
    {
        Ok(Reading {
            opening: Opening::new(alloc, requests(job)),
            body: Body::new(alloc, job)?,
            count: 0,
        })
    }

    /// Returns how many OKAYs came. After each of them the next words are due.
    pub fn okays(&self) -> u8
        ensures { result ≡ self.now.opening.okays }
    {
        self.opening.okays()
    }

    /// Returns how many bytes were read, as long as they decided nothing.
    pub fn count(&self) -> usize
        ensures { result ≡ self.now.count }
    {
        self.count
    }

    /// Takes the next piece, of any length, and returns the meaning of all pieces so far. After a
    /// decision, and after an allocation failure, nothing more may be fed.
    pub fn feed(&mut self, job: &Remote, piece: &[u8]) -> Result<Step<Outcome>, AllocError>
        ensures { IfOk result (λ step. (fed : List ℕ) → ReadingStands job.now fed self.old
            → HasRead job.now (fed ++ piece.now) step self.new) }
    {
        let room = MAX_ANSWER.saturating_sub(self.count);
        let n = room.min(piece.len());
        let step = self.feed_within(job, &piece[..n])?;
        self.count = self.count.saturating_add(n);
        Ok(limited(step, n < piece.len()))
    }

    /// Takes the next piece, within the bytes that are parsed.
    fn feed_within(&mut self, job: &Remote, piece: &[u8]) -> Result<Step<Outcome>, AllocError>
        ensures read { IfOk result (λ step. (fed : List ℕ)
            → Means job.now fed self.old.opening self.old.body
            → Follows job.now (fed ++ piece.now) step self.new.opening self.new.body) }
        ensures count { self.new.count ≡ self.old.count }
    {
        if !self.opening.is_open() {
            return self.body.feed(job, piece);
        }
        match self.opening.feed(piece)? {
            Step::More => Ok(Step::More),
            Step::Done(()) => self.body.feed(job, self.opening.held()),
            Step::Refused(text) => Ok(Step::Refused(text)),
            Step::BadAnswer { offset } => Ok(Step::BadAnswer { offset }),
        }
    }
}

/// Returns how many requests a job makes. Each of them is answered with an OKAY.
fn requests(job: &Remote) -> u8
    ensures { result ≡ requests job.now }
{
    match job {
        Remote::Devices | Remote::Wait { .. } => 1,
        Remote::Push { .. } | Remote::Pull { .. } | Remote::Shell { .. } => 2,
    }
}

/// Returns the meaning of bytes. If `is_past`, a further byte lies past the maximum length of an
/// answer.
fn limited(step: Step<Outcome>, is_past: bool) -> Step<Outcome>
    ensures { result ≡ limited_at is_past step }
{
    if is_past && is_more(&step) {
        return Step::BadAnswer {
            offset: MAX_ANSWER as u64,
        };
    }
    step
}

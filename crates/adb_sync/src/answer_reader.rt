//! The answers of a stream that comes in pieces.

ghost use Rattle.std.specs.Prelude.{◌≡◌, ◌≢◌, []};
ghost use Rattle.adb_outside.specs.Framing.{Takes, Gives, answer_of};
ghost use Rattle.adb_sync.specs.declared.error.SyncFault.{SyncFault};
ghost use Rattle.adb_sync.specs.Messages.{error_of};
ghost use Rattle.adb_sync.specs.Answers.{StandsForAnswers, answer_front, answer_of_bytes};
ghost use Rattle.adb_sync.specs.Answers.{past_answer};

use crate::answer::SyncAnswer;
use crate::answer_format::AnswerFormat;
use crate::error::{SyncError, SyncFault};
use adb_outside::Framer;
use std::alloc::Global;
use std::marker::Model;

/// A reader of the answers of a stream that comes in any pieces, for the client of the service. It
/// holds the bytes past the last whole answer and the answers that were not taken yet, never the
/// whole stream.
#[derive(Drop)]
pub struct AnswerReader {
    framer: Framer<AnswerFormat, SyncAnswer, SyncFault>,
}

impl Model for AnswerReader {
    ghost use Rattle.adb_sync.specs.Answers.{AnswerReading};

    ghost Value = { AnswerReading };

    ghost view = { λ r. r.framer };
}

impl AnswerReader {
    /// Returns a reader to which nothing was fed. `list` says whether the answers are those to a
    /// LIST, which has a longer DONE. Allocates nothing.
    pub fn new(alloc: Global, list: bool) -> AnswerReader
        ensures { StandsForAnswers list [] [] result }
    {
        AnswerReader {
            framer: Framer::new(alloc, AnswerFormat { offset: 0, list }),
        }
    }

    /// Takes the next piece of the stream, of any length.
    ///
    /// `OutOfMemory`: an allocation failed; nothing changed. Every other error is the first fault
    /// of all the bytes fed so far: an id that no answer has, once its four bytes are there, or a
    /// DATA that is too long, once its length is there. The answers before it can still be taken
    /// with `next`; every later call takes nothing and returns that fault.
    pub fn feed(&mut self, piece: &[u8]) -> Result<(), SyncError>
        ensures memory { result ≡ Err SyncError.OutOfMemory → self.new ≡ self.old }
        ensures taken { result ≢ Err SyncError.OutOfMemory
            → Takes answer_front answer_of_bytes past_answer self.old piece.now self.new }
        ensures answer { result ≢ Err SyncError.OutOfMemory
            → result ≡ answer_of error_of self.new.fault }
        ensures stays { (fault : SyncFault) → self.old.fault ≡ Some fault
            → result ≡ Err (error_of fault) }
    {
        Ok(self.framer.feed(piece)?)
    }

    /// Takes the next answer. Returns `None` if no further whole answer was fed. Allocates nothing.
    pub fn next(&mut self) -> Option<SyncAnswer>
        ensures { Gives answer_front answer_of_bytes past_answer self.old self.new result }
    {
        self.framer.next()
    }
}

//! The framing of a stream of answers.

use crate::answer::SyncAnswer;
use crate::answer_bodies::{dent_of, stat_of, text_of};
use crate::answer_id::AnswerId;
use crate::error::{SyncFault, SyncRule};
use crate::layout::{Layout, WORD_BYTES, front_behind};
use adb_outside::{Format, Front};
use std::alloc::{AllocError, Global};

/// The format of answers, the first of which begins at an offset of the stream, to a LIST or to
/// other requests.
#[derive(Clone, Copy)]
pub struct AnswerFormat {
    pub offset: u64,
    pub list: bool,
}

impl AnswerFormat {
    ghost use Rattle.std.specs.Prelude.{◌≡◌, IfOk};
    ghost use Rattle.adb_sync.specs.Messages.{HasHead};
    ghost use Rattle.adb_sync.specs.Answers.{answered_at};

    /// Returns the layout after an id, or the rule that the id breaks.
    fn layout(&self, id: &[u8]) -> Result<Layout, SyncRule>
        ensures value { result ≡ answered_at self.now id.now }
        ensures head { IfOk result HasHead }
    {
        match AnswerId::of(id) {
            Some(id) => Ok(id.layout(self.list)),
            None => Err(SyncRule::UnknownId),
        }
    }
}

impl Format<SyncAnswer, SyncFault> for AnswerFormat {
    ghost use Rattle.std.specs.Prelude.{◌≡◌, ℕ, IfOk};
    ghost use Rattle.adb_sync.specs.Answers.{answer_front, answer_of_bytes, past_answer};
    ghost use Rattle.adb_sync.specs.Framed.{answers_are_framed};

    ghost find = { answer_front };

    ghost item = { answer_of_bytes };

    ghost after = { past_answer };

    ghost framing = { answers_are_framed };

    fn front(&self, bytes: &[u8]) -> Front<SyncFault> {
        if bytes.len() < WORD_BYTES {
            return Front::More;
        }
        let (id, rest) = bytes.split_at(WORD_BYTES);
        front_behind(self.offset, self.layout(id), rest)
    }

    fn read(&self, alloc: Global, frame: &[u8]) -> Result<SyncAnswer, AllocError> {
        let (id, rest) = frame.split_at(WORD_BYTES);
        match AnswerId::of(id) {
            Some(AnswerId::Stat) => Ok(stat_of(rest)),
            Some(AnswerId::Dent) => dent_of(alloc, rest),
            Some(AnswerId::Data) => Ok(SyncAnswer::Chunk(text_of(alloc, rest)?)),
            Some(AnswerId::Done) if self.list => Ok(SyncAnswer::ListEnd),
            Some(AnswerId::Done) => Ok(SyncAnswer::ChunkEnd),
            Some(AnswerId::Fail) => Ok(SyncAnswer::Fail(text_of(alloc, rest)?)),
            Some(AnswerId::Okay) | None => Ok(SyncAnswer::Okay),
        }
    }

    fn past(&self, frame: &[u8]) -> AnswerFormat {
        AnswerFormat {
            offset: self.offset.saturating_add(frame.len() as u64),
            list: self.list,
        }
    }
}

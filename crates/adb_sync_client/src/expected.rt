//! The framing of a stream of expected answers.

use crate::kind::AnswerKind;
use adb_outside::{Format, Front};
use adb_sync::{AnswerFormat, SyncAnswer};
use std::alloc::{AllocError, Global};

/// The format of answers of a kind, the first of which begins at an offset of the stream. A fault
/// is the offset of the first byte that breaks the grammar.
#[derive(Clone, Copy)]
pub struct Expected {
    pub kind: AnswerKind,
    pub answers: AnswerFormat,
}

impl Expected {
    ghost use Rattle.std.specs.Prelude.{◌≡◌};
    ghost use Rattle.adb_sync_client.specs.Expected.{expected_start};

    /// Returns the format of the answer to a request, from its first byte.
    pub fn to(kind: AnswerKind) -> Expected
        ensures { result ≡ expected_start kind }
    {
        let list = matches!(kind, AnswerKind::List);
        Expected {
            kind,
            answers: AnswerFormat { offset: 0, list },
        }
    }
}

impl Format<SyncAnswer, u64> for Expected {
    ghost use Rattle.std.specs.Prelude.{◌≡◌, List, ℕ};
    ghost use Rattle.adb_sync_client.specs.Expected.{expected_front, expected_answer};
    ghost use Rattle.adb_sync_client.specs.Expected.{past_expected};
    ghost use Rattle.adb_sync_client.specs.Framed.{expected_are_framed};

    ghost find = { expected_front };

    ghost item = { expected_answer };

    ghost after = { past_expected };

    ghost framing = { expected_are_framed };

    fn front(&self, bytes: &[u8]) -> Front<u64> {
        if let Some(place) = self.kind.stray(bytes) {
            return Front::Bad(self.answers.offset.saturating_add(place as u64));
        }
        match self.answers.front(bytes) {
            Front::Whole(size) => Front::Whole(size),
            Front::More | Front::Bad(_) => Front::More,
        }
    }

    fn read(&self, alloc: Global, frame: &[u8]) -> Result<SyncAnswer, AllocError> {
        self.answers.read(alloc, frame)
    }

    fn past(&self, frame: &[u8]) -> Expected {
        Expected {
            kind: self.kind,
            answers: self.answers.past(frame),
        }
    }
}

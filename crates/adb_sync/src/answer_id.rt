//! The ids of answers.

ghost use Rattle.std.specs.Prelude.{◌≡◌};
ghost use Rattle.adb_sync.specs.Messages.{HasHead};
ghost use Rattle.adb_sync.specs.Answers.{answer_id_of, answer_layout};

use crate::layout::{Layout, Limit};

/// The four letters that an answer begins with.
#[derive(Clone, Copy, Debug, PartialEq, Eq)]
pub enum AnswerId {
    Stat,
    Dent,
    Data,
    Done,
    Okay,
    Fail,
}

impl AnswerId {
    /// Returns the id that four bytes are, if they are one.
    pub fn of(bytes: &[u8]) -> Option<AnswerId>
        ensures { result ≡ answer_id_of bytes.now }
    {
        if bytes == b"STAT".as_slice() {
            Some(AnswerId::Stat)
        } else if bytes == b"DENT".as_slice() {
            Some(AnswerId::Dent)
        } else if bytes == b"DATA".as_slice() {
            Some(AnswerId::Data)
        } else if bytes == b"DONE".as_slice() {
            Some(AnswerId::Done)
        } else if bytes == b"OKAY".as_slice() {
            Some(AnswerId::Okay)
        } else if bytes == b"FAIL".as_slice() {
            Some(AnswerId::Fail)
        } else {
            None
        }
    }

    /// Returns the layout of the bytes after the id, in an answer to a LIST or in another.
    pub fn layout(self, list: bool) -> Layout
        ensures value { result ≡ answer_layout list self }
        ensures head { HasHead result }
    {
        match self {
            AnswerId::Stat => Layout::numbers(3),
            AnswerId::Dent => Layout::text(4, None),
            AnswerId::Data => Layout::text(1, Some(Limit::of_chunk())),
            AnswerId::Done if list => Layout::numbers(4),
            AnswerId::Done | AnswerId::Okay => Layout::numbers(1),
            AnswerId::Fail => Layout::text(1, None),
        }
    }
}

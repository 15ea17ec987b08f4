//! The answer to a session.

ghost use Rattle.std.specs.Prelude.{◌≡◌, drop};
ghost use Rattle.adb_world.specs.declared.session.TheConstants.{REPLIES};

use crate::session::{REPLIES, behind_replies};
use adb_outside::Text;
use std::marker::Model;

/// The bytes that a session was handed after the replies to its two requests. Contracts see those
/// bytes.
#[derive(Drop)]
pub struct Answer {
    got: Text,
}

impl Model for Answer {
    ghost use Rattle.std.specs.Prelude.{List, ℕ, drop};
    ghost use Rattle.adb_world.specs.declared.session.TheConstants.{REPLIES};

    ghost Value = { List ℕ };

    ghost view = { λ answer. drop REPLIES answer.got };
}

impl Answer {
    /// Makes the answer from all bytes that a session was handed. It allocates nothing.
    pub(crate) fn new(got: Text) -> Answer
        ensures { result ≡ drop REPLIES got }
    {
        Answer { got }
    }

    /// Returns the bytes.
    pub fn as_slice(&self) -> &[u8]
        ensures { result.now ≡ self.now }
    {
        behind_replies(self.got.as_slice())
    }

    /// Returns the bytes as a text. It moves them to the beginning of their memory, and allocates
    /// nothing.
    pub fn into_text(self) -> Text
        ensures { result ≡ self }
    {
        let mut bytes = self.got.into_vec();
        let n = REPLIES.min(bytes.len());
        bytes.drain(..n);
        Text::from_vec(bytes)
    }
}

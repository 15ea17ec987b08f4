//! The layout of the bytes after an id, and how a prefix of them is read.

ghost use Rattle.std.specs.Prelude.{◌≡◌, ◌≤◌, ◌*◌, Ok, Result, IfOk, length};
ghost use Rattle.adb_sync.specs.Messages.{HasHead, numbers, text, limit_fault, body_len, body_fault, front_past_id};

use crate::comma::last_comma_of;
use crate::error::{SyncFault, SyncRule};
use adb_outside::Front;
use byteorder::{ByteOrder, LittleEndian};

/// The number of bytes of an id, and of a number.
pub const WORD_BYTES: usize = 4;

/// The maximum number of bytes of a path; in a SEND its comma and mode are included.
pub const MAX_PATH: u32 = 1024;

/// The maximum number of bytes of a DATA.
pub const MAX_CHUNK: u32 = 65_536;

/// The maximum of a number.
#[derive(Clone, Copy)]
pub struct Limit {
    pub most: u32,
    /// The rule that a larger number breaks.
    pub rule: SyncRule,
}

impl Limit {
    /// Returns the limit of a path's length.
    pub fn of_path() -> Limit
        ensures { result ≡ record { most = MAX_PATH; rule = SyncRule.PathTooLong } }
    {
        Limit {
            most: MAX_PATH,
            rule: SyncRule::PathTooLong,
        }
    }

    /// Returns the limit of a chunk's length.
    pub fn of_chunk() -> Limit
        ensures { result ≡ record { most = MAX_CHUNK; rule = SyncRule.ChunkTooLong } }
    {
        Limit {
            most: MAX_CHUNK,
            rule: SyncRule::ChunkTooLong,
        }
    }
}

/// The layout of the bytes after an id: numbers, and possibly a body. The last number is the length
/// of the body.
#[derive(Clone, Copy)]
pub struct Layout {
    /// The number of bytes of all the numbers.
    pub head: usize,
    /// The limit of the last number.
    pub limit: Option<Limit>,
    /// Whether the last number counts the bytes of a body.
    pub counted: bool,
    /// Whether the body needs a comma.
    pub comma: bool,
}

impl Layout {
    /// Returns the layout of `count` numbers and no body.
    pub fn numbers(count: usize) -> Layout
        requires { count ≤ 4 }
        ensures { result ≡ numbers count }
    {
        Layout {
            head: count * WORD_BYTES,
            limit: None,
            counted: false,
            comma: false,
        }
    }

    /// Returns the layout of `count` numbers and a text. The last number is the length of the text.
    pub fn text(count: usize, limit: Option<Limit>) -> Layout
        requires { count ≤ 4 }
        ensures { result ≡ text count limit }
    {
        Layout {
            head: count * WORD_BYTES,
            limit,
            counted: true,
            comma: false,
        }
    }

    /// Returns the rule that a number breaks, if any.
    fn number_fault(&self, number: u32) -> Option<SyncRule>
        ensures { result ≡ limit_fault self.now.limit number }
    {
        match self.limit {
            Some(limit) if number > limit.most => Some(limit.rule),
            _ => None,
        }
    }

    /// Returns how many bytes the body has.
    fn body_bytes(&self, number: u32) -> usize
        ensures { result ≡ body_len self.now number }
    {
        if self.counted { number as usize } else { 0 }
    }

    /// Returns the rule that a body breaks, if any.
    fn body_fault(&self, body: &[u8]) -> Option<SyncRule>
        ensures { result ≡ body_fault self.now body.now }
    {
        if self.comma && last_comma_of(body).is_none() {
            Some(SyncRule::BadSend)
        } else {
            None
        }
    }

    /// Returns what the bytes after an id begin with, in a message at an offset of the stream.
    fn front(&self, offset: u64, rest: &[u8]) -> Front<SyncFault>
        requires { HasHead self.now }
        ensures { result ≡ front_past_id offset (Ok self.now) rest.now }
    {
        if rest.len() < self.head {
            return Front::More;
        }
        let (_, last) = rest.split_at(self.head - WORD_BYTES);
        let number = LittleEndian::read_u32(last);
        if let Some(rule) = self.number_fault(number) {
            return Front::Bad(SyncFault { offset, rule });
        }
        let (_, rest) = rest.split_at(self.head);
        let length = self.body_bytes(number);
        if rest.len() < length {
            return Front::More;
        }
        match self.body_fault(&rest[..length]) {
            Some(rule) => Front::Bad(SyncFault { offset, rule }),
            None => Front::Whole(WORD_BYTES + self.head + length),
        }
    }
}

/// Returns what the bytes after an id begin with, for this layout, or the fault if the id breaks a
/// rule.
pub fn front_behind(offset: u64, layout: Result<Layout, SyncRule>, rest: &[u8]) -> Front<SyncFault>
    requires { IfOk layout HasHead }
    ensures { result ≡ front_past_id offset layout rest.now }
{
    match layout {
        Ok(layout) => layout.front(offset, rest),
        Err(rule) => Front::Bad(SyncFault { offset, rule }),
    }
}

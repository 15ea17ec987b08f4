//! The state of the answer to a request.

use adb_outside::Text;

/// The meaning of the answer bytes that were fed. Unless it is `More`, the bytes that follow do not
/// change it.
#[derive(Drop)]
pub enum Step<V: Drop> {
    /// The answer is not whole yet.
    More,
    /// The answer is whole.
    Done(V),
    /// The answer is a FAIL with this text.
    Refused(Text),
    /// No answer to the request can follow the byte at this offset, the first such byte; an offset
    /// past 2^64 - 1 stays there.
    BadAnswer { offset: u64 },
}

/// The attributes of a path: mode and time as in `stat(2)`; all three are 0 if nothing is there.
#[derive(Clone, Copy, Debug, PartialEq, Eq, Drop)]
pub struct StatValue {
    pub mode: u32,
    pub size: u32,
    pub mtime: u32,
}

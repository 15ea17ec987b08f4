//! The meaning of a line of a script.

use crate::word::Word;

/// The maximum number of decimal digits of a count.
pub const COUNT_DIGITS: usize = 8;

/// The maximum number of bytes that a line may push.
pub const MAX_PUSHED: u32 = 16_777_216;

/// The maximum number of streams of an echo.
pub const MAX_ECHO_STREAMS: u32 = 64;

/// The maximum number of bytes that the streams of an echo may send together.
pub const MAX_ECHOED: u32 = 67_108_864;

/// The request of one session.
#[derive(Drop)]
pub enum SessionLine<'a> {
    /// Push `size` bytes to a path.
    Push { path: Word<'a>, size: u32 },
    /// Pull the file at a path.
    Pull { path: Word<'a> },
    /// Report what a path names.
    Stat { path: Word<'a> },
    /// List the entries of a directory.
    List { path: Word<'a> },
    /// Run a command.
    Shell { command: Word<'a> },
}

/// Concurrent streams, each of which sends `size` bytes and receives them.
#[derive(Clone, Copy, Drop)]
pub struct EchoLine {
    pub streams: u32,
    pub size: u32,
}

/// A line of a script.
#[derive(Drop)]
pub enum ScriptLine<'a> {
    /// The line has one session.
    Session(SessionLine<'a>),
    /// The line has a session for each of its streams.
    Echo(EchoLine),
}

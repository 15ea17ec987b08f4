//! The commands that a command line can name.

ghost use Rattle.std.specs.Prelude.{◌≡◌};

use adb_outside::MAX_ASKED;
use std::alloc::AllocError;

/// The maximum number of streams of a load.
pub const MAX_STREAMS: u16 = 10_000;

/// The maximum number of digits of a number.
pub const MAX_DIGITS: usize = 20;

/// The default port of a server.
pub const DEFAULT_PORT: u16 = 5037;

/// The maximum number of devices that the words of `serve` may name.
pub const MAX_SERVED: usize = 16;

/// The maximum number of bytes of the path or the command that a tool is given.
pub const MAX_OPERAND: usize = MAX_ASKED;

/// States the values of these constants for the definitions that import them.
pub fn limits_are()
    ensures streams { MAX_STREAMS ≡ 10000 }
    ensures digits { MAX_DIGITS ≡ 20 }
    ensures port { DEFAULT_PORT ≡ 5037 }
    ensures devices { MAX_SERVED ≡ 16 }
    ensures operand { MAX_OPERAND ≡ 1000 }
{}

/// A command with its arguments.
#[derive(Clone, Copy, Debug, PartialEq, Eq, Drop)]
pub enum Command {
    /// Reads a capture and writes its history.
    Replay,
    /// Reads a history and judges it.
    Check,
    /// Generates a load of this many streams from this seed.
    Gen { seed: u64, streams: u16 },
    /// Reads a script and answers it. Its choices are drawn from this seed.
    Local { seed: u64 },
    /// Copies a tree of files. The choices of the copying are drawn from this seed.
    Copy { seed: u64 },
}

/// The reason why words give no command.
#[derive(Clone, Copy, Debug, PartialEq, Eq, Drop)]
pub enum WordsError {
    /// The words are no command.
    Usage,
    /// An allocation failed.
    OutOfMemory,
}

impl From<AllocError> for WordsError {
    ghost use Rattle.std.specs.Prelude.{◌≡◌};
    ghost use Rattle.adb_words.specs.declared.command.WordsError.TheVariants.{OutOfMemory};

    ghost from_gives = { λ _ e. e ≡ OutOfMemory };

    fn from(_: AllocError) -> WordsError {
        WordsError::OutOfMemory
    }
}

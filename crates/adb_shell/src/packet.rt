//! Packets and their faults.

ghost use Rattle.adb_shell.specs.Packets.{error_of, failure_of};

use adb_outside::{FeedError, Text};

/// A packet of the shell protocol. Its id determines the meaning of its bytes: 0 is the command's
/// input, 1 its output, 2 its error output, 3 its exit status in one byte, 4 the end of its input,
/// 5 the size of the window.
#[derive(Drop)]
pub struct ShellPacket {
    pub id: u8,
    pub bytes: Text,
}

/// The reason why a stream is no stream of packets from some place on. An offset is that of the
/// packet's first byte, counted from the first byte of the stream; past 2^64 - 1 it stays there.
#[derive(Clone, Copy, Debug, PartialEq, Eq, Drop)]
pub enum ShellFault {
    /// The id of a packet is above 5.
    BadId { offset: u64, id: u8 },
    /// The length in a packet is above 1,048,576 bytes.
    TooLong { offset: u64, length: u32 },
}

/// The reason why bytes were not taken.
#[derive(Clone, Copy, Debug, PartialEq, Eq, Drop)]
pub enum ShellError {
    /// An allocation failed. Nothing changed.
    OutOfMemory,
    /// The id of a packet is above 5.
    BadId { offset: u64, id: u8 },
    /// The length in a packet is above 1,048,576 bytes.
    TooLong { offset: u64, length: u32 },
}

impl From<ShellFault> for ShellError {
    ghost use Rattle.std.specs.Prelude.{◌≡◌};

    ghost from_gives = { λ fault error. error ≡ error_of fault };

    fn from(fault: ShellFault) -> ShellError {
        match fault {
            ShellFault::BadId { offset, id } => ShellError::BadId { offset, id },
            ShellFault::TooLong { offset, length } => ShellError::TooLong { offset, length },
        }
    }
}

impl From<FeedError<ShellFault>> for ShellError {
    ghost use Rattle.std.specs.Prelude.{◌≡◌};

    ghost from_gives = { λ failure error. error ≡ failure_of failure };

    fn from(failure: FeedError<ShellFault>) -> ShellError {
        match failure {
            FeedError::OutOfMemory => ShellError::OutOfMemory,
            FeedError::Fault(fault) => fault.into(),
        }
    }
}

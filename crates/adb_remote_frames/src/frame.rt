//! The contents of whole frames.

use adb_outside::Text;

/// The id of a packet of a command's standard output.
pub const STDOUT: u8 = 1;

/// The id of a packet of a command's standard error.
pub const STDERR: u8 = 2;

/// The id of the packet with a command's exit status.
pub const EXIT: u8 = 3;

/// The content of a whole frame.
#[derive(Drop)]
pub enum Frame {
    /// The reason why a request was refused.
    Fail(Text),
    /// A list of devices.
    List(Text),
    /// A packet of a command: its output, its error output, or its exit status in one byte.
    Packet { id: u8, bytes: Text },
}

//! The ends of a client tool.

ghost use Rattle.std.specs.Prelude.{◌≡◌};
ghost use Rattle.adb_asking.specs.Ends.{end_of};

use adb_outside::Text;
use adb_remote::RemoteError;

/// The way in which a client tool ended.
#[derive(Drop)]
pub enum ToolEnd {
    /// The server's answer was written.
    Done,
    /// The words are no call of a tool.
    Usage,
    /// The source failed.
    ReadFault,
    /// The sink or the note failed.
    WriteFault,
    /// An allocation failed.
    OutOfMemory,
    /// The server or the device refused with this text.
    Refused(Text),
    /// The server's answer is not valid, from this byte on.
    BadAnswer { offset: u64 },
    /// Connecting to the port failed, or a read or a write of the connection failed.
    PortFault,
    /// The input is larger than a tool sends.
    TooLarge,
}

/// Returns the end of a tool without an outcome.
pub fn end_of(error: RemoteError) -> ToolEnd
    ensures { result ≡ end_of error }
{
    match error {
        RemoteError::Refused(text) => ToolEnd::Refused(text),
        RemoteError::BadAnswer { offset } => ToolEnd::BadAnswer { offset },
        RemoteError::PortFault => ToolEnd::PortFault,
        RemoteError::OutOfMemory => ToolEnd::OutOfMemory,
    }
}

//! Writing of bytes to a port.

ghost use Rattle.std.specs.Prelude.{◌≡◌, Ok, Err};
ghost use Rattle.adb_remote.specs.Sending.{Sends, remote_error, seen};

use adb_connections::PortOut;
use adb_outside::Wrote;
use adb_remote_words::RemoteError;
use std::alloc::AllocError;

/// The reason why not all bytes were written.
#[derive(Clone, Copy, Debug, PartialEq, Eq, Drop)]
pub enum SendError {
    /// A write failed.
    PortFault,
    /// An allocation failed.
    OutOfMemory,
}

impl From<AllocError> for SendError {
    ghost use Rattle.std.specs.Prelude.{◌≡◌};
    ghost use Rattle.adb_remote.specs.declared.sending.SendError.TheVariants.{OutOfMemory};

    ghost from_gives = { λ _ error. error ≡ OutOfMemory };

    fn from(_: AllocError) -> SendError {
        SendError::OutOfMemory
    }
}

/// Converts the error to that of a conversation.
pub fn remote_error(error: SendError) -> RemoteError
    ensures { result ≡ remote_error error }
{
    match error {
        SendError::PortFault => RemoteError::PortFault,
        SendError::OutOfMemory => RemoteError::OutOfMemory,
    }
}

/// Writes bytes, if there are any.
pub fn send<O: PortOut>(output: &mut O, bytes: &[u8]) -> Result<(), SendError>
    ensures { Sends O.steady (seen O.faults O.written O.closed) bytes.now output.old output.new
        result }
{
    if bytes.is_empty() {
        return Ok(());
    }
    match output.write(bytes) {
        Wrote::All => Ok(()),
        Wrote::Failed { .. } => Err(SendError::PortFault),
    }
}

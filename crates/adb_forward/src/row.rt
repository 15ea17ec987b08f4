//! One forward, and the reasons why one may be refused.

ghost use Rattle.adb_forward.specs.declared.row.ForwardError.TheVariants.{OutOfMemory};
ghost use Rattle.std.specs.Prelude.{◌≡◌};

use adb_outside::Text;
use std::alloc::{AllocError, AllocFailed};

/// A forward: a connection to the local port goes to the service `remote` of the device of that
/// transport.
#[derive(Drop)]
pub struct ForwardRow {
    /// The local TCP port, which is not 0.
    pub local: u16,
    /// The id of the device's transport.
    pub transport: u32,
    /// The serial of the device, at most 64 bytes.
    pub serial: Text,
    /// The service that is requested from the device, 1 to 512 bytes of 0x21 to 0x7e.
    pub remote: Text,
}

/// The reason why a forward was not put into the table, which is unchanged then.
#[derive(Clone, Copy, Debug, PartialEq, Eq, Drop)]
pub enum ForwardError {
    /// The local port is 0, or the remote end is not 1 to 512 bytes of 0x21 to 0x7e.
    BadSpec,
    /// The local port has a row, and the request asked not to replace it.
    Exists,
    /// The local port has no row, and the table is full.
    Full,
    OutOfMemory,
}

impl From<AllocError> for ForwardError {
    ghost from_gives = { λ _ error. error ≡ OutOfMemory };

    fn from(_error: AllocError) -> ForwardError {
        ForwardError::OutOfMemory
    }
}

impl<T: Drop> From<AllocFailed<T>> for ForwardError {
    ghost from_gives = { λ _ error. error ≡ OutOfMemory };

    fn from(_error: AllocFailed<T>) -> ForwardError {
        ForwardError::OutOfMemory
    }
}

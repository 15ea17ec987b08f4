//! The errors of a model device.

ghost use Rattle.std.specs.Prelude.{◌≡◌};
ghost use Rattle.adb_daemon.specs.declared.error.DaemonError.TheVariants.{OutOfMemory};

use adb_wire::WireError;
use std::alloc::AllocError;

/// The reason why a piece was not taken, or not to its end.
#[derive(Clone, Copy, Debug, PartialEq, Eq, Drop)]
pub enum DaemonError {
    /// An allocation failed. The device is spent.
    OutOfMemory,
    /// A packet is wrong. The packets before it were handled.
    Broken(WireError),
    /// The host's CNXN is refused. The packets before it were handled.
    BadCnxn,
}

impl From<AllocError> for DaemonError {
    ghost from_gives = { λ _ error. error ≡ OutOfMemory };

    fn from(_error: AllocError) -> DaemonError {
        DaemonError::OutOfMemory
    }
}

//! The reasons why a call makes no entry.

use adb_registry::AttachError;
use std::alloc::AllocError;

/// The reason why a call makes no entry. The hub is unchanged then.
#[derive(Clone, Copy, Debug, PartialEq, Eq, Drop)]
pub enum HubError {
    /// A kill was requested: only the output queue is still handed out.
    Stopped,
    /// No client ever had that number.
    NoClient(u32),
    /// No link ever had that number.
    NoLink(u32),
    /// All numbers are used.
    Numbers,
    /// The maximum number of devices is plugged in.
    Full,
    /// The serial is not 1 to 64 bytes of 0x21 to 0x7e.
    BadSerial,
    OutOfMemory,
}

impl From<AllocError> for HubError {
    ghost use Rattle.std.specs.Prelude.{◌≡◌};
    ghost use Rattle.adb_hub.specs.declared.error.HubError.TheVariants.{OutOfMemory};

    ghost from_gives = { λ _ e. e ≡ OutOfMemory };

    fn from(_error: AllocError) -> HubError {
        HubError::OutOfMemory
    }
}

impl From<AttachError> for HubError {
    ghost use Rattle.std.specs.Prelude.{◌≡◌};
    ghost use Rattle.adb_hub.specs.Refusal.{attach_error};

    ghost from_gives = { λ why e. e ≡ attach_error why };

    fn from(why: AttachError) -> HubError {
        match why {
            AttachError::Numbers => HubError::Numbers,
            AttachError::Full => HubError::Full,
            AttachError::BadSerial => HubError::BadSerial,
            AttachError::OutOfMemory => HubError::OutOfMemory,
        }
    }
}

//! The reasons why a replay stops before the end of its capture.

ghost use Rattle.std.specs.Prelude.{◌≡◌};
ghost use Rattle.adb_replay.specs.Stop.{stop_at};

use adb_capture::CaptureError;
use adb_entries::Refused;
use adb_history::Refusal;
use std::alloc::AllocError;

/// The reason why a replay stops before the end of its capture.
#[derive(Clone, Copy, Debug, PartialEq, Eq, Drop)]
pub enum Stop {
    /// A read of the source failed.
    ReadFault,
    /// A write to the sink failed.
    WriteFault,
    /// An allocation failed.
    OutOfMemory,
    /// The capture is refused.
    Refused(Refusal),
}

impl Stop {
    /// Returns the reason why a replay stops at the record of that offset. The record's entry is
    /// not made.
    pub fn at(offset: u64, why: Refused) -> Stop
        ensures { result ≡ stop_at offset why }
    {
        match why {
            Refused::Because(reason) => Stop::Refused(Refusal { offset, reason }),
            Refused::OutOfMemory => Stop::OutOfMemory,
        }
    }
}

impl From<AllocError> for Stop {
    ghost use Rattle.std.specs.Prelude.{◌≡◌};
    ghost use Rattle.adb_replay.specs.declared.stop.Stop.TheVariants.{OutOfMemory};

    ghost from_gives = { λ _ e. e ≡ OutOfMemory };

    fn from(_error: AllocError) -> Stop {
        Stop::OutOfMemory
    }
}

impl From<CaptureError> for Stop {
    ghost use Rattle.std.specs.Prelude.{◌≡◌};
    ghost use Rattle.adb_replay.specs.Stop.{stop_of};

    ghost from_gives = { λ why e. e ≡ stop_of why };

    fn from(error: CaptureError) -> Stop {
        match Refusal::by(error) {
            Some(refusal) => Stop::Refused(refusal),
            None if error == CaptureError::ReadFault => Stop::ReadFault,
            None => Stop::OutOfMemory,
        }
    }
}

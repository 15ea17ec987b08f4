//! The reasons why an entry is not made.

use adb_history::Reason;
use adb_hub::HubError;

/// The reason why an entry is not made.
#[derive(Clone, Copy, Debug, PartialEq, Eq, Drop)]
pub enum Refused {
    /// The entry's record is refused.
    Because(Reason),
    /// An allocation failed. The hub is unchanged.
    OutOfMemory,
}

impl From<HubError> for Refused {
    ghost use Rattle.std.specs.Prelude.{◌≡◌};
    ghost use Rattle.adb_entries.specs.Refused.{refused_by};

    ghost from_gives = { λ why e. e ≡ refused_by why };

    fn from(why: HubError) -> Refused {
        match why {
            HubError::Full => Refused::Because(Reason::TooManyDevices),
            HubError::BadSerial => Refused::Because(Reason::BadSerial),
            HubError::OutOfMemory => Refused::OutOfMemory,
            HubError::Stopped | HubError::NoClient(_) | HubError::NoLink(_) | HubError::Numbers => {
                Refused::Because(Reason::NotDrawn)
            }
        }
    }
}

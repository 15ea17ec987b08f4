//! The answers that are marked: those after which a worker may stop.

ghost use Rattle.std.specs.Prelude.{◌≡◌};
ghost use Rattle.adb_server_log.specs.Marked.{is_marked, marks_error};
ghost use Rattle.adb_server_log.specs.Marked.{marks_handed, marks_room};

use crate::error::DeskError;
use adb_hub::{Handed, HubError, Room};

/// Returns whether a refusal is marked. Every refusal is, except an allocation failure, a bad
/// serial, a piece that does not fit now, and a number that was never drawn.
pub fn is_marked(error: &DeskError) -> bool
    ensures { result ≡ is_marked error.now }
{
    match error {
        DeskError::Halted
        | DeskError::RecordFault
        | DeskError::Hub(HubError::Stopped)
        | DeskError::Hub(HubError::Numbers)
        | DeskError::Hub(HubError::Full) => true,
        DeskError::Later
        | DeskError::Hub(HubError::NoClient(_))
        | DeskError::Hub(HubError::NoLink(_))
        | DeskError::Hub(HubError::BadSerial)
        | DeskError::Hub(HubError::OutOfMemory) => false,
    }
}

/// Returns whether the answer of a call is marked, if only its refusals may be.
pub fn marks_error<P>(answer: &Result<P, DeskError>) -> bool
    ensures { result ≡ marks_error answer.now }
{
    match answer {
        Ok(_) => false,
        Err(error) => is_marked(error),
    }
}

/// Returns whether the answer of a hand-out is marked: `Done`, or a refusal that is marked.
pub fn marks_handed(answer: &Result<Handed, DeskError>) -> bool
    ensures { result ≡ marks_handed answer.now }
{
    match answer {
        Ok(Handed::Done) => true,
        Ok(Handed::Bytes(_)) => false,
        Ok(Handed::Nothing) => false,
        Err(error) => is_marked(error),
    }
}

/// Returns whether a client's room is marked: `Shut`, or a refusal that is marked.
pub fn marks_room(answer: &Result<Room, DeskError>) -> bool
    ensures { result ≡ marks_room answer.now }
{
    match answer {
        Ok(Room::Shut) => true,
        Ok(_) => false,
        Err(error) => is_marked(error),
    }
}

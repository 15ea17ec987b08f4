//! Functions that note the answer of a call in its pass.

ghost use Rattle.std.specs.Prelude.{◌≡◌};
ghost use Rattle.adb_desk.specs.Desk.{IsSameDesk};
ghost use Rattle.adb_server_hall.specs.Passes.{MayNoteError, MayNoteHanded, MayNoteRoom, MayNoteSubmit};
ghost use Rattle.adb_server_hall.specs.Passes.{after_error, after_handed, after_room, after_submit};
ghost use Rattle.adb_server_hall.specs.Passes.{is_starved};

use adb_desk::{Desk, Progress, marks_progress};
use adb_hub::{Handed, HubError, Room};
use adb_recorder::Recorder;
use adb_server_log::{DeskError, Marks, Pass, is_marked};
use std::sync::ledger::Ledger;

/// Returns whether an error is an allocation failure of the hub.
pub fn is_starved(error: DeskError) -> bool
    ensures { result ≡ is_starved error }
{
    matches!(error, DeskError::Hub(HubError::OutOfMemory))
}

/// Notes in a pass that its call was refused with this error.
pub(crate) fn note_error<R: Recorder, E: Ledger, M: Ledger, K: Marks>(
    desk: &mut Desk<R, E, M, K>,
    pass: &mut Pass<E, M, K>,
    error: &DeskError,
)
    requires may { MayNoteError desk.old.log error.now }
    ensures pass { pass.new ≡ after_error pass.old error.now }
    ensures same { IsSameDesk desk.old desk.new }
{
    match error {
        DeskError::Later => {}
        DeskError::Halted | DeskError::RecordFault => desk.note(pass, false, 0, true, false),
        DeskError::Hub(_) => desk.note(pass, false, 0, is_marked(error), is_starved(*error)),
    }
}

/// Notes in a pass the answer to an act that carried this many bytes.
pub(crate) fn note_submit<R: Recorder, E: Ledger, M: Ledger, K: Marks>(
    desk: &mut Desk<R, E, M, K>,
    pass: &mut Pass<E, M, K>,
    answer: &Result<Progress, DeskError>,
    bytes: usize,
)
    requires may { MayNoteSubmit desk.old.log answer.now bytes }
    ensures pass { pass.new ≡ after_submit pass.old bytes answer.now }
    ensures same { IsSameDesk desk.old desk.new }
{
    match answer {
        Ok(_) => desk.note(pass, true, bytes, marks_progress(answer), false),
        Err(error) => note_error(desk, pass, error),
    }
}

/// Notes in a pass the answer to a hand-out.
pub(crate) fn note_handed<R: Recorder, E: Ledger, M: Ledger, K: Marks>(
    desk: &mut Desk<R, E, M, K>,
    pass: &mut Pass<E, M, K>,
    answer: &Result<Handed, DeskError>,
)
    requires may { MayNoteHanded desk.old.log answer.now }
    ensures pass { pass.new ≡ after_handed pass.old answer.now }
    ensures same { IsSameDesk desk.old desk.new }
{
    match answer {
        Ok(Handed::Bytes(bytes)) => desk.note(pass, true, bytes.len(), false, false),
        Ok(Handed::Nothing) => {}
        Ok(Handed::Done) => desk.note(pass, false, 0, true, false),
        Err(error) => note_error(desk, pass, error),
    }
}

/// Notes in a pass the answer to a query for room.
pub(crate) fn note_room<R: Recorder, E: Ledger, M: Ledger, K: Marks>(
    desk: &mut Desk<R, E, M, K>,
    pass: &mut Pass<E, M, K>,
    answer: &Result<Room, DeskError>,
)
    requires may { MayNoteRoom desk.old.log answer.now }
    ensures pass { pass.new ≡ after_room pass.old answer.now }
    ensures same { IsSameDesk desk.old desk.new }
{
    match answer {
        Ok(Room::Bytes(_) | Room::Later) => {}
        Ok(Room::Shut) => desk.note(pass, false, 0, true, false),
        Err(error) => note_error(desk, pass, error),
    }
}

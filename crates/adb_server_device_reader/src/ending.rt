//! The calls that submit a piece, wait for room and end a link's input.

ghost use Rattle.std.specs.Prelude.{◌≡◌, ◌≤◌, List, ℕ, true, length};
ghost use Rattle.adb_capture.specs.declared.entry.Entry.{Entry};
ghost use Rattle.adb_capture.specs.declared.limits.TheConstants.{MAX_DATA};
ghost use Rattle.adb_outside.specs.declared.kinds.Cause.{Cause};
ghost use Rattle.adb_server_log.specs.Pass.{PassView};
ghost use Rattle.adb_server_hall.specs.Passes.{is_starved};
ghost use Rattle.adb_server_device_reader.specs.Handing.{Stands, Finished, Answered, GivesUp, Handed};
ghost use Rattle.adb_server_device_reader.specs.Handing.{Waited, goes_on, is_live, may_follow};

use crate::next::Next;
use adb_connections::{Gate, Place};
use adb_desk::Progress;
use adb_hub::{Life, Room, Whole};
use adb_outside::Cause;
use adb_server_hall::{Hall, LinkInOf, is_starved};
use adb_server_log::DeskError;

/// Ends the input of a link, unless the hall refuses that.
pub fn finish<H: Hall>(hall: &mut H, pass: &mut LinkInOf<H>, cause: Cause)
    ensures number { pass.new.pass.number ≡ pass.old.pass.number }
    ensures starved { pass.old.pass.starved ≡ true → pass.new.pass.starved ≡ true }
    ensures told { (entries : List Entry) → Stands entries (H.tells hall.old)
        → Finished pass.old.pass.number cause entries pass.old.pass.starved
        pass.new.pass.starved (H.tells hall.new) }
    ensures mark { H.marked hall.new ≡ H.marked hall.old }
{
    let _ = hall.detach(pass, cause);
}

/// Returns the decision after an answer with this progress.
fn next_of(progress: Progress) -> Next
    ensures { goes_on result ≡ is_live progress.life }
{
    match (progress.life, progress.room) {
        (Life::Gone, _) => Next::Stop,
        (Life::Live, Room::Later) => Next::Pause,
        (Life::Live, Room::Bytes(_) | Room::Shut) => Next::Go,
    }
}

/// Stops after a piece that the hall refused. Ends the link's input if the refusal is an allocation
/// failure.
fn give_up<H: Hall>(hall: &mut H, pass: &mut LinkInOf<H>, error: DeskError)
    ensures number { pass.new.pass.number ≡ pass.old.pass.number }
    ensures starved { pass.old.pass.starved ≡ true → pass.new.pass.starved ≡ true }
    ensures told { (entries : List Entry) → Stands entries (H.tells hall.old)
        → GivesUp (is_starved error) pass.old.pass.number entries pass.old.pass.starved
        pass.new.pass.starved (H.tells hall.old) (H.tells hall.new) }
    ensures mark { H.marked hall.new ≡ H.marked hall.old }
{
    if is_starved(error) {
        finish(hall, pass, Cause::Starved);
    }
}

/// Returns the decision after a piece, given the answer of the hall: `Stop` if the link is gone or
/// the piece is refused. An allocation failure ends the link's input.
fn settle<H: Hall>(
    hall: &mut H,
    pass: &mut LinkInOf<H>,
    answer: Result<Progress, DeskError>,
) -> Next
    ensures number { pass.new.pass.number ≡ pass.old.pass.number }
    ensures told { (before : PassView) (piece : List ℕ) (entries : List Entry)
        → Answered before piece entries answer pass.old.pass (H.tells hall.old)
        → Handed (goes_on result) before.number piece entries before.starved pass.new.pass.starved
        (H.tells hall.new) }
    ensures mark { H.marked hall.new ≡ H.marked hall.old }
{
    match answer {
        Ok(progress) => next_of(progress),
        Err(error) => {
            give_up(hall, pass, error);
            Next::Stop
        }
    }
}

/// Submits a piece. Returns `Stop` if the link is gone or the piece is refused. An allocation
/// failure ends the link's input.
pub(crate) fn hand_in<H: Hall, G: Gate>(
    hall: &mut H,
    pass: &mut LinkInOf<H>,
    piece: &[u8],
    gate: &G,
) -> Next
    requires { length piece.now ≤ MAX_DATA }
    ensures number { pass.new.pass.number ≡ pass.old.pass.number }
    ensures told { (entries : List Entry) → Stands entries (H.tells hall.old)
        → Handed (goes_on result) pass.old.pass.number piece.now entries pass.old.pass.starved
        pass.new.pass.starved (H.tells hall.new) }
    ensures mark { H.marked hall.new ≡ H.marked hall.old }
{
    gate.pass(Place::DeviceReader as u8, pass.number());
    let answer = hall.recv(pass, piece);
    settle(hall, pass, answer)
}

/// Submits a whole packet, as `hand_in` submits its bytes.
pub(crate) fn hand_in_packet<H: Hall, G: Gate>(
    hall: &mut H,
    pass: &mut LinkInOf<H>,
    packet: &Whole,
    gate: &G,
) -> Next
    requires { length packet.now ≤ MAX_DATA }
    ensures number { pass.new.pass.number ≡ pass.old.pass.number }
    ensures told { (entries : List Entry) → Stands entries (H.tells hall.old)
        → Handed (goes_on result) pass.old.pass.number packet.now entries pass.old.pass.starved
        pass.new.pass.starved (H.tells hall.new) }
    ensures mark { H.marked hall.new ≡ H.marked hall.old }
{
    gate.pass(Place::DeviceReader as u8, pass.number());
    let answer = hall.recv_whole(pass, packet);
    settle(hall, pass, answer)
}

/// Waits until the device has room again: the hall returns at once if it does not wait. Returns
/// whether more bytes may follow: `false` if the link is gone or the hall is shut.
pub(crate) fn wait_for_room<H: Hall>(hall: &mut H, pass: &mut LinkInOf<H>) -> bool
    ensures number { pass.new.pass.number ≡ pass.old.pass.number }
    ensures told { (entries : List Entry) → Stands entries (H.tells hall.old)
        → Waited result pass.old.pass.number entries pass.old.pass.starved
        pass.new.pass.starved (H.tells hall.new) }
    ensures mark { H.marked hall.new ≡ H.marked hall.old }
{
    let answer = hall.room_on(pass);
    may_follow(answer)
}

/// Returns whether more bytes may follow, given the answer to a query for room.
fn may_follow(answer: Result<Room, DeskError>) -> bool
    ensures { result ≡ may_follow answer }
{
    match answer {
        Ok(Room::Bytes(_) | Room::Later) => true,
        Ok(Room::Shut) => false,
        Err(_) => false,
    }
}

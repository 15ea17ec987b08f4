//! Submission of a client's piece, and binding of the port that the client waits for.

ghost use Rattle.std.specs.Prelude.{◌≡◌, ◌≤◌, ℕ, List, Option, Ok, true, length};
ghost use Rattle.adb_outside.specs.Outside.{Rises, TellsOneMore};
ghost use Rattle.adb_capture.specs.declared.limits.TheConstants.{MAX_DATA};
ghost use Rattle.adb_server_hall.specs.Telling.{IsSomeProgress};
ghost use Rattle.adb_server_client_reader.specs.Reading.{HandsIn, IsSomeNext, Settles, next_of, seen};

use crate::ending::give_up;
use crate::next::Next;
use adb_binder::{Binder, Binding};
use adb_desk::Progress;
use adb_hub::Room;
use adb_server_hall::{ClientInOf, Hall};

/// Binds a port. Returns the port that is bound, or 0 if that failed.
fn bind<B: Binder>(binder: &mut B, asked: u16) -> u16
    ensures told { TellsOneMore (B.answered binder.old) (asked, result) (B.answered binder.new) }
    ensures count { B.faults binder.old ≤ B.faults binder.new }
    ensures failed { result ≡ 0 → Rises (B.faults binder.old) (B.faults binder.new) }
{
    match binder.bind(asked) {
        Binding::Bound(port) => port,
        Binding::Failed => 0,
    }
}

/// Returns the next turn, given the room that an answer names.
fn next_of(room: Room) -> Next
    ensures { result ≡ next_of room }
{
    match room {
        Room::Bytes(n) => Next::Go(Some(n)),
        Room::Later => Next::Go(None),
        Room::Shut => Next::Stop,
    }
}

/// Binds the port that a client waits for after a piece, if it waits for one. An allocation failure
/// ends the client's input.
fn settle<H: Hall, B: Binder>(
    hall: &mut H,
    pass: &mut ClientInOf<H>,
    binder: &mut B,
    progress: Progress,
) -> Next
    requires { IsSomeProgress (Ok progress) }
    ensures some { IsSomeNext result }
    ensures number { pass.new.pass.number ≡ pass.old.pass.number }
    ensures starved { pass.old.pass.starved ≡ true → pass.new.pass.starved ≡ true }
    ensures bind_count { B.faults binder.old ≤ B.faults binder.new }
    ensures told { (before after : Option (List ℕ)) (n : ℕ)
        → Settles progress result pass.old.pass.number
        (seen (H.tells hall.old) before n (B.answered binder.old) (B.faults binder.old)
        pass.old.pass.starved)
        (seen (H.tells hall.new) after n (B.answered binder.new) (B.faults binder.new)
        pass.new.pass.starved) }
{
    match progress.wants {
        None => next_of(progress.room),
        Some(asked) => {
            let port = bind(binder, asked);
            match hall.bound(pass, port) {
                Ok(progress) => next_of(progress.room),
                Err(error) => {
                    give_up(hall, pass, error);
                    Next::Stop
                }
            }
        }
    }
}

/// Submits a piece for which there is room. An allocation failure ends the client's input.
pub(crate) fn hand_in<H: Hall, B: Binder>(
    hall: &mut H,
    pass: &mut ClientInOf<H>,
    binder: &mut B,
    piece: &[u8],
) -> Next
    requires { length piece.now ≤ MAX_DATA }
    ensures some { IsSomeNext result }
    ensures number { pass.new.pass.number ≡ pass.old.pass.number }
    ensures starved { pass.old.pass.starved ≡ true → pass.new.pass.starved ≡ true }
    ensures bind_count { B.faults binder.old ≤ B.faults binder.new }
    ensures told { (before after : Option (List ℕ)) (n : ℕ)
        → HandsIn piece.now result pass.old.pass.number
        (seen (H.tells hall.old) before n (B.answered binder.old) (B.faults binder.old)
        pass.old.pass.starved)
        (seen (H.tells hall.new) after n (B.answered binder.new) (B.faults binder.new)
        pass.new.pass.starved) }
{
    match hall.read(pass, piece) {
        Ok(progress) => settle(hall, pass, binder, progress),
        Err(error) => {
            give_up(hall, pass, error);
            Next::Stop
        }
    }
}

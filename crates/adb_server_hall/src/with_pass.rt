//! Sections with a pass: submitting an act, handing bytes out, and querying for room.

ghost use Rattle.std.specs.Prelude.{◌≡◌, ◌≢◌, ◌<◌, ◌≤◌, true, Some, Err};
ghost use Rattle.adb_capture.specs.declared.limits.TheConstants.{MAX_DATA};
ghost use Rattle.adb_hub.specs.declared.error.HubError.{HubError};
ghost use Rattle.adb_server_log.specs.declared.error.DeskError.{DeskError};
ghost use Rattle.adb_server_log.specs.Log.{moves};
ghost use Rattle.adb_server_log.specs.Marked.{marks_room};
ghost use Rattle.adb_desk.specs.Acts.{due_of, entry_of, is_end, out_entry, owner_by};
ghost use Rattle.adb_server_hall.specs.Telling.{Hands, HandsPiece, IsShutAt, IsSomeHanded};
ghost use Rattle.adb_server_hall.specs.Telling.{IsSomeProgress, IsSomeRoom, Rooms, Submits, telling_of, undrawn};
ghost use Rattle.adb_server_hall.specs.Passes.{after_handed, after_room, after_submit};

use crate::notes::{note_handed, note_room, note_submit};
use crate::sections::{Awaits, Section};
use adb_capture::Owner;
use adb_desk::{Act, Desk, Half, Piece, Progress};
use adb_hub::{Handed, HubError, Room};
use adb_recorder::Recorder;
use adb_server_log::{DeskError, Marks, Pass};
use std::sync::ledger::Ledger;

/// The section that submits an act.
#[derive(Drop)]
pub struct Submit<'a> {
    pub act: Act<'a>,
}

impl Section<Result<Progress, DeskError>> for Submit<'_> {
    ghost use Rattle.std.specs.Prelude.{◌≡◌, ◌≢◌, ◌≤◌, true, is_some, Err};
    ghost use Rattle.adb_capture.specs.declared.limits.TheConstants.{MAX_DATA};
    ghost use Rattle.adb_hub.specs.declared.error.HubError.{HubError};
    ghost use Rattle.adb_server_log.specs.declared.error.DeskError.{DeskError};
    ghost use Rattle.adb_server_log.specs.Log.{moves};
    ghost use Rattle.adb_desk.specs.Acts.{entry_of, is_end};
    ghost use Rattle.adb_server_hall.specs.Telling.{IsSomeProgress, Submits};
    ghost use Rattle.adb_server_hall.specs.Passes.{after_submit};

    ghost may = { λ s p. moves (entry_of s.act p.number) ≤ MAX_DATA };

    ghost seen = { λ s p answer after. IsSomeProgress answer
        × (after ≡ after_submit p (moves (entry_of s.act p.number)) answer) };

    ghost does = { λ s p answer a b. Submits (entry_of s.act p.number) answer a b };

    ghost leaves = { λ s p answer t. is_end (entry_of s.act p.number) ≡ true
        → answer ≡ Err (DeskError.Hub HubError.OutOfMemory) → is_some t.shut ≡ true };

    ghost idles = { λ answer. answer ≡ Err DeskError.Later };

    ghost sound = { λ answer. answer ≢ Err DeskError.RecordFault };

    fn run<R: Recorder, E: Ledger, M: Ledger, K: Marks>(
        &self,
        desk: &mut Desk<R, E, M, K>,
        pass: &mut Pass<E, M, K>,
    ) -> Result<Progress, DeskError> {
        submit_with(desk, pass, self.act)
    }

    fn is_idle(&self, answer: &Result<Progress, DeskError>) -> bool {
        matches!(answer, Err(DeskError::Later))
    }

    fn awaits(&self) -> Awaits {
        Awaits::Room(Half::Client)
    }
}

/// The section that hands bytes out.
#[derive(Drop)]
pub struct HandOut {
    pub half: Half,
    pub max: usize,
    pub piece: Piece,
}

impl Section<Result<Handed, DeskError>> for HandOut {
    ghost use Rattle.std.specs.Prelude.{◌≡◌, ◌≢◌, ◌<◌, ◌≤◌, Ok, Err, ⊤};
    ghost use Rattle.adb_capture.specs.declared.limits.TheConstants.{MAX_DATA};
    ghost use Rattle.adb_hub.specs.declared.answers.Handed.{Handed};
    ghost use Rattle.adb_server_log.specs.declared.error.DeskError.{DeskError};
    ghost use Rattle.adb_desk.specs.Acts.{due_of, out_entry};
    ghost use Rattle.adb_server_hall.specs.Telling.{HandsPiece, IsSomeHanded};
    ghost use Rattle.adb_server_hall.specs.Passes.{after_handed};

    ghost may = { λ s p. (0 < s.max) × (s.max ≤ MAX_DATA) };

    ghost seen = { λ s p answer after. IsSomeHanded s.max answer
        × (after ≡ after_handed p answer) };

    ghost does = { λ s p answer a b. HandsPiece s.piece (out_entry s.half p.number) s.max
        (due_of s.half p.number) answer a b };

    ghost leaves = { λ s p answer t. ⊤ };

    ghost idles = { λ answer. answer ≡ Ok Handed.Nothing };

    ghost sound = { λ answer. answer ≢ Err DeskError.RecordFault };

    fn run<R: Recorder, E: Ledger, M: Ledger, K: Marks>(
        &self,
        desk: &mut Desk<R, E, M, K>,
        pass: &mut Pass<E, M, K>,
    ) -> Result<Handed, DeskError> {
        hand_out_with(desk, pass, self.half, self.max, self.piece)
    }

    fn is_idle(&self, answer: &Result<Handed, DeskError>) -> bool {
        matches!(answer, Ok(Handed::Nothing))
    }

    fn awaits(&self) -> Awaits {
        Awaits::Output(self.half)
    }
}

/// The section that returns how many more bytes a client, or the device of a link, may send.
#[derive(Drop)]
pub struct AskRoom {
    pub half: Half,
}

impl Section<Result<Room, DeskError>> for AskRoom {
    ghost use Rattle.std.specs.Prelude.{◌≡◌, ◌≢◌, Ok, Err, ⊤};
    ghost use Rattle.adb_hub.specs.declared.answers.Room.{Room};
    ghost use Rattle.adb_server_log.specs.declared.error.DeskError.{DeskError};
    ghost use Rattle.adb_desk.specs.Acts.{owner_by};
    ghost use Rattle.adb_server_hall.specs.Telling.{IsSomeRoom, Rooms};
    ghost use Rattle.adb_server_hall.specs.Passes.{after_room};

    ghost may = { λ s p. ⊤ };

    ghost seen = { λ s p answer after. IsSomeRoom answer × (after ≡ after_room p answer) };

    ghost does = { λ s p answer a b. Rooms (owner_by s.half p.number) answer a b };

    ghost leaves = { λ s p answer t. ⊤ };

    ghost idles = { λ answer. answer ≡ Ok Room.Later };

    ghost sound = { λ answer. answer ≢ Err DeskError.RecordFault };

    fn run<R: Recorder, E: Ledger, M: Ledger, K: Marks>(
        &self,
        desk: &mut Desk<R, E, M, K>,
        pass: &mut Pass<E, M, K>,
    ) -> Result<Room, DeskError> {
        room_with(desk, pass, self.half)
    }

    fn is_idle(&self, answer: &Result<Room, DeskError>) -> bool {
        matches!(answer, Ok(Room::Later))
    }

    fn awaits(&self) -> Awaits {
        Awaits::Room(self.half)
    }
}

/// Submits an act of the owner of a pass.
fn submit_with<R: Recorder, E: Ledger, M: Ledger, K: Marks>(
    desk: &mut Desk<R, E, M, K>,
    pass: &mut Pass<E, M, K>,
    act: Act<'_>,
) -> Result<Progress, DeskError>
    requires { moves (entry_of act pass.old.number) ≤ MAX_DATA }
    ensures some { IsSomeProgress result }
    ensures pass { pass.new ≡ after_submit pass.old
        (moves (entry_of act.entry pass.old.number)) result }
    ensures told { Submits (entry_of act.entry pass.old.number) result (telling_of desk.old)
        (telling_of desk.new) }
    ensures memory { is_end (entry_of act.entry pass.old.number) ≡ true
        → result ≡ Err (DeskError.Hub HubError.OutOfMemory)
        → IsShutAt (Some (telling_of desk.new)) }
    ensures steady { K.steady → result ≢ Err DeskError.RecordFault }
{
    desk.law();
    let answer = desk.submit(pass.number(), act);
    note_submit(desk, pass, &answer, act.len());
    answer
}

/// Hands out bytes that are due to the owner of a pass.
fn hand_out_with<R: Recorder, E: Ledger, M: Ledger, K: Marks>(
    desk: &mut Desk<R, E, M, K>,
    pass: &mut Pass<E, M, K>,
    half: Half,
    max: usize,
    piece: Piece,
) -> Result<Handed, DeskError>
    requires { (0 < max) × (max ≤ MAX_DATA) }
    ensures some { IsSomeHanded max result }
    ensures pass { pass.new ≡ after_handed pass.old result }
    ensures told { HandsPiece piece (out_entry half pass.old.number) max
        (due_of half pass.old.number) result (telling_of desk.old) (telling_of desk.new) }
    ensures steady { K.steady → result ≢ Err DeskError.RecordFault }
{
    match piece {
        Piece::All => hand(desk, pass, half, max),
        Piece::Front => {
            let most = desk.front_len(half.owner(pass.number()), max);
            hand(desk, pass, half, most)
        }
    }
}

/// Hands out at most `max` bytes.
fn hand<R: Recorder, E: Ledger, M: Ledger, K: Marks>(
    desk: &mut Desk<R, E, M, K>,
    pass: &mut Pass<E, M, K>,
    half: Half,
    max: usize,
) -> Result<Handed, DeskError>
    requires { (0 < max) × (max ≤ MAX_DATA) }
    ensures some { IsSomeHanded max result }
    ensures pass { pass.new ≡ after_handed pass.old result }
    ensures told { Hands (out_entry half pass.old.number) max (due_of half pass.old.number) result
        (telling_of desk.old) (telling_of desk.new) }
    ensures steady { K.steady → result ≢ Err DeskError.RecordFault }
{
    desk.law();
    let answer = desk.hand_out(half, pass.number(), max);
    note_handed(desk, pass, &answer);
    answer
}

/// Returns how many more bytes the owner of a pass may send.
fn room_with<R: Recorder, E: Ledger, M: Ledger, K: Marks>(
    desk: &mut Desk<R, E, M, K>,
    pass: &mut Pass<E, M, K>,
    half: Half,
) -> Result<Room, DeskError>
    ensures some { IsSomeRoom result }
    ensures pass { pass.new ≡ after_room pass.old result }
    ensures told { Rooms (owner_by half pass.old.number) result (telling_of desk.old)
        (telling_of desk.new) }
    ensures steady { K.steady → result ≢ Err DeskError.RecordFault }
{
    let answer = room_of_drawn(desk, half.owner(pass.number()));
    note_room(desk, pass, &answer);
    answer
}

/// Returns the room of a client or of the device of a link. Refuses a number that was never drawn.
fn room_of_drawn<R: Recorder, E: Ledger, M: Ledger, K: Marks>(
    desk: &mut Desk<R, E, M, K>,
    owner: Owner,
) -> Result<Room, DeskError>
    ensures some { IsSomeRoom result }
    ensures told { Rooms owner result (telling_of desk.old) (telling_of desk.new) }
    ensures alarm { marks_room result ≡ true → desk.new.log.alarm ≡ true }
    ensures steady { K.steady → result ≢ Err DeskError.RecordFault }
{
    desk.law();
    if !desk.is_open() {
        return match desk.over() {
            Some(error) => Err(error),
            None => unreachable!(),
        };
    }
    if desk.is_drawn(owner) {
        desk.room(owner)
    } else {
        Err(DeskError::Hub(undrawn(owner)))
    }
}

/// Returns the error of a number that was never drawn.
fn undrawn(owner: Owner) -> HubError
    ensures { result ≡ undrawn owner }
{
    match owner {
        Owner::Client(client) => HubError::NoClient(client),
        Owner::Link(link) => HubError::NoLink(link),
    }
}

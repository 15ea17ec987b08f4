//! Acts of clients and devices.

ghost use Rattle.std.specs.Prelude.{◌≡◌, ◌≢◌, ◌≤◌, List, ◌∷◌, Err, None, OnErr, is_some, true};
ghost use Rattle.adb_capture.specs.declared.entry.Entry.{Entry};
ghost use Rattle.adb_capture.specs.declared.limits.TheConstants.{MAX_DATA};
ghost use Rattle.adb_history.specs.Kept.{IsLawful};
ghost use Rattle.adb_history.specs.Machine.{state};
ghost use Rattle.adb_hub.specs.Answers.{Answers};
ghost use Rattle.adb_hub.specs.declared.error.HubError.{HubError};
ghost use Rattle.adb_server_log.specs.declared.error.DeskError.{DeskError};
ghost use Rattle.adb_server_log.specs.Log.{HasKept, Keeps, moves, shut_with};
ghost use Rattle.adb_desk.specs.Acts.{IsLateBy, Submits, entry_of, life_at};
ghost use Rattle.adb_desk.specs.Acts.{is_end, marks_progress, progress_at};
ghost use Rattle.adb_desk.specs.Desk.{Rung, desk_refusal};

use crate::act::{Act, Progress};
use crate::desk::Desk;
use adb_capture::{Entry, Owner};
use adb_hub::{Hub, HubError, Life, MAX_HELD, Room};
use adb_recorder::Recorder;
use adb_server_log::{DeskError, Log, Marks, is_marked};
use std::sync::ledger::Ledger;

impl<R: Recorder, E: Ledger, M: Ledger, K: Marks> Desk<R, E, M, K> {
    /// Submits an act of a client or a device, of at most 2,097,152 bytes: one entry. Returns the
    /// state of that client or device after the act. An `End` and a `Detach` allocate nothing in
    /// the hub.
    ///
    /// A desk that is shut returns the answer with which it was shut, before every other error.
    ///
    /// - `Hub(Stopped)`: a kill was made.
    /// - `Hub(NoClient)`, `Hub(NoLink)`: the number was never drawn.
    /// - `Later`: a client's bytes do not fit: more than 65,540 bytes would be held of it. Nothing
    ///   changes.
    /// - `Hub(OutOfMemory)`: an allocation failed; the entry is not made. If it was an allocation
    ///   of the recorder, the desk is shut.
    /// - `RecordFault`: the recorder failed. The desk is shut.
    pub fn submit(&mut self, number: u32, act: Act<'_>) -> Result<Progress, DeskError>
        requires { moves (entry_of act number) ≤ MAX_DATA }
        ensures submitted { Rung (marks_progress result)
            (Submits self.old (entry_of act.entry number) result) self.new }
        ensures memory { is_end (entry_of act.entry number) ≡ true
            → result ≡ Err (DeskError.Hub HubError.OutOfMemory)
            → is_some (shut_with self.new.log) ≡ true }
        ensures steady { K.steady → result ≢ Err DeskError.RecordFault }
    {
        let answer = self.try_submit(number, act);
        self.log.ring(marks_progress(&answer));
        answer
    }

    /// Submits as `submit` does, but sets no alarm.
    fn try_submit(&mut self, number: u32, act: Act<'_>) -> Result<Progress, DeskError>
        requires { moves (entry_of act number) ≤ MAX_DATA }
        ensures submitted { Submits self.old (entry_of act.entry number) result self.new }
        ensures memory { is_end (entry_of act.entry number) ≡ true
            → result ≡ Err (DeskError.Hub HubError.OutOfMemory)
            → is_some (shut_with self.new.log) ≡ true }
        ensures steady { K.steady → result ≢ Err DeskError.RecordFault }
    {
        if let Some(answer) = self.log.shut() {
            return Err(answer);
        }
        if let Some(error) = late(&self.hub, number, act) {
            return Err(error);
        }
        match make(&mut self.hub, number, act) {
            Err(error) => Err(DeskError::Hub(error)),
            Ok(progress) => match keep(&mut self.log, number, act) {
                Err(error) => Err(error),
                Ok(()) => Ok(progress),
            },
        }
    }
}

/// Returns whether the answer of an act is marked: the answer allows no more bytes, or it is a
/// marked refusal.
pub fn marks_progress(answer: &Result<Progress, DeskError>) -> bool
    ensures { result ≡ marks_progress answer.now }
{
    match answer {
        Ok(progress) => matches!(progress.room, Room::Shut),
        Err(error) => is_marked(error),
    }
}

/// Returns the error of an act that is not passed to the hub because the bytes of the client do not
/// fit.
fn late(hub: &Hub, number: u32, act: Act<'_>) -> Option<DeskError>
    ensures { (h : List Entry) → IsLawful hub.now h
        → IsLateBy (entry_of act.entry number) (state h) result }
{
    match act {
        Act::Read(piece) => refuses_read(hub, number, piece),
        Act::End(_) | Act::Bound(_) | Act::Recv(_) | Act::Packet(_) | Act::Detach(_) => None,
    }
}

/// Returns the error with which bytes of a client are refused, apart from those of a shut desk and
/// of an allocation failure.
fn refuses_read(hub: &Hub, client: u32, piece: &[u8]) -> Option<DeskError>
    ensures { (h : List Entry) → IsLawful hub.now h
        → result ≡ desk_refusal (Entry.Read client piece.now) (state h) }
{
    if hub.is_stopped() {
        return Some(DeskError::Hub(HubError::Stopped));
    }
    if client == 0 || client > hub.joined() {
        return Some(DeskError::Hub(HubError::NoClient(client)));
    }
    let held = hub.held(client);
    if held > MAX_HELD || piece.len() > MAX_HELD - held {
        return Some(DeskError::Later);
    }
    None
}

/// Makes the hub's step of an act, and returns the state after it.
fn make(hub: &mut Hub, number: u32, act: Act<'_>) -> Result<Progress, HubError>
    ensures made { (h : List Entry) → IsLawful hub.old h
        → let e = entry_of act.entry number in
        Answers e (λ progress. progress ≡ progress_at e (state (e ∷ h))) result h hub.new }
    ensures err { OnErr result (hub.new ≡ hub.old) }
    ensures memory { is_end (entry_of act.entry number) ≡ true
        → result ≢ Err HubError.OutOfMemory }
{
    let life = step(hub, number, act)?;
    Ok(progress(hub, number, act, life))
}

/// Makes the hub's step of an act.
fn step(hub: &mut Hub, number: u32, act: Act<'_>) -> Result<Life, HubError>
    ensures made { (h : List Entry) → IsLawful hub.old h
        → let e = entry_of act.entry number in
        Answers e (λ life. life ≡ life_at e (state (e ∷ h))) result h hub.new }
    ensures err { OnErr result (hub.new ≡ hub.old) }
    ensures memory { is_end (entry_of act.entry number) ≡ true
        → result ≢ Err HubError.OutOfMemory }
{
    match act {
        Act::Read(piece) => hub.read(number, piece),
        Act::End(cause) => hub.end(number, cause),
        Act::Bound(port) => hub.bound(number, port),
        Act::Recv(piece) => hub.recv(number, piece),
        Act::Packet(packet) => hub.recv_whole(number, packet),
        Act::Detach(cause) => hub.detach(number, cause),
    }
}

/// Returns the state of a client or a device. `life` says whether it is alive.
fn progress(hub: &Hub, number: u32, act: Act<'_>, life: Life) -> Progress
    ensures { (h : List Entry) → IsLawful hub.now h
        → let e = entry_of act.entry number in life ≡ life_at e (state h)
        → result ≡ progress_at e (state h) }
{
    match act {
        Act::Read(_) | Act::End(_) | Act::Bound(_) => Progress {
            life,
            room: hub.room(number),
            wants: hub.waiting_port(number),
        },
        Act::Recv(_) | Act::Packet(_) | Act::Detach(_) => Progress {
            life,
            room: hub.link_room(number),
            wants: None,
        },
    }
}

/// Keeps the entry of an act.
fn keep<R: Recorder, E: Ledger, M: Ledger, K: Marks>(
    log: &mut Log<R, E, M, K>,
    number: u32,
    act: Act<'_>,
) -> Result<(), DeskError>
    requires going { shut_with log.old.is ≡ None }
    requires bytes { moves (entry_of act number) ≤ MAX_DATA }
    ensures keeps { Keeps log.old.is (entry_of act.entry number) result log.new.is }
    ensures kept { HasKept R.stands log.old.recorder (entry_of act.entry number) result
        log.new.recorder }
    ensures steady { K.steady → result ≢ Err DeskError.RecordFault }
{
    match act {
        Act::Read(piece) => log.keep_piece(Owner::Client(number), piece),
        Act::End(cause) => log.keep_still(Entry::End {
            client: number,
            cause,
        }),
        Act::Bound(port) => log.keep_still(Entry::Bound {
            client: number,
            port,
        }),
        Act::Recv(piece) => log.keep_piece(Owner::Link(number), piece),
        Act::Packet(packet) => log.keep_piece(Owner::Link(number), packet.as_slice()),
        Act::Detach(cause) => log.keep_still(Entry::Detach {
            link: number,
            cause,
        }),
    }
}

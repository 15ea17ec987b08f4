//! The calls that the workers of a server make.

use crate::alone::{EndWithoutThread, Halt, HasForward, Over};
use crate::passes::{ClientInOf, ClientOutOf, LinkInOf, LinkOutOf, PassOf};
use crate::sections::{Arrival, Call, Section};
use crate::with_pass::{AskRoom, HandOut, Submit};
use adb_capture::Owner;
use adb_desk::{Act, Comer, Half, Piece, Progress};
use adb_hub::{Handed, Room, Whole};
use adb_outside::{Cause, Kind};
use adb_server_log::{ClientIn, ClientOut, DeskError, LinkIn, LinkOut, Marks};
use adb_spawner::NoThread;
use std::sync::ledger::Ledger;

/// The desk of a server, as its workers use it. Each call is one critical section with one call of
/// the desk, and makes at most one entry.
///
/// A call with a pass counts the entry that it made, and the bytes that the entry moved, in that
/// pass. It marks the pass if its answer is one after which a worker may stop. A call without a
/// pass marks the handle on which it is made, if that handle has a mark.
///
/// Errors come in this order: the answer of a hall that is shut; a refusal of the hub; an
/// allocation failure; the refusal of the recorder, which shuts the hall. A refused call changes
/// nothing else.
///
/// An implementation supplies `run`, `ask` and `seat`. It is generic in the section that it runs,
/// so it can run no other. The calls of the workers are written once over these three.
pub trait Hall {
    ghost use Rattle.std.specs.Prelude.{◌≡◌, ◌≢◌, ◌<◌, ◌≤◌, Bool, Option, Ok, Err, Some, IfOk};
    ghost use Rattle.std.specs.Prelude.{false, true, length, is_some};
    ghost use Rattle.adb_outside.specs.declared.kinds.Cause.{Cause};
    ghost use Rattle.adb_outside.specs.declared.kinds.Kind.{Kind};
    ghost use Rattle.adb_outside.specs.Serial.{is_serial};
    ghost use Rattle.adb_capture.specs.declared.entry.Entry.{Entry};
    ghost use Rattle.adb_capture.specs.declared.entry.Owner.{Owner};
    ghost use Rattle.adb_capture.specs.declared.limits.TheConstants.{MAX_DATA};
    ghost use Rattle.adb_history.specs.Rows.{State};
    ghost use Rattle.adb_hub.specs.declared.answers.Handed.{Handed};
    ghost use Rattle.adb_hub.specs.declared.answers.Room.{Room};
    ghost use Rattle.adb_hub.specs.declared.error.HubError.{HubError};
    ghost use Rattle.adb_hub.specs.Answers.{offered_to, due_on};
    ghost use Rattle.adb_server_log.specs.declared.error.DeskError.{DeskError};
    ghost use Rattle.adb_server_log.specs.Marked.{marks_error};
    ghost use Rattle.adb_server_log.specs.Log.{moves};
    ghost use Rattle.adb_desk.specs.Acts.{HasBadSerial, MayCome, due_of, entry_by, entry_of, marks_progress, is_end, out_entry};
    ghost use Rattle.adb_server_hall.specs.Telling.{Telling, Where, Submits, Draws, Hands, HandsFront, HandsPiece, IsAt, IsShutAt, ends_of, Rooms, Overs, Forwards, Halts, IsSomeRoom, IsSomeHanded, IsSomeProgress};
    ghost use Rattle.adb_server_hall.specs.Passes.{ArePair, after_submit, after_handed, after_room, or_marked};

    /// The ledger of the count of entries.
    type Entries: Ledger;

    /// The ledger of the count of moved bytes.
    type Moved: Ledger;

    /// The ledger of the marks.
    type Marks: Marks;

    /// The state of its hub, the entries that were kept, and the answer with which it is shut, if
    /// the hall shows them to contracts.
    ghost tells: { Self → Option Telling };

    /// Whether the hall waits instead of returning `Later` or `Nothing`.
    ghost waits: { Bool };

    /// The mark of this handle, if it has one.
    ghost marked: { Self → Option Bool };

    /// Runs a section with a pass and returns its answer. If the answer idles, a hall that waits
    /// sleeps and runs the section again.
    fn run<A: Drop, S: Section<A>>(&mut self, pass: &mut PassOf<Self>, section: &S) -> A
        requires { S.may section.now pass.old }
        ensures idle { S.idles result → waits ≡ false }
        ensures seen { S.seen section.now pass.old result pass.new }
        ensures told { Where (tells self.old) (S.does section.now pass.old result)
            (tells self.new) }
        ensures after { IsAt (tells self.new) (S.leaves section.now pass.old result) }
        ensures steady { Self.Marks.steady → S.sound result }
        ensures mark { marked self.new ≡ marked self.old };

    /// Runs a section without a pass and returns its answer.
    fn ask<A: Drop, C: Call<A>>(&mut self, call: &C) -> A
        ensures told { Where (tells self.old) (C.does call.now result) (tells self.new) }
        ensures steady { Self.Marks.steady → C.sound result }
        ensures mark { marked self.new ≡ or_marked (C.marks result) (marked self.old) };

    /// Runs the section in which a client or a device comes. Returns the passes of its workers.
    fn seat<C: Arrival>(&mut self, arrival: &C) -> Result<(PassOf<Self>, PassOf<Self>), DeskError>
        requires { C.may arrival.now }
        ensures passes { IfOk result (λ passes. ArePair passes.0 passes.1) }
        ensures serial { result ≡ Err (DeskError.Hub HubError.BadSerial) → C.bad arrival.now }
        ensures told { Where (tells self.old)
            (Draws (C.entry arrival.now) (λ passes. passes.0.number) result) (tells self.new) }
        ensures steady { Self.Marks.steady → result ≢ Err DeskError.RecordFault }
        ensures mark { marked self.new ≡ or_marked (marks_error result) (marked self.old) };

    /// Admits a client or a device: one Join, Enter or Attach. Returns the pass of its reader,
    /// which has counted that entry, and the pass of its writer.
    ///
    /// - `Hub(Stopped)`: a kill was made.
    /// - `Hub(Numbers)`: all numbers are drawn.
    /// - `Hub(Full)`: a device came, and as many as the registry holds are attached.
    /// - `Hub(BadSerial)`: the device's serial is not valid.
    /// - `Hub(OutOfMemory)`: an allocation failed.
    final fn admit(&mut self, comer: Comer<'_>) -> Result<(PassOf<Self>, PassOf<Self>), DeskError>
        requires { MayCome comer }
        ensures passes { IfOk result (λ passes. ArePair passes.0 passes.1) }
        ensures serial { result ≡ Err (DeskError.Hub HubError.BadSerial)
            → HasBadSerial comer.entry }
        ensures told { Where (tells self.old)
            (Draws (entry_by comer.entry) (λ passes. passes.0.number) result) (tells self.new) }
        ensures steady { Self.Marks.steady → result ≢ Err DeskError.RecordFault }
        ensures mark { marked self.new ≡ or_marked (marks_error result) (marked self.old) }
    {
        self.seat(&comer)
    }

    /// Submits an act of the owner of a pass, of at most 2,097,152 bytes: one entry. Returns the
    /// state of the owner after it. A hall that waits does so until all bytes of a client fit.
    ///
    /// - `Hub(Stopped)`: a kill was made.
    /// - `Hub(NoClient)`, `Hub(NoLink)`: the number was never drawn.
    /// - `Later`: the bytes do not fit, and the hall does not wait.
    /// - `Hub(OutOfMemory)`: an allocation failed. If the act was an End or a Detach, the hall is
    ///   shut.
    final fn submit(&mut self, pass: &mut PassOf<Self>, act: Act<'_>) -> Result<Progress, DeskError>
        requires { moves (entry_of act pass.old.number) ≤ MAX_DATA }
        ensures late { result ≡ Err DeskError.Later → waits ≡ false }
        ensures some { IsSomeProgress result }
        ensures pass { pass.new ≡ after_submit pass.old
            (moves (entry_of act.entry pass.old.number)) result }
        ensures told { Where (tells self.old)
            (Submits (entry_of act.entry pass.old.number) result) (tells self.new) }
        ensures memory { is_end (entry_of act.entry pass.old.number) ≡ true
            → result ≡ Err (DeskError.Hub HubError.OutOfMemory) → IsShutAt (tells self.new) }
        ensures steady { Self.Marks.steady → result ≢ Err DeskError.RecordFault }
        ensures mark { marked self.new ≡ marked self.old }
    {
        self.run(pass, &Submit { act })
    }

    /// Hands out the first bytes that are due to the owner of a pass, at most `max`: one Put or
    /// Send. `Nothing` and `Done` make no entry. A hall that waits does so while nothing is due.
    ///
    /// - `Hub(NoClient)`, `Hub(NoLink)`: the number was never drawn.
    /// - `Hub(OutOfMemory)`: an allocation failed.
    final fn hand_out(
        &mut self,
        pass: &mut PassOf<Self>,
        half: Half,
        max: usize,
        piece: Piece,
    ) -> Result<Handed, DeskError>
        requires { (0 < max) × (max ≤ MAX_DATA) }
        ensures idle { result ≡ Ok Handed.Nothing → waits ≡ false }
        ensures some { IsSomeHanded max result }
        ensures pass { pass.new ≡ after_handed pass.old result }
        ensures told { Where (tells self.old) (HandsPiece piece (out_entry half pass.old.number)
            max (due_of half pass.old.number) result) (tells self.new) }
        ensures steady { Self.Marks.steady → result ≢ Err DeskError.RecordFault }
        ensures mark { marked self.new ≡ marked self.old }
    {
        self.run(pass, &HandOut { half, max, piece })
    }

    /// Returns how many more bytes a client may send. It makes no entry. A hall that waits does so
    /// while there is no room.
    ///
    /// `Hub(NoClient)`: the number was never drawn.
    final fn room(&mut self, pass: &mut ClientInOf<Self>) -> Result<Room, DeskError>
        ensures late { result ≡ Ok Room.Later → waits ≡ false }
        ensures some { IsSomeRoom result }
        ensures pass { pass.new.pass ≡ after_room pass.old.pass result }
        ensures told { Where (tells self.old) (Rooms (Owner.Client pass.old.pass.number) result)
            (tells self.new) }
        ensures steady { Self.Marks.steady → result ≢ Err DeskError.RecordFault }
        ensures mark { marked self.new ≡ marked self.old }
    {
        self.run(&mut pass.pass, &AskRoom { half: Half::Client })
    }

    /// Returns how many more bytes the device of a link may send at once. It makes no entry. A hall
    /// that waits does so while too much is due on the link; the wait ends when the link's queue
    /// has drained, the link is gone, a kill was made, or the hall is shut.
    ///
    /// `Hub(NoLink)`: the number was never drawn.
    final fn room_on(&mut self, pass: &mut LinkInOf<Self>) -> Result<Room, DeskError>
        ensures late { result ≡ Ok Room.Later → waits ≡ false }
        ensures some { IsSomeRoom result }
        ensures pass { pass.new.pass ≡ after_room pass.old.pass result }
        ensures told { Where (tells self.old) (Rooms (Owner.Link pass.old.pass.number) result)
            (tells self.new) }
        ensures steady { Self.Marks.steady → result ≢ Err DeskError.RecordFault }
        ensures mark { marked self.new ≡ marked self.old }
    {
        self.run(&mut pass.pass, &AskRoom { half: Half::Link })
    }

    /// Ends a client or a link that got no thread: one End or Detach, which no pass counts.
    ///
    /// - `Hub(Stopped)`: a kill was made.
    /// - `Hub(NoClient)`, `Hub(NoLink)`: the number was never drawn.
    final fn end_without_thread(
        &mut self,
        owner: Owner,
        shown: NoThread,
    ) -> Result<Progress, DeskError>
        ensures told { Where (tells self.old) (Submits (ends_of owner Cause.NoThread) result)
            (tells self.new) }
        ensures steady { Self.Marks.steady → result ≢ Err DeskError.RecordFault }
        ensures mark { marked self.new ≡ or_marked (marks_progress result) (marked self.old) }
    {
        let _ = &shown;
        self.ask(&EndWithoutThread { owner })
    }

    /// Returns the answer with which the hall is shut, or else `Stopped` if a kill was made. It
    /// allocates nothing.
    final fn over(&mut self) -> Option<DeskError>
        ensures told { Where (tells self.old) (Overs result) (tells self.new) }
        ensures steady { Self.Marks.steady → result ≢ Some DeskError.RecordFault }
        ensures mark { marked self.new ≡ or_marked (is_some result) (marked self.old) }
    {
        self.ask(&Over {})
    }

    /// Returns whether the hub has a forward of this local port. No entry, and no allocation.
    ///
    /// A hall that is shut returns the answer with which it was shut.
    final fn has_forward(&mut self, port: u16) -> Result<bool, DeskError>
        ensures told { Where (tells self.old) (Forwards port result) (tells self.new) }
        ensures steady { Self.Marks.steady → result ≢ Err DeskError.RecordFault }
        ensures mark { marked self.new ≡ or_marked (marks_error result) (marked self.old) }
    {
        self.ask(&HasForward { port })
    }

    /// Shuts the hall with `Halted`, unless it is shut.
    final fn halt(&mut self)
        ensures told { Where (tells self.old) Halts (tells self.new) }
        ensures mark { marked self.new ≡ marked self.old }
    {
        self.ask(&Halt {})
    }

    /// Admits the next client: one Join. The errors are those of `admit`.
    final fn join(&mut self) -> Result<(ClientInOf<Self>, ClientOutOf<Self>), DeskError>
        ensures passes { IfOk result (λ passes. ArePair passes.0.pass passes.1.pass) }
        ensures told { Where (tells self.old)
            (Draws Entry.Join (λ passes. passes.0.pass.number) result) (tells self.new) }
        ensures steady { Self.Marks.steady → result ≢ Err DeskError.RecordFault }
        ensures mark { marked self.new ≡ or_marked (marks_error result) (marked self.old) }
    {
        match self.admit(Comer::Client) {
            Err(error) => Err(error),
            Ok((reading, writing)) => Ok((ClientIn { pass: reading }, ClientOut { pass: writing })),
        }
    }

    /// Admits the next client through the forward of a port: one Enter. The errors are those of
    /// `admit`.
    final fn enter(&mut self, port: u16) -> Result<(ClientInOf<Self>, ClientOutOf<Self>), DeskError>
        requires { 0 < port }
        ensures passes { IfOk result (λ passes. ArePair passes.0.pass passes.1.pass) }
        ensures told { Where (tells self.old)
            (Draws (λ n. Entry.Enter n port)
            (λ passes. passes.0.pass.number) result) (tells self.new) }
        ensures steady { Self.Marks.steady → result ≢ Err DeskError.RecordFault }
        ensures mark { marked self.new ≡ or_marked (marks_error result) (marked self.old) }
    {
        match self.admit(Comer::Forward(port)) {
            Err(error) => Err(error),
            Ok((reading, writing)) => Ok((ClientIn { pass: reading }, ClientOut { pass: writing })),
        }
    }

    /// Attaches a device: one Attach. The errors are those of `admit`.
    final fn attach(
        &mut self,
        kind: Kind,
        serial: &[u8],
    ) -> Result<(LinkInOf<Self>, LinkOutOf<Self>), DeskError>
        ensures passes { IfOk result (λ passes. ArePair passes.0.pass passes.1.pass) }
        ensures serial { result ≡ Err (DeskError.Hub HubError.BadSerial)
            → is_serial serial.now ≡ false }
        ensures told { Where (tells self.old)
            (Draws (λ n. Entry.Attach n kind serial.now)
            (λ passes. passes.0.pass.number) result) (tells self.new) }
        ensures steady { Self.Marks.steady → result ≢ Err DeskError.RecordFault }
        ensures mark { marked self.new ≡ or_marked (marks_error result) (marked self.old) }
    {
        match self.admit(Comer::Device(kind, serial)) {
            Err(error) => Err(error),
            Ok((reading, writing)) => Ok((LinkIn { pass: reading }, LinkOut { pass: writing })),
        }
    }

    /// Submits bytes that came from the client: one Read. The errors are those of `submit`.
    final fn read(
        &mut self,
        pass: &mut ClientInOf<Self>,
        piece: &[u8],
    ) -> Result<Progress, DeskError>
        requires { length piece.now ≤ MAX_DATA }
        ensures late { result ≡ Err DeskError.Later → waits ≡ false }
        ensures some { IsSomeProgress result }
        ensures pass { pass.new.pass ≡ after_submit pass.old.pass (length piece.now) result }
        ensures told { Where (tells self.old)
            (Submits (Entry.Read pass.old.pass.number piece.now) result) (tells self.new) }
        ensures steady { Self.Marks.steady → result ≢ Err DeskError.RecordFault }
        ensures mark { marked self.new ≡ marked self.old }
    {
        self.submit(&mut pass.pass, Act::Read(piece))
    }

    /// Ends the client's input: one End. The errors are those of `submit`.
    final fn end(
        &mut self,
        pass: &mut ClientInOf<Self>,
        cause: Cause,
    ) -> Result<Progress, DeskError>
        ensures some { IsSomeProgress result }
        ensures pass { pass.new.pass ≡ after_submit pass.old.pass 0 result }
        ensures told { Where (tells self.old)
            (Submits (Entry.End pass.old.pass.number cause) result) (tells self.new) }
        ensures memory { result ≡ Err (DeskError.Hub HubError.OutOfMemory)
            → IsShutAt (tells self.new) }
        ensures steady { Self.Marks.steady → result ≢ Err DeskError.RecordFault }
        ensures mark { marked self.new ≡ marked self.old }
    {
        self.submit(&mut pass.pass, Act::End(cause))
    }

    /// Reports the port of the listener for which the client waits, or 0 if it could not be made:
    /// one Bound. The errors are those of `submit`.
    final fn bound(&mut self, pass: &mut ClientInOf<Self>, port: u16) -> Result<Progress, DeskError>
        ensures some { IsSomeProgress result }
        ensures pass { pass.new.pass ≡ after_submit pass.old.pass 0 result }
        ensures told { Where (tells self.old)
            (Submits (Entry.Bound pass.old.pass.number port) result) (tells self.new) }
        ensures steady { Self.Marks.steady → result ≢ Err DeskError.RecordFault }
        ensures mark { marked self.new ≡ marked self.old }
    {
        self.submit(&mut pass.pass, Act::Bound(port))
    }

    /// Ends the client because a write to it failed: one End. The errors are those of `submit`.
    final fn break_out(
        &mut self,
        pass: &mut ClientOutOf<Self>,
        cause: Cause,
    ) -> Result<Progress, DeskError>
        ensures some { IsSomeProgress result }
        ensures pass { pass.new.pass ≡ after_submit pass.old.pass 0 result }
        ensures told { Where (tells self.old)
            (Submits (Entry.End pass.old.pass.number cause) result) (tells self.new) }
        ensures memory { result ≡ Err (DeskError.Hub HubError.OutOfMemory)
            → IsShutAt (tells self.new) }
        ensures steady { Self.Marks.steady → result ≢ Err DeskError.RecordFault }
        ensures mark { marked self.new ≡ marked self.old }
    {
        self.submit(&mut pass.pass, Act::End(cause))
    }

    /// Submits bytes that came from the device: one Recv. The errors are those of `submit`.
    final fn recv(&mut self, pass: &mut LinkInOf<Self>, piece: &[u8]) -> Result<Progress, DeskError>
        requires { length piece.now ≤ MAX_DATA }
        ensures some { IsSomeProgress result }
        ensures pass { pass.new.pass ≡ after_submit pass.old.pass (length piece.now) result }
        ensures told { Where (tells self.old)
            (Submits (Entry.Recv pass.old.pass.number piece.now) result) (tells self.new) }
        ensures steady { Self.Marks.steady → result ≢ Err DeskError.RecordFault }
        ensures mark { marked self.new ≡ marked self.old }
    {
        self.submit(&mut pass.pass, Act::Recv(piece))
    }

    /// Submits a whole packet that came from the device: one Recv of its bytes. The errors are
    /// those of `submit`.
    final fn recv_whole(
        &mut self,
        pass: &mut LinkInOf<Self>,
        packet: &Whole,
    ) -> Result<Progress, DeskError>
        requires { length packet.now ≤ MAX_DATA }
        ensures some { IsSomeProgress result }
        ensures pass { pass.new.pass ≡ after_submit pass.old.pass (length packet.now) result }
        ensures told { Where (tells self.old)
            (Submits (Entry.Recv pass.old.pass.number packet.now) result) (tells self.new) }
        ensures steady { Self.Marks.steady → result ≢ Err DeskError.RecordFault }
        ensures mark { marked self.new ≡ marked self.old }
    {
        self.submit(&mut pass.pass, Act::Packet(packet))
    }

    /// Detaches the device: one Detach. The errors are those of `submit`.
    final fn detach(
        &mut self,
        pass: &mut LinkInOf<Self>,
        cause: Cause,
    ) -> Result<Progress, DeskError>
        ensures some { IsSomeProgress result }
        ensures pass { pass.new.pass ≡ after_submit pass.old.pass 0 result }
        ensures told { Where (tells self.old)
            (Submits (Entry.Detach pass.old.pass.number cause) result) (tells self.new) }
        ensures memory { result ≡ Err (DeskError.Hub HubError.OutOfMemory)
            → IsShutAt (tells self.new) }
        ensures steady { Self.Marks.steady → result ≢ Err DeskError.RecordFault }
        ensures mark { marked self.new ≡ marked self.old }
    {
        self.submit(&mut pass.pass, Act::Detach(cause))
    }

    /// Detaches the device because a write to it failed: one Detach. The errors are those of
    /// `submit`.
    final fn break_send(
        &mut self,
        pass: &mut LinkOutOf<Self>,
        cause: Cause,
    ) -> Result<Progress, DeskError>
        ensures some { IsSomeProgress result }
        ensures pass { pass.new.pass ≡ after_submit pass.old.pass 0 result }
        ensures told { Where (tells self.old)
            (Submits (Entry.Detach pass.old.pass.number cause) result) (tells self.new) }
        ensures memory { result ≡ Err (DeskError.Hub HubError.OutOfMemory)
            → IsShutAt (tells self.new) }
        ensures steady { Self.Marks.steady → result ≢ Err DeskError.RecordFault }
        ensures mark { marked self.new ≡ marked self.old }
    {
        self.submit(&mut pass.pass, Act::Detach(cause))
    }

    /// Hands out the first bytes that are due to the client: one Put. The errors are those of
    /// `hand_out`.
    final fn put(&mut self, pass: &mut ClientOutOf<Self>, max: usize) -> Result<Handed, DeskError>
        requires { (0 < max) × (max ≤ MAX_DATA) }
        ensures idle { result ≡ Ok Handed.Nothing → waits ≡ false }
        ensures some { IsSomeHanded max result }
        ensures pass { pass.new.pass ≡ after_handed pass.old.pass result }
        ensures told { let n = pass.old.pass.number in Where (tells self.old)
            (Hands (Entry.Put n) max
            (λ (s : State). offered_to s.devices (s.clients n)) result) (tells self.new) }
        ensures steady { Self.Marks.steady → result ≢ Err DeskError.RecordFault }
        ensures mark { marked self.new ≡ marked self.old }
    {
        self.hand_out(&mut pass.pass, Half::Client, max, Piece::All)
    }

    /// Hands out bytes as `put` does, but only as many as need no copy of a large payload.
    final fn put_front(
        &mut self,
        pass: &mut ClientOutOf<Self>,
        max: usize,
    ) -> Result<Handed, DeskError>
        requires { (0 < max) × (max ≤ MAX_DATA) }
        ensures idle { result ≡ Ok Handed.Nothing → waits ≡ false }
        ensures some { IsSomeHanded max result }
        ensures pass { pass.new.pass ≡ after_handed pass.old.pass result }
        ensures told { let n = pass.old.pass.number in Where (tells self.old)
            (HandsFront (Entry.Put n) max
            (λ (s : State). offered_to s.devices (s.clients n)) result) (tells self.new) }
        ensures steady { Self.Marks.steady → result ≢ Err DeskError.RecordFault }
        ensures mark { marked self.new ≡ marked self.old }
    {
        self.hand_out(&mut pass.pass, Half::Client, max, Piece::Front)
    }

    /// Hands out the first bytes that are due on the link: one Send. The errors are those of
    /// `hand_out`.
    final fn send(&mut self, pass: &mut LinkOutOf<Self>, max: usize) -> Result<Handed, DeskError>
        requires { (0 < max) × (max ≤ MAX_DATA) }
        ensures idle { result ≡ Ok Handed.Nothing → waits ≡ false }
        ensures some { IsSomeHanded max result }
        ensures pass { pass.new.pass ≡ after_handed pass.old.pass result }
        ensures told { let n = pass.old.pass.number in Where (tells self.old)
            (Hands (Entry.Send n) max (λ (s : State). due_on (s.links n)) result) (tells self.new) }
        ensures steady { Self.Marks.steady → result ≢ Err DeskError.RecordFault }
        ensures mark { marked self.new ≡ marked self.old }
    {
        self.hand_out(&mut pass.pass, Half::Link, max, Piece::All)
    }

    /// Hands out bytes as `send` does, but only as many as need no copy of a large payload.
    final fn send_front(
        &mut self,
        pass: &mut LinkOutOf<Self>,
        max: usize,
    ) -> Result<Handed, DeskError>
        requires { (0 < max) × (max ≤ MAX_DATA) }
        ensures idle { result ≡ Ok Handed.Nothing → waits ≡ false }
        ensures some { IsSomeHanded max result }
        ensures pass { pass.new.pass ≡ after_handed pass.old.pass result }
        ensures told { let n = pass.old.pass.number in Where (tells self.old)
            (HandsFront (Entry.Send n) max
            (λ (s : State). due_on (s.links n)) result) (tells self.new) }
        ensures steady { Self.Marks.steady → result ≢ Err DeskError.RecordFault }
        ensures mark { marked self.new ≡ marked self.old }
    {
        self.hand_out(&mut pass.pass, Half::Link, max, Piece::Front)
    }
}

//! The writer of one connection.

ghost use Rattle.std.specs.Prelude.{◌≡◌, ◌≢◌, ◌<◌, ◌≤◌, List, Some, true, false, length};
ghost use Rattle.adb_capture.specs.declared.entry.Entry.{Entry};
ghost use Rattle.adb_server_hall.specs.Made.{Tells};
ghost use Rattle.adb_server_hall.specs.Passes.{is_starved};
ghost use Rattle.adb_server_hall.specs.Telling.{Telling, Where};
ghost use Rattle.adb_server_writers.specs.Turns.{EndsAll, GivesUp, HandsOn, Leaves, Turned};
ghost use Rattle.adb_server_writers.specs.Writing.{Written, outlet, side_of};
ghost use Rattle.adb_server_writers.specs.declared.next.Next.{Next};

use crate::next::Next;
use crate::outlets::Outlets;
use adb_connections::{Gate, Place};
use adb_desk::{Act, Half, Piece};
use adb_hub::Handed;
use adb_outside::{Cause, HandOut, Parts, Wrote};
use adb_server_hall::{Hall, PassOf, is_starved};
use adb_server_log::DeskError;
use adb_wire::MAX_PACKET;
use std::sync::Wait;

/// Ends the input of a client or the link of a device, unless the hall refuses that.
fn break_off<H: Hall>(hall: &mut H, pass: &mut PassOf<H>, half: Half, cause: Cause)
    ensures number { pass.new.number ≡ pass.old.number }
    ensures starved { pass.old.starved ≡ true → pass.new.starved ≡ true }
    ensures mark { H.marked hall.new ≡ H.marked hall.old }
    ensures told { Where (H.tells hall.old) (EndsAll (side_of half pass.old.number) cause
        pass.old.starved pass.new.starved) (H.tells hall.new) }
{
    match half {
        Half::Client => {
            let _ = hall.submit(pass, Act::End(cause));
        }
        Half::Link => {
            let _ = hall.submit(pass, Act::Detach(cause));
        }
    }
}

/// Stops after a hand-out that the hall refused. Ends the connection if the refusal is an
/// allocation failure.
fn give_up<H: Hall>(hall: &mut H, pass: &mut PassOf<H>, half: Half, error: DeskError)
    ensures number { pass.new.number ≡ pass.old.number }
    ensures starved { pass.old.starved ≡ true → pass.new.starved ≡ true }
    ensures quiet { is_starved error ≡ false → pass.new ≡ pass.old }
    ensures mark { H.marked hall.new ≡ H.marked hall.old }
    ensures told { Where (H.tells hall.old)
        (GivesUp (side_of half pass.old.number) (is_starved error) pass.old.starved
        pass.new.starved) (H.tells hall.new) }
{
    if is_starved(error) {
        break_off(hall, pass, half, Cause::Starved);
    }
}

/// Writes a piece that was handed out. A write that fails ends the connection.
fn write_out<H: Hall, O, S: Outlets<O>>(
    side: &S,
    hall: &mut H,
    port: &mut O,
    pass: &mut PassOf<H>,
    half: Half,
    bytes: &HandOut,
) -> Next
    requires { 0 < length bytes.now }
    ensures goes { result ≢ Next.Idle }
    ensures number { pass.new.number ≡ pass.old.number }
    ensures quiet { result ≡ Next.More → pass.new ≡ pass.old }
    ensures mark { H.marked hall.new ≡ H.marked hall.old }
    ensures count { S.faults port.old ≤ S.faults port.new }
    ensures closed { S.closed port.new ≡ S.closed port.old }
    ensures told { Where (H.tells hall.old) (Leaves (side_of half pass.old.number) result
        pass.old.starved pass.new.starved) (H.tells hall.new) }
    ensures wrote { HandsOn bytes.now result
        (outlet (S.faults port.old) (S.written port.old) (S.closed port.old))
        (outlet (S.faults port.new) (S.written port.new) (S.closed port.new)) }
{
    let Parts { start, rest } = bytes.parts();
    match side.write(port, start, rest) {
        Wrote::All => Next::More,
        Wrote::Failed { taken: _ } => {
            break_off(hall, pass, half, Cause::Fault);
            Next::Stop
        }
    }
}

/// Returns the place of the gate that the writer passes before each write.
fn place_of(half: Half) -> Place {
    match half {
        Half::Client => Place::ClientWriter,
        Half::Link => Place::DeviceWriter,
    }
}

/// Takes one turn: requests the next hand-out, and writes it.
fn turn<H: Hall, O, S: Outlets<O>, G: Gate>(
    side: &S,
    hall: &mut H,
    port: &mut O,
    pass: &mut PassOf<H>,
    half: Half,
    gate: &G,
) -> Next
    ensures number { pass.new.number ≡ pass.old.number }
    ensures mark { H.marked hall.new ≡ H.marked hall.old }
    ensures count { S.faults port.old ≤ S.faults port.new }
    ensures idle { result ≡ Next.Idle → H.waits ≡ false }
    ensures told { (a : Telling) (es : List Entry) → H.tells hall.old ≡ Some a → Tells a es
        → Turned result (side_of half pass.old.number) es (H.tells hall.new)
        pass.old.starved pass.new.starved
        (outlet (S.faults port.old) (S.written port.old) (S.closed port.old))
        (outlet (S.faults port.new) (S.written port.new) (S.closed port.new)) }
{
    match hall.hand_out(pass, half, MAX_PACKET, Piece::Front) {
        Ok(Handed::Bytes(bytes)) => {
            gate.pass(place_of(half) as u8, pass.number());
            write_out(side, hall, port, pass, half, &bytes)
        }
        Ok(Handed::Nothing) => Next::Idle,
        Ok(Handed::Done) => Next::Stop,
        Err(error) => {
            give_up(hall, pass, half, error);
            Next::Stop
        }
    }
}

/// Writes the bytes that are handed out until nothing more will be, and then closes the port.
/// Returns whether it stopped because nothing is due for now, with the port unchanged. Over a hall
/// that waits it never returns that.
pub(crate) fn write<W: Wait + Copy + Drop, H: Hall, O, S: Outlets<O>, G: Gate>(
    rt: W,
    side: &S,
    hall: &mut H,
    port: &mut O,
    pass: &mut PassOf<H>,
    half: Half,
    gate: &G,
) -> bool
    ensures number { pass.new.number ≡ pass.old.number }
    ensures mark { H.marked hall.new ≡ H.marked hall.old }
    ensures count { S.faults port.old ≤ S.faults port.new }
    ensures idle { result ≡ true → H.waits ≡ false }
    ensures closed { result ≡ false → S.closed port.new ≡ true }
    ensures told { (a : Telling) (es : List Entry) → H.tells hall.old ≡ Some a → Tells a es
        → Written (side_of half pass.old.number) es (H.tells hall.new)
        pass.old.starved pass.new.starved
        (outlet (S.faults port.old) (S.written port.old) (S.closed port.old))
        (outlet (S.faults port.new) (S.written port.new) (S.closed port.new)) }
{
    for _ in rt.forever() {
        match turn(side, hall, port, pass, half, gate) {
            Next::More => {}
            Next::Idle => return true,
            Next::Stop => {
                side.close(port);
                return false;
            }
        }
    }
    unreachable!()
}

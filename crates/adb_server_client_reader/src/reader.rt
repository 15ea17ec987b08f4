//! A client's reader.

ghost use Rattle.std.specs.Prelude.{◌≡◌, ◌≤◌, ◌<◌, None, Some, true, length};
ghost use Rattle.adb_capture.specs.declared.limits.TheConstants.{MAX_DATA};
ghost use Rattle.adb_server_client_reader.specs.declared.next.Next.TheVariants.{Stop};
ghost use Rattle.adb_server_client_reader.specs.Reading.{IsSome, IsSomeNext, Reads, Turns, seen};

use crate::ending::finish;
use crate::handing_in::hand_in;
use crate::next::{Fed, Next};
use adb_binder::Binder;
use adb_connections::{Gate, Place, PortIn};
use adb_hub::Room;
use adb_outside::{Cause, Got};
use adb_server_hall::{ClientInOf, Hall};
use std::sync::Wait;

/// The length of a reader's first buffer. It is small because most clients send little.
pub const FIRST_PIECE: usize = 4_096;

/// The maximum number of bytes that a reader takes from its port at once: all that a client has
/// room for. With a smaller buffer the few bytes left over would need a turn of their own.
pub const MAX_PIECE: usize = 65_540;

/// Reads into a buffer for which there is room, and submits the bytes.
fn feed<H: Hall, I: PortIn, B: Binder, G: Gate>(
    hall: &mut H,
    port: &mut I,
    pass: &mut ClientInOf<H>,
    binder: &mut B,
    into: &mut [u8],
    gate: &G,
) -> Fed
    requires { (0 < length into.old) × (length into.old ≤ MAX_DATA) }
    ensures some { IsSomeNext result.next }
    ensures number { pass.new.pass.number ≡ pass.old.pass.number }
    ensures starved { pass.old.pass.starved ≡ true → pass.new.pass.starved ≡ true }
    ensures port_count { I.faults port.old ≤ I.faults port.new }
    ensures bind_count { B.faults binder.old ≤ B.faults binder.new }
    ensures told { Turns (Some (length into.old)) result.next pass.old.pass.number
        (seen (H.tells hall.old) (I.left port.old) (I.faults port.old) (B.answered binder.old)
        (B.faults binder.old) pass.old.pass.starved)
        (seen (H.tells hall.new) (I.left port.new) (I.faults port.new) (B.answered binder.new)
        (B.faults binder.new) pass.new.pass.starved) }
{
    match port.read(into) {
        Got::Bytes(n) => {
            gate.pass(Place::ClientReader as u8, pass.number());
            let next = hand_in(hall, pass, binder, &into[..n]);
            Fed {
                next,
                filled: n == into.len(),
            }
        }
        Got::End => {
            finish(hall, pass, Cause::Eof);
            Fed::stop()
        }
        Got::Failed => {
            finish(hall, pass, Cause::Fault);
            Fed::stop()
        }
    }
}

/// Takes one turn when the room is not known: queries the hall for it, reads, and submits.
fn ask<H: Hall, I: PortIn, B: Binder, G: Gate>(
    hall: &mut H,
    port: &mut I,
    pass: &mut ClientInOf<H>,
    binder: &mut B,
    buffer: &mut [u8],
    gate: &G,
) -> Fed
    requires { (0 < length buffer.old) × (length buffer.old ≤ MAX_DATA) }
    ensures some { IsSomeNext result.next }
    ensures number { pass.new.pass.number ≡ pass.old.pass.number }
    ensures starved { pass.old.pass.starved ≡ true → pass.new.pass.starved ≡ true }
    ensures port_count { I.faults port.old ≤ I.faults port.new }
    ensures bind_count { B.faults binder.old ≤ B.faults binder.new }
    ensures told { Turns None result.next pass.old.pass.number
        (seen (H.tells hall.old) (I.left port.old) (I.faults port.old) (B.answered binder.old)
        (B.faults binder.old) pass.old.pass.starved)
        (seen (H.tells hall.new) (I.left port.new) (I.faults port.new) (B.answered binder.new)
        (B.faults binder.new) pass.new.pass.starved) }
{
    match hall.room(pass) {
        Ok(Room::Bytes(n)) => {
            let most = n.min(buffer.len());
            feed(hall, port, pass, binder, &mut buffer[..most], gate)
        }
        Ok(Room::Later) => Fed::stop(),
        Ok(Room::Shut) => Fed::stop(),
        Err(_) => Fed::stop(),
    }
}

/// Takes one turn: reads if the room is known, and queries the hall for it otherwise.
fn turn<H: Hall, I: PortIn, B: Binder, G: Gate>(
    hall: &mut H,
    port: &mut I,
    pass: &mut ClientInOf<H>,
    binder: &mut B,
    buffer: &mut [u8],
    gate: &G,
    room: Option<usize>,
) -> Fed
    requires buffer { (0 < length buffer.old) × (length buffer.old ≤ MAX_DATA) }
    requires room { IsSome room }
    ensures some { IsSomeNext result.next }
    ensures number { pass.new.pass.number ≡ pass.old.pass.number }
    ensures starved { pass.old.pass.starved ≡ true → pass.new.pass.starved ≡ true }
    ensures port_count { I.faults port.old ≤ I.faults port.new }
    ensures bind_count { B.faults binder.old ≤ B.faults binder.new }
    ensures told { Turns room result.next pass.old.pass.number
        (seen (H.tells hall.old) (I.left port.old) (I.faults port.old) (B.answered binder.old)
        (B.faults binder.old) pass.old.pass.starved)
        (seen (H.tells hall.new) (I.left port.new) (I.faults port.new) (B.answered binder.new)
        (B.faults binder.new) pass.new.pass.starved) }
{
    match room {
        Some(n) => {
            let most = n.min(buffer.len());
            feed(hall, port, pass, binder, &mut buffer[..most], gate)
        }
        None => ask(hall, port, pass, binder, buffer, gate),
    }
}

/// Reads on, in pieces of up to `MAX_PIECE` bytes. It is a separate function so that a client that
/// sends little needs no large buffer.
fn read_bulk<W: Wait + Copy + Drop, H: Hall, I: PortIn, B: Binder, G: Gate>(
    rt: W,
    hall: &mut H,
    port: &mut I,
    pass: ClientInOf<H>,
    binder: &mut B,
    gate: &G,
    room: Option<usize>,
) -> ClientInOf<H>
    requires { IsSome room }
    ensures number { result.pass.number ≡ pass.pass.number }
    ensures starved { pass.pass.starved ≡ true → result.pass.starved ≡ true }
    ensures port_count { I.faults port.old ≤ I.faults port.new }
    ensures bind_count { B.faults binder.old ≤ B.faults binder.new }
    ensures told { Turns room Stop pass.pass.number
        (seen (H.tells hall.old) (I.left port.old) (I.faults port.old) (B.answered binder.old)
        (B.faults binder.old) pass.pass.starved)
        (seen (H.tells hall.new) (I.left port.new) (I.faults port.new) (B.answered binder.new)
        (B.faults binder.new) result.pass.starved) }
{
    let (mut pass, mut room) = (pass, room);
    let mut buffer = [0u8; MAX_PIECE];
    for _ in rt.forever() {
        match turn(hall, port, &mut pass, binder, &mut buffer, gate, room).next {
            Next::Stop => return pass,
            Next::Go(next) => room = next,
        }
    }
    unreachable!()
}

/// Reads a client's socket, submits each chunk to the hall, and binds the ports that the client
/// waits for. A chunk takes one section of the hall, which returns how many bytes may come next.
///
/// Returns the pass when the hall reads this client no more, when the socket reaches end of file or
/// fails, when the hall is shut, after a kill, or when an allocation fails. Over a hall that does
/// not wait it also returns the pass when the client has no room.
///
/// End of file ends the client's input by `Eof`, a failed read ends it by `Fault`, and an
/// allocation failure ends it by `Starved`, unless the hall refuses that: the client is gone, the
/// hall is shut, or a kill was made. No read follows a failed one.
///
/// The reader begins with a small buffer on its stack and takes a large one after a read that
/// filled it. So neither buffer is allocated, and a client with one short request needs no large
/// one.
pub fn read_client<W: Wait + Copy + Drop, H: Hall, I: PortIn, B: Binder, G: Gate>(
    rt: W,
    hall: &mut H,
    port: &mut I,
    pass: ClientInOf<H>,
    binder: &mut B,
    gate: &G,
) -> ClientInOf<H>
    ensures number { result.pass.number ≡ pass.pass.number }
    ensures starved { pass.pass.starved ≡ true → result.pass.starved ≡ true }
    ensures port_count { I.faults port.old ≤ I.faults port.new }
    ensures bind_count { B.faults binder.old ≤ B.faults binder.new }
    ensures told { Reads pass.pass.number
        (seen (H.tells hall.old) (I.left port.old) (I.faults port.old) (B.answered binder.old)
        (B.faults binder.old) pass.pass.starved)
        (seen (H.tells hall.new) (I.left port.new) (I.faults port.new) (B.answered binder.new)
        (B.faults binder.new) result.pass.starved) }
{
    let mut pass = pass;
    let mut room = None;
    let mut buffer = [0u8; FIRST_PIECE];
    for _ in rt.forever() {
        let fed = turn(hall, port, &mut pass, binder, &mut buffer, gate, room);
        match fed.next {
            Next::Stop => return pass,
            Next::Go(next) => {
                if fed.filled {
                    return read_bulk(rt, hall, port, pass, binder, gate, next);
                }
                room = next;
            }
        }
    }
    unreachable!()
}

//! Submission of a device's bytes in slices, packet by packet.

ghost use Rattle.std.specs.Prelude.{◌≡◌, ◌<◌, ◌++◌, ℕ, List, true};
ghost use Rattle.adb_outside.specs.declared.kinds.Cause.{Cause};
ghost use Rattle.adb_wire.specs.Slicing.{need_of};
ghost use Rattle.adb_server_device_reader.specs.Handing.{goes_on};
ghost use Rattle.adb_server_device_reader.specs.Reading.{Start, SoFar, Fed, Done, HasEndedBy};

use crate::ending::{finish, hand_in, hand_in_packet, wait_for_room};
use crate::next::Next;
use crate::packets::Packets;
use adb_connections::Gate;
use adb_outside::Cause;
use adb_server_hall::{Hall, LinkInOf};

/// Submits the slice that is held, if it is whole. A packet in memory of its own is not copied.
fn hand_in_held<H: Hall, G: Gate>(
    hall: &mut H,
    pass: &mut LinkInOf<H>,
    packets: &mut Packets,
    gate: &G,
) -> Next
    ensures number { pass.new.pass.number ≡ pass.old.pass.number }
    ensures open { 0 < need_of packets.new }
    ensures told { (start : Start) (coming : List ℕ)
        → SoFar pass.old.pass.number start packets.old coming pass.old.pass.starved
        (H.tells hall.old)
        → Fed (goes_on result) pass.old.pass.number start packets.new coming pass.new.pass.starved
        (H.tells hall.new) }
    ensures mark { H.marked hall.new ≡ H.marked hall.old }
{
    if let Some(packet) = packets.share() {
        return hand_in_packet(hall, pass, &packet, gate);
    }
    let Some(slice) = packets.whole() else {
        return Next::Go;
    };
    let next = hand_in(hall, pass, slice, gate);
    packets.clear();
    next
}

/// Submits the slice that is held, if it is whole, and then waits until the device has room.
/// Returns whether more bytes may follow.
fn hand_in_whole<H: Hall, G: Gate>(
    hall: &mut H,
    pass: &mut LinkInOf<H>,
    packets: &mut Packets,
    gate: &G,
) -> bool
    ensures number { pass.new.pass.number ≡ pass.old.pass.number }
    ensures open { 0 < need_of packets.new }
    ensures told { (start : Start) (coming : List ℕ)
        → SoFar pass.old.pass.number start packets.old coming pass.old.pass.starved
        (H.tells hall.old)
        → Fed result pass.old.pass.number start packets.new coming pass.new.pass.starved
        (H.tells hall.new) }
    ensures mark { H.marked hall.new ≡ H.marked hall.old }
{
    match hand_in_held(hall, pass, packets, gate) {
        Next::Go => true,
        Next::Pause => wait_for_room(hall, pass),
        Next::Stop => false,
    }
}

/// Submits each slice that a piece completes. Returns whether more bytes may follow.
pub fn feed<H: Hall, G: Gate>(
    hall: &mut H,
    pass: &mut LinkInOf<H>,
    packets: &mut Packets,
    piece: &[u8],
    gate: &G,
) -> bool
    requires { 0 < need_of packets.old }
    ensures number { pass.new.pass.number ≡ pass.old.pass.number }
    ensures open { 0 < need_of packets.new }
    ensures told { (start : Start) (rest : List ℕ)
        → SoFar pass.old.pass.number start packets.old (piece.now ++ rest)
        pass.old.pass.starved (H.tells hall.old)
        → Fed result pass.old.pass.number start packets.new rest pass.new.pass.starved
        (H.tells hall.new) }
    ensures mark { H.marked hall.new ≡ H.marked hall.old }
{
    let mut rest = piece;
    while !rest.is_empty() {
        let taken = packets.take(rest);
        rest = &rest[taken..];
        if !hand_in_whole(hall, pass, packets, gate) {
            return false;
        }
    }
    true
}

/// Submits the bytes that are held of a device that has ended, and ends its link's input.
pub fn end_input<H: Hall, G: Gate>(
    hall: &mut H,
    pass: &mut LinkInOf<H>,
    packets: &Packets,
    cause: Cause,
    gate: &G,
)
    requires { 0 < need_of packets.now }
    ensures number { pass.new.pass.number ≡ pass.old.pass.number }
    ensures told { (start : Start) (rest : List ℕ) (faults : ℕ) → HasEndedBy start rest faults cause
        → SoFar pass.old.pass.number start packets.now rest pass.old.pass.starved
        (H.tells hall.old)
        → Done pass.old.pass.number start rest faults pass.new.pass.starved (H.tells hall.new) }
    ensures mark { H.marked hall.new ≡ H.marked hall.old }
{
    let held = packets.held();
    if held.is_empty() {
        finish(hall, pass, cause);
    } else if hand_in(hall, pass, held, gate).goes_on() {
        finish(hall, pass, cause);
    }
}

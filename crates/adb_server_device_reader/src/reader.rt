//! A device's reader.

ghost use Rattle.std.specs.Prelude.{◌≡◌, ◌<◌, ◌≤◌, [], ℕ, List, Some, length};
ghost use Rattle.adb_capture.specs.declared.entry.Entry.{Entry};
ghost use Rattle.adb_wire.specs.Slicing.{need_of};
ghost use Rattle.adb_server_hall.specs.Telling.{Telling};
ghost use Rattle.adb_server_hall.specs.Made.{Tells};
ghost use Rattle.adb_server_device_reader.specs.Reading.{Start, HasRead, IsReading, Turned};

use crate::feeding::{end_input, feed};
use crate::packets::Packets;
use adb_capture::MAX_READ;
use adb_connections::{DeviceIn, Gate};
use adb_outside::{Cause, Got};
use adb_server_hall::{Hall, LinkInOf};
use std::sync::Wait;

/// Takes one turn: reads, and submits each complete packet. Returns whether more bytes may follow.
fn turn<H: Hall, I: DeviceIn, G: Gate>(
    hall: &mut H,
    port: &mut I,
    pass: &mut LinkInOf<H>,
    packets: &mut Packets,
    buffer: &mut [u8],
    gate: &G,
) -> bool
    requires room { 0 < length buffer.old }
    requires open { 0 < need_of packets.old }
    ensures number { pass.new.pass.number ≡ pass.old.pass.number }
    ensures open { 0 < need_of packets.new }
    ensures count { I.faults port.old ≤ I.faults port.new }
    ensures plugs { I.plugs port.new ≡ I.plugs port.old }
    ensures mark { H.marked hall.new ≡ H.marked hall.old }
    ensures told { (start : Start)
        → IsReading pass.old.pass.number start packets.old (I.faults port.old)
        pass.old.pass.starved (H.tells hall.old) (I.left port.old)
        → Turned result pass.old.pass.number start packets.new (I.faults port.new)
        pass.new.pass.starved (H.tells hall.new) (I.left port.new) }
{
    match port.read(buffer) {
        Got::Bytes(n) => feed(hall, pass, packets, &buffer[..n], gate),
        Got::End => {
            end_input(hall, pass, packets, Cause::Eof, gate);
            false
        }
        Got::Failed => {
            end_input(hall, pass, packets, Cause::Fault, gate);
            false
        }
    }
}

/// Reads a device and submits its bytes, each whole packet by one Recv. Returns the pass when the
/// device ends or fails, the link is gone, the hall is shut, a kill was made, or an allocation
/// failed.
///
/// A header with a fault is submitted as its 24 bytes. If the device ends or fails, the bytes of an
/// incomplete packet are submitted, and then one Detach ends the link's input, by `Eof` or `Fault`,
/// unless the hall refuses that. No read follows a failed one.
///
/// While more is due on the link than its device has room for, the reader pauses: over a hall that
/// waits, it reads and submits nothing until the link's queue has drained, the link is gone, a kill
/// was made, or the hall is shut. It does not pause before it ends the link's input.
///
/// `packets` must hold nothing. If an allocation fails in the hall, one Detach by `Starved` ends
/// the link's input, and the piece is lost, with the bytes that were read after it. The reader
/// passes the gate at `Place::DeviceReader` before each piece. The returned pass has its shares and
/// its mark.
pub fn read_device<W: Wait + Copy + Drop, H: Hall, I: DeviceIn, G: Gate>(
    rt: W,
    hall: &mut H,
    port: &mut I,
    pass: LinkInOf<H>,
    packets: Packets,
    gate: &G,
) -> LinkInOf<H>
    requires { packets ≡ [] }
    ensures number { result.pass.number ≡ pass.pass.number }
    ensures count { I.faults port.old ≤ I.faults port.new }
    ensures plugs { I.plugs port.new ≡ I.plugs port.old }
    ensures mark { H.marked hall.new ≡ H.marked hall.old }
    ensures told { (a : Telling) (entries : List Entry) (bytes : List ℕ)
        → H.tells hall.old ≡ Some a → Tells a entries → I.left port.old ≡ Some bytes
        → HasRead pass.pass.number
        (record {
          entries = entries;
          bytes = bytes;
          faults = I.faults port.old;
          starved = pass.pass.starved;
        })
        (I.faults port.new) result.pass.starved (H.tells hall.new) (I.left port.new) }
{
    let mut pass = pass;
    let mut packets = packets;
    let mut buffer = [0u8; MAX_READ];
    for _ in rt.forever() {
        if !turn(hall, port, &mut pass, &mut packets, &mut buffer, gate) {
            return pass;
        }
    }
    unreachable!()
}

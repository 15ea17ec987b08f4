//! A client's writer.

ghost use Rattle.std.specs.Prelude.{◌≡◌, ◌≤◌, ◌⊎◌, List, Some, true, false};
ghost use Rattle.adb_capture.specs.declared.entry.Entry.{Entry};
ghost use Rattle.adb_desk.specs.declared.act.Half.{Half};
ghost use Rattle.adb_server_hall.specs.Made.{Tells};
ghost use Rattle.adb_server_hall.specs.Telling.{Telling};
ghost use Rattle.adb_server_writers.specs.Writing.{Written, outlet, side_of};

use crate::outlets::Clients;
use crate::writer::write;
use adb_connections::{Gate, PortOut};
use adb_desk::Half;
use adb_server_hall::{ClientOutOf, Hall};
use std::sync::Wait;

/// Writes to a client the bytes that are handed out to it, at most a whole packet at a time. Closes
/// the port and returns the pass when the client is gone, a write failed, the hall is shut, or an
/// allocation failed. Over a hall that does not wait it also returns the pass when nothing is due,
/// with the port unchanged.
///
/// A write that fails ends the client's input by `Fault`, and an allocation failure ends it by
/// `Starved`, unless the hall refuses that: the client is gone, the hall is shut, or a kill was
/// made. After a failed write nothing more is handed out.
///
/// After a kill the writer continues until the client is gone, so the reply of the kill itself is
/// written. It passes the gate at `Place::ClientWriter` before each write.
pub fn write_client<W: Wait + Copy + Drop, H: Hall, O: PortOut, G: Gate>(
    rt: W,
    hall: &mut H,
    port: &mut O,
    pass: ClientOutOf<H>,
    gate: &G,
) -> ClientOutOf<H>
    ensures number { result.pass.number ≡ pass.pass.number }
    ensures mark { H.marked hall.new ≡ H.marked hall.old }
    ensures count { O.faults port.old ≤ O.faults port.new }
    ensures closed { (O.closed port.new ≡ true) ⊎ (H.waits ≡ false) }
    ensures told { (a : Telling) (es : List Entry) → H.tells hall.old ≡ Some a → Tells a es
        → Written (side_of Half.Client pass.pass.number) es (H.tells hall.new)
        pass.pass.starved result.pass.starved
        (outlet (O.faults port.old) (O.written port.old) (O.closed port.old))
        (outlet (O.faults port.new) (O.written port.new) (O.closed port.new)) }
{
    let mut pass = pass;
    let side = Clients {};
    let _idle = write(rt, &side, hall, port, &mut pass.pass, Half::Client, gate);
    pass
}

//! Cases of packets.

ghost use Rattle.std.specs.Prelude.{◌≤◌, length};
ghost use Rattle.adb_wire.specs.declared.headers.TheConstants.{MAX_PAYLOAD};

use crate::reader::Reader;
use crate::telling::tell_value;
use adb_outside::Text;
use adb_wire::{Command, Deframer, Packet, WireError, frame};
use std::alloc::{AllocError, Global};

impl Reader for Deframer {
    type Error = WireError;

    fn take(&mut self, piece: &[u8]) -> Result<(), WireError> {
        self.feed(piece)
    }

    fn tell_next(&mut self, alloc: Global, told: &mut Text) -> Result<(), AllocError> {
        match self.next() {
            Some(packet) => tell(alloc, &packet, told),
            None => Ok(()),
        }
    }
}

/// Appends a packet, and its encoding on a new link, on which only a CNXN has its sum.
fn tell(alloc: Global, packet: &Packet, told: &mut Text) -> Result<(), AllocError>
    requires { length packet.now.payload ≤ MAX_PAYLOAD }
{
    tell_value(alloc, told, (packet.command, packet.arg0, packet.arg1))?;
    told.push_slice(b" ")?;
    frame(alloc, packet, packet.command == Command::Cnxn, told)
}

//! Cases of shell packets.

use crate::reader::Reader;
use crate::telling::{tell_bytes, tell_number};
use adb_outside::Text;
use adb_shell::{ShellError, ShellPacket, ShellReader};
use std::alloc::{AllocError, Global};

impl Reader for ShellReader {
    type Error = ShellError;

    fn take(&mut self, piece: &[u8]) -> Result<(), ShellError> {
        self.feed(piece)
    }

    fn tell_next(&mut self, _alloc: Global, told: &mut Text) -> Result<(), AllocError> {
        match self.next() {
            Some(packet) => tell(&packet, told),
            None => Ok(()),
        }
    }
}

fn tell(packet: &ShellPacket, told: &mut Text) -> Result<(), AllocError> {
    tell_number(told, b"\n", u64::from(packet.id))?;
    tell_bytes(told, b" ", packet.bytes.as_slice())
}

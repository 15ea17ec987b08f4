//! Encoding packets.

ghost use Rattle.std.specs.Prelude.{◌≡◌, ◌≤◌, ◌++◌, ◌∷◌, length, OnOk, OnErr};
ghost use Rattle.byteorder.specs.Endian.{little_bytes};
ghost use Rattle.adb_shell.specs.Packets.{spelling};

use crate::format::{HEADER_BYTES, LAST_ID, MAX_SHELL_PAYLOAD};
use adb_outside::Text;
use byteorder::{ByteOrder, LittleEndian};
use std::alloc::{AllocError, Global};

/// Appends the bytes of a packet. If an allocation fails, `out` is unchanged.
pub fn write_packet(alloc: Global, id: u8, bytes: &[u8], out: &mut Text) -> Result<(), AllocError>
    requires known { id ≤ LAST_ID }
    requires short { length bytes.now ≤ MAX_SHELL_PAYLOAD }
    ensures ok { OnOk result (out.new
        ≡ out.old ++ spelling (record { id = id; bytes = bytes.now })) }
    ensures err { OnErr result (out.new ≡ out.old) }
{
    let mut packet = Text::from_slice(alloc, &header(id, bytes.len() as u32))?;
    packet.push_slice(bytes)?;
    out.push_slice(packet.as_slice())
}

/// Returns the id and the length of a packet.
fn header(id: u8, length: u32) -> [u8; HEADER_BYTES]
    ensures { result ≡ id ∷ little_bytes 4 length }
{
    let mut header = [id; HEADER_BYTES];
    LittleEndian::write_u32(&mut header[1..], length);
    header
}

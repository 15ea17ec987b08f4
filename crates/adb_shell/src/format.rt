//! The framing of a stream of packets.

use crate::packet::{ShellFault, ShellPacket};
use adb_outside::{Format, Front, Text};
use byteorder::{ByteOrder, LittleEndian};
use std::alloc::{AllocError, Global};

/// The bytes of a header: the id and the length.
pub const HEADER_BYTES: usize = 5;

/// The largest id.
pub const LAST_ID: u8 = 5;

/// The maximum number of bytes that a packet holds.
pub const MAX_SHELL_PAYLOAD: u32 = 1_048_576;

/// The format of packets, the first of which begins at an offset of the stream.
#[derive(Clone, Copy)]
pub struct ShellFormat {
    pub offset: u64,
}

impl Format<ShellPacket, ShellFault> for ShellFormat {
    ghost use Rattle.std.specs.Prelude.{ℕ, length};
    ghost use Rattle.adb_shell.specs.Packets.{front, packet_of, past};
    ghost use Rattle.adb_shell.specs.Framed.{packets_are_framed};

    ghost find = { front };

    ghost item = { packet_of };

    ghost after = { past };

    ghost framing = { packets_are_framed };

    fn front(&self, bytes: &[u8]) -> Front<ShellFault> {
        if bytes.len() < HEADER_BYTES {
            return Front::More;
        }
        let id = bytes[0];
        if id > LAST_ID {
            return Front::Bad(ShellFault::BadId {
                offset: self.offset,
                id,
            });
        }
        let (_, after_id) = bytes.split_at(1);
        let length = LittleEndian::read_u32(after_id);
        if length > MAX_SHELL_PAYLOAD {
            return Front::Bad(ShellFault::TooLong {
                offset: self.offset,
                length,
            });
        }
        let whole = HEADER_BYTES + length as usize;
        if bytes.len() < whole {
            Front::More
        } else {
            Front::Whole(whole)
        }
    }

    fn read(&self, alloc: Global, frame: &[u8]) -> Result<ShellPacket, AllocError> {
        let (header, bytes) = frame.split_at(HEADER_BYTES);
        Ok(ShellPacket {
            id: header[0],
            bytes: Text::from_slice(alloc, bytes)?,
        })
    }

    fn past(&self, frame: &[u8]) -> ShellFormat {
        ShellFormat {
            offset: self.offset.saturating_add(frame.len() as u64),
        }
    }
}

//! The framing of a stream of packets.

ghost use Rattle.std.specs.Prelude.{◌≡◌, ◌+◌, Ok, length};
ghost use Rattle.adb_outside.specs.declared.framer.Front.{Front};
ghost use Rattle.adb_wire.specs.Header.{head_at};
ghost use Rattle.adb_wire.specs.Format.{front_of, packet_of, format_after, sum_fault};

use crate::command::Command;
use crate::headers::{HEADER_LEN, Head, HeadFault, byte_sum, read_head};
use crate::limits::VERSION;
use crate::packets::Packet;
use crate::slicer::need;
use adb_outside::{Format, Front};
use bytes::Bytes;
use std::alloc::{AllocError, Global};

/// The reason why a stream is no stream of packets from some place on (protocol.txt, "MESSAGES").
#[derive(Clone, Copy, Debug, PartialEq, Eq, Drop)]
pub enum PacketFault {
    /// The fault of the header there.
    Broken(HeadFault),
    /// The check word that the packet there carries, and the sum of its payload.
    BadSum { said: u32, is: u32 },
}

/// The reading of packets at a place of a stream: whether their check words are verified. They are
/// while the last CNXN had a version below 0x01000001.
#[derive(Clone, Copy, Debug, PartialEq, Eq, Drop)]
pub struct PacketFormat {
    pub sums: bool,
}

impl PacketFormat {
    /// Returns the fault of the check word, if it is wrong there. A CNXN may also carry 0.
    fn sum_fault(&self, head: &Head, payload: &[u8]) -> Option<PacketFault>
        ensures { result ≡ sum_fault self.now head.now payload.now }
    {
        let is_looked_at = match head.command {
            Command::Cnxn => head.check != 0,
            _ => self.sums,
        };
        if !is_looked_at {
            return None;
        }
        let is = byte_sum(payload);
        if head.check == is {
            None
        } else {
            Some(PacketFault::BadSum {
                said: head.check,
                is,
            })
        }
    }

    /// Returns the header of a whole packet.
    fn head_of(&self, frame: &[u8]) -> Head
        requires { front_of self.now frame.now ≡ Front.Whole (length frame.now) }
        ensures { head_at frame.now ≡ Ok result }
    {
        match read_head(frame) {
            Ok(head) => head,
            Err(_) => unreachable!(),
        }
    }
}

impl Format<Packet, PacketFault> for PacketFormat {
    ghost use Rattle.adb_wire.specs.FormatLaws.{packets_are_framed};

    ghost find = { front_of };

    ghost item = { λ _ frame. packet_of frame };

    ghost after = { λ format frame. format_after format (packet_of frame) };

    ghost framing = { packets_are_framed };

    fn front(&self, bytes: &[u8]) -> Front<PacketFault> {
        if bytes.len() < HEADER_LEN {
            return Front::More;
        }
        let head = match read_head(bytes) {
            Ok(head) => head,
            Err(fault) => return Front::Bad(PacketFault::Broken(fault)),
        };
        let end = HEADER_LEN + head.length as usize;
        if bytes.len() < end {
            return Front::More;
        }
        match self.sum_fault(&head, &bytes[HEADER_LEN..end]) {
            None => Front::Whole(end),
            Some(fault) => Front::Bad(fault),
        }
    }

    fn read(&self, alloc: Global, frame: &[u8]) -> Result<Packet, AllocError> {
        let head = self.head_of(frame);
        Ok(Packet {
            command: head.command,
            arg0: head.arg0,
            arg1: head.arg1,
            payload: Bytes::copy_from_slice(alloc, &frame[HEADER_LEN..])?,
        })
    }

    fn keep(&self, _alloc: Global, frame: Bytes) -> Result<Packet, AllocError> {
        let head = self.head_of(frame.as_slice());
        let mut payload = frame;
        payload.advance(HEADER_LEN);
        Ok(Packet {
            command: head.command,
            arg0: head.arg0,
            arg1: head.arg1,
            payload,
        })
    }

    fn missing(&self, bytes: &[u8]) -> Option<usize> {
        Some(need(bytes))
    }

    fn past(&self, frame: &[u8]) -> PacketFormat {
        let head = self.head_of(frame);
        match head.command {
            Command::Cnxn => PacketFormat {
                sums: head.arg0 < VERSION,
            },
            _ => *self,
        }
    }
}

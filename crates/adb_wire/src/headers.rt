//! The header of a packet, and the sum of its payload.

ghost use Rattle.std.specs.Prelude.{◌≡◌, ◌≤◌, ◌+◌, ◌*◌, Ok, length, IfOk};
ghost use Rattle.adb_wire.specs.Header.{IsHead, byte_sum_of, header_bytes, head_at, word_at};

use crate::command::Command;
use byteorder::{ByteOrder, LittleEndian};

/// The number of bytes of a header: six words of four bytes.
pub const HEADER_LEN: usize = 24;

/// The maximum number of bytes of a payload.
pub const MAX_PAYLOAD: u32 = 1_048_576;

/// The words of a header (protocol.txt, "MESSAGES"), without its magic, which is the complement of
/// the command's word.
#[derive(Clone, Copy, Debug, PartialEq, Eq, Drop)]
pub struct Head {
    pub command: Command,
    pub arg0: u32,
    pub arg1: u32,
    /// The number of bytes of payload that follow.
    pub length: u32,
    /// The check word: the sum of the payload's bytes, or 0 on links that do not use it.
    pub check: u32,
}

/// The fault of a header. Faults are checked in this order.
#[derive(Clone, Copy, Debug, PartialEq, Eq, Drop)]
pub enum HeadFault {
    /// The magic is not the complement of the command's word.
    BadMagic { command: u32, magic: u32 },
    /// The command's word is none of the seven.
    UnknownCommand(u32),
    /// The length is above `MAX_PAYLOAD`.
    TooLong(u32),
}

/// Returns the sum of the bytes, modulo 2^32. Allocates nothing.
pub fn byte_sum(payload: &[u8]) -> u32
    ensures { result ≡ byte_sum_of payload.now }
{
    let mut sum = 0u32;
    for byte in payload {
        sum = sum.wrapping_add(u32::from(*byte));
    }
    sum
}

/// Writes a header: its five words and the magic, in little-endian order. Allocates nothing.
pub fn header(head: &Head, out: &mut [u8; HEADER_LEN])
    ensures { out.new ≡ header_bytes head.now }
{
    let command = head.command.word();
    let words = [
        command,
        head.arg0,
        head.arg1,
        head.length,
        head.check,
        command ^ u32::MAX,
    ];
    LittleEndian::write_u32_into(&words, out);
}

/// Parses a header. Returns the first fault in the order of `HeadFault`; `TooLong` is returned
/// exactly if the length is above `MAX_PAYLOAD`. Allocates nothing.
pub fn read_header(bytes: &[u8; HEADER_LEN]) -> Result<Head, HeadFault>
    ensures exact { result ≡ head_at bytes.now }
    ensures spelled { IfOk result (λ head. bytes.now ≡ header_bytes head) }
    ensures read_back { (head : Head) → IsHead head → bytes.now ≡ header_bytes head
        → result ≡ Ok head }
{
    read_head(bytes)
}

/// Parses the header in the first 24 bytes.
pub(crate) fn read_head(bytes: &[u8]) -> Result<Head, HeadFault>
    requires { HEADER_LEN ≤ length bytes.now }
    ensures { result ≡ head_at bytes.now }
{
    let (command, magic) = (word(bytes, 0), word(bytes, 5));
    if magic != command ^ u32::MAX {
        return Err(HeadFault::BadMagic { command, magic });
    }
    let Some(known) = Command::from_word(command) else {
        return Err(HeadFault::UnknownCommand(command));
    };
    let length = word(bytes, 3);
    if length > MAX_PAYLOAD {
        return Err(HeadFault::TooLong(length));
    }
    Ok(Head {
        command: known,
        arg0: word(bytes, 1),
        arg1: word(bytes, 2),
        length,
        check: word(bytes, 4),
    })
}

/// Returns the word at a place of a header, of the six counted from 0.
#[tactic(auto, unfolding(crate::specs::Header::word_at))]
fn word(bytes: &[u8], place: usize) -> u32
    requires { 4 * place + 4 ≤ length bytes.now }
    ensures { result ≡ word_at place bytes.now }
{
    LittleEndian::read_u32(&bytes[4 * place..])
}

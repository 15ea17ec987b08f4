//! Parsing of the first bytes of a packet of a command.

ghost use Rattle.std.specs.Prelude.{◌≡◌};
ghost use Rattle.adb_remote_frames.specs.Heads.{exit_head, output_head, packet_head};

use crate::frame::{EXIT, STDERR, STDOUT};
use crate::head::{Head, is_front};
use byteorder::{ByteOrder, LittleEndian};

/// The maximum number of bytes in a packet of output.
pub const MAX_OUTPUT_PACKET: u32 = 1_048_576;

/// The length field of a packet with one byte.
const ONE: [u8; 4] = [1, 0, 0, 0];

/// Parses the first bytes of a packet.
pub(crate) fn packet_head(front: &[u8]) -> Head
    ensures { result ≡ packet_head front.now }
{
    match front {
        [] => Head::Short,
        [STDOUT | STDERR, digits @ ..] => output_head(digits),
        [EXIT, digits @ ..] => exit_head(digits),
        _ => Head::Stray,
    }
}

/// Parses the length of a packet of output. With zeros for the missing bytes the length is the
/// least that can follow.
fn output_head(digits: &[u8]) -> Head
    ensures { result ≡ output_head digits.now }
{
    if digits.len() > 4 {
        return Head::Stray;
    }
    let mut whole = [0; 4];
    whole[..digits.len()].copy_from_slice(digits);
    let len = LittleEndian::read_u32(&whole);
    if len > MAX_OUTPUT_PACKET {
        return Head::Stray;
    }
    if digits.len() < 4 {
        Head::Short
    } else {
        Head::Says(5 + len as usize)
    }
}

/// Parses the length of a packet with an exit status.
fn exit_head(digits: &[u8]) -> Head
    ensures { result ≡ exit_head digits.now }
{
    if !is_front(digits, &ONE) {
        return Head::Stray;
    }
    if digits.len() < 4 {
        Head::Short
    } else {
        Head::Says(6)
    }
}

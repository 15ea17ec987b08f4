//! A packet, and its encoding.

ghost use Rattle.std.specs.Prelude.{◌≡◌, ◌≤◌, ◌++◌, ℕ, List, length, if◌then◌else◌, OnOk, OnErr};
ghost use Rattle.adb_wire.specs.Header.{IsBytes, IsHead, byte_sum_of};
ghost use Rattle.adb_wire.specs.Packet.{IsPacket, spelling, check_of};
ghost use Rattle.adb_wire.specs.Cutting.{Adds};

use crate::command::Command;
use crate::headers::{HEADER_LEN, Head, MAX_PAYLOAD, byte_sum, header};
use adb_outside::Text;
use bytes::Bytes;
use std::alloc::{AllocError, Global};
use std::mem;

/// A packet (protocol.txt, "MESSAGES"). Its command defines the meaning of its arguments.
#[derive(Drop)]
pub struct Packet {
    pub command: Command,
    pub arg0: u32,
    pub arg1: u32,
    pub payload: Bytes,
}

/// Appends a packet to `out`. Its check word is the sum of the payload's bytes if `sums` is set,
/// and 0 otherwise: a CNXN goes out with its sum, and so does every packet on a link of version
/// 0x01000000. If an allocation fails, `out` is unchanged.
pub fn frame(alloc: Global, packet: &Packet, sums: bool, out: &mut Text) -> Result<(), AllocError>
    requires { length packet.now.payload ≤ MAX_PAYLOAD }
    ensures ok { OnOk result
        (out.new ≡ out.old ++ spelling packet.now (check_of sums packet.now)) }
    ensures cut { OnOk result (Adds out.old out.new packet.now (check_of sums packet.now)) }
    ensures err { OnErr result (out.new ≡ out.old) }
{
    let mut bytes = mem::replace(out, Text::new(alloc)).into_vec();
    let before = bytes.len();
    let framed = push_packet(packet, sums, &mut bytes);
    if framed.is_err() {
        bytes.truncate(before);
    }
    *out = Text::from_vec(bytes);
    framed
}

/// Appends the packet's bytes. If an allocation fails, some of them may have been appended.
fn push_packet(packet: &Packet, sums: bool, bytes: &mut Vec<u8>) -> Result<(), AllocError>
    requires { length packet.now.payload ≤ MAX_PAYLOAD }
    ensures ok { OnOk result
        (bytes.new.items ≡ bytes.old.items ++ spelling packet.now (check_of sums packet.now)) }
    ensures packet { IsPacket packet.now }
    ensures err { OnErr result ((some : List ℕ) × (bytes.new.items ≡ bytes.old.items ++ some)) }
{
    let payload = packet.payload.as_slice();
    let head = head_with(packet.command, packet.arg0, packet.arg1, payload, sums);
    let mut words = [0; HEADER_LEN];
    header(&head, &mut words);
    bytes.extend_from_slice(&words)?;
    bytes.extend_from_slice(payload)
}

/// Returns the header of a packet with these arguments and this payload.
fn head_with(command: Command, arg0: u32, arg1: u32, payload: &[u8], sums: bool) -> Head
    requires { length payload.now ≤ MAX_PAYLOAD }
    ensures head { result ≡ record {
      command = command;
      arg0 = arg0;
      arg1 = arg1;
      length = length payload.now;
      check = if sums then byte_sum_of payload.now else 0;
    } }
    ensures in_range { IsHead result }
    ensures bytes { IsBytes payload.now }
{
    Head {
        command,
        arg0,
        arg1,
        length: payload.len() as u32,
        check: if sums { byte_sum(payload) } else { 0 },
    }
}

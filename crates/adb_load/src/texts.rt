//! The bytes that the clients and the devices of a load send.

ghost use Rattle.std.specs.Prelude.{◌≡◌, ◌≤◌, ◌++◌, [], length, drop, IfOk};
ghost use Rattle.adb_load.specs.Acts.{IsShort, asked_of, device_packet, greeting, packet_of, piece_of, serial_of, up_bytes, down_bytes};

use crate::act::Piece;
use crate::names::{client_of, link_of, remote_of};
use crate::numbers::HEAD_LEN;
use crate::patterns::Pattern;
use adb_outside::Text;
use adb_wire::{Command, HEADER_LEN, Head, MAX_PAYLOAD, header};
use itoa::Buffer;
use std::alloc::{AllocError, Global};

/// Returns the serial of a device.
#[tactic(auto, using(crate::proofs::Records::serial_short))]
pub(crate) fn serial_of(alloc: Global, link: u16) -> Result<Text, AllocError>
    ensures is { IfOk result (λ t. t ≡ serial_of link) }
    ensures short { IfOk result IsShort }
{
    let mut serial = Text::from_slice(alloc, b"gen-")?;
    serial.push_slice(Buffer::new().format(link).as_bytes())?;
    Ok(serial)
}

/// Returns the first packet of a device.
pub(crate) fn greeting(alloc: Global) -> Result<Text, AllocError>
    ensures is { IfOk result (λ t. t ≡ greeting) }
    ensures short { IfOk result IsShort }
{
    let who = b"device::features=shell_v2;";
    joined(
        alloc,
        &head_of(Command::Cnxn, 0x0100_0001, 65_536, who),
        who,
    )
}

/// Returns the requests of a stream's client.
pub(crate) fn asked_of(alloc: Global, stream: u16) -> Result<Text, AllocError>
    ensures is { IfOk result (λ t. t ≡ asked_of stream) }
    ensures short { IfOk result IsShort }
{
    let mut asked = Text::from_slice(alloc, b"0013host:transport-id:")?;
    asked.push_slice(Buffer::new().format(link_of(stream)).as_bytes())?;
    asked.push_slice(b"0005echo:")?;
    Ok(asked)
}

/// Returns `count` of the bytes that a stream's client writes, from a place on.
#[tactic(auto, using(crate::proofs::Records::cycle_short))]
pub(crate) fn up_bytes(
    alloc: Global,
    pattern: &Pattern,
    stream: u16,
    from: u16,
    count: u16,
) -> Result<Text, AllocError>
    ensures is { IfOk result (λ t. t ≡ up_bytes stream from count) }
    ensures short { IfOk result IsShort }
{
    Text::from_slice(alloc, pattern.slice(u32::from(stream), from, count))
}

/// Returns a write of a stream's device, or a piece of it.
pub(crate) fn answer(
    alloc: Global,
    pattern: &Pattern,
    stream: u16,
    from: u16,
    count: u16,
    piece: Piece,
) -> Result<Text, AllocError>
    ensures is { IfOk result (λ t. t ≡ piece_of piece
        (device_packet Command.Wrte stream (down_bytes stream from count))) }
    ensures short { IfOk result IsShort }
{
    let payload = pattern.slice(2 * u32::from(stream), from, count);
    write_piece(alloc, stream, payload, piece)
}

/// Returns a write with that payload, or a piece of it.
fn write_piece(alloc: Global, stream: u16, payload: &[u8], piece: Piece) -> Result<Text, AllocError>
    requires { length payload.now ≤ MAX_PAYLOAD }
    ensures { IfOk result (λ t. t ≡ piece_of piece
        (device_packet Command.Wrte stream payload.now)) }
{
    let head = device_head(Command::Wrte, stream, payload);
    match piece {
        Piece::Whole => joined(alloc, &head, payload),
        Piece::Head => Text::from_slice(alloc, &head[..HEAD_LEN]),
        Piece::Tail => joined(alloc, rest_of(&head), payload),
    }
}

/// Returns the part of a header that comes in the second piece of its packet.
fn rest_of(head: &[u8; HEADER_LEN]) -> &[u8]
    ensures { result.now ≡ drop HEAD_LEN head.now }
{
    &head[HEAD_LEN..]
}

/// Returns a packet without a payload of a stream's device on that stream.
pub(crate) fn bare_packet(alloc: Global, command: Command, stream: u16) -> Result<Text, AllocError>
    ensures is { IfOk result (λ t. t ≡ device_packet command stream []) }
    ensures short { IfOk result IsShort }
{
    Text::from_slice(alloc, &device_head(command, stream, &[]))
}

/// Returns the header of a packet of a stream's device on that stream.
fn device_head(command: Command, stream: u16, payload: &[u8]) -> [u8; HEADER_LEN]
    requires { length payload.now ≤ MAX_PAYLOAD }
    ensures { result ++ payload.now ≡ device_packet command stream payload.now }
{
    head_of(command, remote_of(stream), client_of(stream), payload)
}

/// Returns the header of a packet with the check word 0.
fn head_of(command: Command, arg0: u32, arg1: u32, payload: &[u8]) -> [u8; HEADER_LEN]
    requires { length payload.now ≤ MAX_PAYLOAD }
    ensures { result ++ payload.now ≡ packet_of command arg0 arg1 payload.now }
{
    let mut bytes = [0; HEADER_LEN];
    let head = Head {
        command,
        arg0,
        arg1,
        length: payload.len() as u32,
        check: 0,
    };
    header(&head, &mut bytes);
    bytes
}

/// Returns some bytes followed by others.
fn joined(alloc: Global, front: &[u8], back: &[u8]) -> Result<Text, AllocError>
    ensures { IfOk result (λ t. t ≡ front.now ++ back.now) }
{
    let mut bytes = Vec::with_capacity(alloc, front.len() + back.len())?;
    bytes.extend_from_slice(front)?;
    bytes.extend_from_slice(back)?;
    Ok(Text::from_vec(bytes))
}

//! Packets that come whole.

ghost use Rattle.std.specs.Prelude.{◌≡◌, ◌≤◌, true, length, IfOk, IfSome};
ghost use Rattle.adb_wire.specs.Format.{packet_of};
ghost use Rattle.adb_wire.specs.Header.{IsBytes};
ghost use Rattle.adb_wire.specs.declared.headers.TheConstants.{MAX_PAYLOAD};
ghost use Rattle.adb_hub_links.specs.Whole.{IsAlone, IsPlain, IsWhole, StandsAlone, is_plain};

use adb_wire::{Command, HEADER_LEN, Head, Packet, VERSION, byte_sum, read_header};
use bytes::Bytes;
use std::alloc::{AllocError, Global};
use std::marker::Model;

/// A packet that came whole: its bytes, which are shared, and the header that was parsed from them.
/// Contracts see it as its bytes.
#[derive(Drop)]
pub struct Whole {
    head: Head,
    bytes: Bytes,
}

impl Model for Whole {
    ghost use Rattle.std.specs.Prelude.{List, ℕ};
    ghost use Rattle.adb_hub_links.specs.Whole.{IsWhole};

    ghost Value = { List ℕ };

    ghost view = { λ whole. whole.bytes };

    ghost invariant = { λ whole. IsWhole whole.head whole.bytes };
}

impl Whole {
    /// Returns a packet in its bytes, with the header that they begin with. Allocates nothing.
    pub fn new(head: Head, bytes: Bytes) -> Whole
        requires { IsWhole head bytes }
        ensures { result ≡ bytes }
    {
        Whole { head, bytes }
    }

    /// Returns the bytes.
    pub fn as_slice(&self) -> &[u8]
        ensures { result.now ≡ self.now }
    {
        self.bytes.as_slice()
    }

    /// Returns the packet, which shares the payload.
    pub(crate) fn packet(&self) -> Result<Packet, AllocError>
        ensures packet { IfOk result (λ packet. packet ≡ packet_of self.now) }
        ensures size { IfOk result (λ packet. length packet.payload ≤ MAX_PAYLOAD) }
    {
        let mut payload = self.bytes.clone()?;
        payload.advance(HEADER_LEN);
        Ok(Packet {
            command: self.head.command,
            arg0: self.head.arg0,
            arg1: self.head.arg1,
            payload,
        })
    }

    /// Returns whether the packet is valid on a link that verifies no check words, and does not
    /// make the link verify them afterwards.
    pub(crate) fn stands_alone(&self) -> bool
        ensures alone { result ≡ true → StandsAlone self.now (packet_of self.now) }
        ensures bytes { IsBytes self.now }
    {
        let bytes = self.bytes.as_slice();
        are_bytes(bytes);
        is_plain(&self.head, &bytes[HEADER_LEN..])
    }
}

/// Returns the packet that a piece is, if it is one packet that is valid on a link that verifies no
/// check words, and does not make the link verify them afterwards.
pub(crate) fn packet_alone(alloc: Global, piece: &[u8]) -> Result<Option<Packet>, AllocError>
    ensures { IfOk result (λ packet. IfSome packet (IsAlone piece.now)) }
{
    are_bytes(piece);
    match head_alone(piece) {
        Some(head) => {
            let payload = Bytes::copy_from_slice(alloc, &piece[HEADER_LEN..])?;
            Ok(Some(Packet {
                command: head.command,
                arg0: head.arg0,
                arg1: head.arg1,
                payload,
            }))
        }
        None => Ok(None),
    }
}

/// Returns the header of a piece that is such a packet: valid on a link that verifies no check
/// words, without making the link verify them afterwards.
fn head_alone(piece: &[u8]) -> Option<Head>
    ensures { IfSome result (λ head. IsPlain head piece.now) }
{
    let (words, payload) = piece.split_first_chunk::<HEADER_LEN>()?;
    let head = read_header(words).ok()?;
    if payload.len() == head.length as usize && is_plain(&head, payload) {
        Some(head)
    } else {
        None
    }
}

/// Returns whether a packet is valid on a link that verifies no check words, and does not make the
/// link verify them afterwards.
fn is_plain(head: &Head, payload: &[u8]) -> bool
    ensures { result ≡ is_plain head.now payload.now }
{
    match head.command {
        Command::Cnxn => {
            (head.check == 0 || head.check == byte_sum(payload)) && !(head.arg0 < VERSION)
        }
        _ => true,
    }
}

/// States that a slice consists of bytes. It does nothing: its contract is the law.
fn are_bytes(bytes: &[u8])
    ensures { IsBytes bytes.now }
{}

//! A slicer of streams into whole packets, which are not decoded, in memory that is allocated once.

ghost use Rattle.std.specs.Prelude.{◌≡◌, ◌≤◌, ◌++◌, ◌∷◌, [], ℕ, List, min, take, length, IfOk, IfSome, IsSome, ◌↔◌};
ghost use Rattle.adb_wire.specs.Slicing.{slice_len, need_of, IsSlice, HasSliced};

use crate::headers::{HEADER_LEN, MAX_PAYLOAD, read_head};
use adb_outside::ByteQueue;
use std::alloc::{AllocError, Global};
use std::marker::Model;

/// The maximum number of bytes of a packet: its header and the longest payload.
pub const MAX_PACKET: usize = HEADER_LEN + MAX_PAYLOAD as usize;

/// Returns the length of the slice that the bytes begin: a header's length while the header is not
/// whole or if it has a fault, and that of the header's packet otherwise.
#[tactic(auto, unfolding(crate::specs::Slicing::slice_len))]
fn slice_len(bytes: &[u8]) -> usize
    ensures { result ≡ slice_len bytes.now }
{
    if bytes.len() < HEADER_LEN {
        return HEADER_LEN;
    }
    match read_head(bytes) {
        Ok(head) => HEADER_LEN + head.length as usize,
        Err(_) => HEADER_LEN,
    }
}

/// Returns how many bytes are missing to that slice.
pub(crate) fn need(bytes: &[u8]) -> usize
    ensures { result ≡ need_of bytes.now }
{
    slice_len(bytes).saturating_sub(bytes.len())
}

/// A slicer of a stream: each slice is a packet whose header has no fault, or a header that has one
/// (protocol.txt, "MESSAGES"). Check words are not verified. The slicer holds one slice, or a
/// prefix of one, and allocates only when it is made. Contracts see it as the bytes that it holds.
///
/// The bytes after a faulty header have no meaning: the stream has no packets from there on.
#[derive(Drop)]
pub struct Slicer {
    held: ByteQueue,
}

impl Model for Slicer {
    ghost use Rattle.std.specs.Prelude.{List, ℕ, ◌+◌, ◌≤◌, length};
    ghost use Rattle.adb_wire.specs.declared.slicer.TheConstants.{MAX_PACKET};
    ghost use Rattle.adb_wire.specs.Slicing.{slice_len};

    ghost Value = { List ℕ };

    ghost view = { λ slicer. slicer.held.bytes };

    ghost invariant = { λ slicer. (length slicer.held.bytes ≤ slice_len slicer.held.bytes)
        × (MAX_PACKET ≤ length slicer.held.bytes + slicer.held.spare) };
}

impl Slicer {
    /// Returns a slicer to which nothing was fed. Fails if the allocation of memory for the longest
    /// packet fails.
    pub fn new(alloc: Global) -> Result<Slicer, AllocError>
        ensures value { IfOk result (λ slicer. slicer ≡ []) }
        ensures stands { IfOk result (λ slicer. HasSliced [] [] slicer) }
    {
        let mut held = ByteQueue::new(alloc);
        held.reserve(MAX_PACKET)?;
        Ok(Slicer { held })
    }

    /// Takes bytes from the start of a piece: as many as are missing to 24 bytes, and then to the
    /// packet that the header describes. Returns how many it took: all of a shorter piece, and 0
    /// exactly if a slice is whole or the piece is empty. Allocates nothing.
    pub fn take(&mut self, piece: &[u8]) -> usize
        ensures taken { result ≡ min (length piece.now) (need_of self.old) }
        ensures held { self.new ≡ self.old ++ take result piece.now }
        ensures stands { (fed : List ℕ) (gave : List (List ℕ)) → HasSliced fed gave self.old
            → HasSliced (fed ++ take result piece.now) gave self.new }
    {
        let n = piece.len().min(need(self.held.as_slice()));
        self.held.push_spare(&piece[..n]);
        n
    }

    /// Returns the slice that is held; `None` exactly if bytes are missing to it. Allocates
    /// nothing.
    pub fn whole(&self) -> Option<&[u8]>
        ensures whole { IsSome result ↔ (need_of self.now ≡ 0) }
        ensures bytes { IfSome result (λ bytes. bytes.now ≡ self.now) }
        ensures slice { IfSome result (λ bytes. IsSlice bytes.now) }
    {
        let bytes = self.held.as_slice();
        if need(bytes) == 0 { Some(bytes) } else { None }
    }

    /// Returns the held bytes: a slice, or a prefix of one. Allocates nothing.
    pub fn held(&self) -> &[u8]
        ensures { result.now ≡ self.now }
    {
        self.held.as_slice()
    }

    /// Removes the held bytes; if they were a whole slice, the next one follows. Allocates nothing.
    pub fn clear(&mut self)
        ensures value { self.new ≡ [] }
        ensures stands { (fed : List ℕ) (gave : List (List ℕ)) → need_of self.old ≡ 0
            → HasSliced fed gave self.old → HasSliced fed (gave ++ self.old ∷ []) self.new }
    {
        self.held.clear();
    }
}

//! The packets that a device sends, each in memory of its own.

ghost use Rattle.std.specs.Prelude.{◌≡◌, ◌<◌, ◌≤◌, ◌+◌, ◌++◌, [], ℕ, List, take, length, min, IfOk, IfSome, IfNone, IsSome, MatchResult, ◌↔◌, ◌∷◌};
ghost use Rattle.adb_wire.specs.Slicing.{need_of, IsSlice, HasSliced};
ghost use Rattle.adb_server_device_reader.specs.Packets.{Shares};

use adb_hub::Whole;
use adb_wire::{HEADER_LEN, Head, Slicer, read_header};
use bytes::BytesMut;
use std::alloc::{AllocError, AllocFailed, Global};
use std::marker::Model;

/// A prefix of a packet, at least its header, in a buffer with room for the whole packet. Contracts
/// see its bytes.
#[derive(Drop)]
struct Front {
    head: Head,
    bytes: BytesMut,
}

impl Model for Front {
    ghost use Rattle.std.specs.Prelude.{List, ℕ};
    ghost use Rattle.adb_server_device_reader.specs.Packets.{IsFrontOf};

    ghost Value = { List ℕ };

    ghost view = { λ front. front.bytes.items };

    ghost invariant = { λ front. IsFrontOf front.head front.bytes };
}

impl Front {
    ghost use Rattle.adb_wire.specs.Slicing.{slice_len};

    /// Makes the buffer of a packet of which only the header came. Returns `None` if the header has
    /// a fault or the allocation fails.
    fn begin(alloc: Global, held: &[u8]) -> Option<Front>
        ensures held { IfSome result (λ front. front ≡ held.now) }
        ensures within { IfSome result (λ front. length front ≤ slice_len front) }
    {
        if held.len() != HEADER_LEN {
            return None;
        }
        let mut words = [0; HEADER_LEN];
        words.copy_from_slice(held);
        let head = read_header(&words).ok()?;
        let len = HEADER_LEN + head.length as usize;
        let mut bytes = BytesMut::with_capacity(alloc, len).ok()?;
        bytes.extend_reserved(held);
        Some(Front { head, bytes })
    }

    /// Returns how many bytes are missing.
    fn missing(&self) -> usize
        ensures { result ≡ need_of self.now }
    {
        HEADER_LEN + self.head.length as usize - self.bytes.len()
    }

    /// Takes bytes from the beginning of a piece, and returns how many.
    fn take(&mut self, piece: &[u8]) -> usize
        ensures taken { result ≡ min (length piece.now) (need_of self.old) }
        ensures held { self.new ≡ self.old ++ take result piece.now }
    {
        let n = piece.len().min(self.missing());
        self.bytes.extend_reserved(&piece[..n]);
        n
    }

    /// Returns the packet if it is whole.
    fn whole(&self) -> Option<&[u8]>
        ensures whole { IsSome result ↔ (need_of self.now ≡ 0) }
        ensures bytes { IfSome result (λ bytes. bytes.now ≡ self.now) }
        ensures slice { IfSome result (λ bytes. IsSlice bytes.now) }
    {
        if self.missing() == 0 {
            Some(self.bytes.as_slice())
        } else {
            None
        }
    }

    /// Returns the whole packet in shared memory.
    ///
    /// `Err`: an allocation failed. The buffer is returned unchanged.
    fn share(self) -> Result<Whole, Front>
        requires { need_of self ≡ 0 }
        ensures { MatchResult result (λ whole. whole ≡ self) (λ front. front ≡ self) }
    {
        let Front { head, bytes } = self;
        match bytes.freeze() {
            Ok(bytes) => Ok(Whole::new(head, bytes)),
            Err(AllocFailed { value }) => Err(Front { head, bytes: value }),
        }
    }
}

/// Cuts the bytes of a device into packets, as a `Slicer` does. A packet for which an allocation
/// succeeds is gathered in memory of its own and is given out with that memory. Contracts see the
/// bytes that it holds.
#[derive(Drop)]
pub struct Packets {
    alloc: Global,
    slicer: Slicer,
    own: Option<Front>,
}

impl Model for Packets {
    ghost use Rattle.std.specs.Prelude.{List, ℕ};
    ghost use Rattle.adb_server_device_reader.specs.Packets.{held_of, IsAlone};

    ghost Value = { List ℕ };

    ghost view = { λ packets. held_of packets.own packets.slicer };

    ghost invariant = { λ packets. IsAlone packets.own packets.slicer };
}

impl Packets {
    /// Makes a value that was fed nothing. It allocates the memory of the longest packet.
    pub fn new(alloc: Global) -> Result<Packets, AllocError>
        ensures { IfOk result (λ packets. packets ≡ []) }
    {
        Ok(Packets {
            alloc,
            slicer: Slicer::new(alloc)?,
            own: None,
        })
    }

    /// Takes bytes from the beginning of a piece, and returns how many: as many as are missing to
    /// the 24 bytes of a header, and then to the packet that the header announces.
    pub(crate) fn take(&mut self, piece: &[u8]) -> usize
        ensures taken { result ≡ min (length piece.now) (need_of self.old) }
        ensures held { self.new ≡ self.old ++ take result piece.now }
        ensures stands { (fed : List ℕ) (gave : List (List ℕ)) → HasSliced fed gave self.old
            → HasSliced (fed ++ take result piece.now) gave self.new }
    {
        if let Some(front) = &mut self.own {
            return front.take(piece);
        }
        let n = self.slicer.take(piece);
        self.begin();
        n
    }

    /// Allocates memory for a packet of which the header came, if the allocation succeeds.
    fn begin(&mut self)
        ensures { self.new ≡ self.old }
    {
        if self.own.is_some() {
            return;
        }
        if let Some(front) = Front::begin(self.alloc, self.slicer.held()) {
            self.slicer.clear();
            self.own = Some(front);
        }
    }

    /// Takes the packet that is held, if it is whole and has memory of its own that can be shared.
    /// Nothing is held then. If it returns `None`, nothing changes.
    pub(crate) fn share(&mut self) -> Option<Whole>
        ensures some { IfSome result (Shares self.old self.new) }
        ensures none { IfNone result (self.new ≡ self.old) }
    {
        let front = self.own.take()?;
        if front.missing() > 0 {
            self.own = Some(front);
            return None;
        }
        match front.share() {
            Ok(whole) => Some(whole),
            Err(front) => {
                self.own = Some(front);
                None
            }
        }
    }

    /// Returns the slice that is held. `None` exactly if bytes of it are missing.
    pub(crate) fn whole(&self) -> Option<&[u8]>
        ensures whole { IsSome result ↔ (need_of self.now ≡ 0) }
        ensures bytes { IfSome result (λ bytes. bytes.now ≡ self.now) }
        ensures slice { IfSome result (λ bytes. IsSlice bytes.now) }
    {
        match &self.own {
            Some(front) => front.whole(),
            None => self.slicer.whole(),
        }
    }

    /// Returns the bytes that are held: a slice, or a prefix of one.
    pub(crate) fn held(&self) -> &[u8]
        ensures { result.now ≡ self.now }
    {
        match &self.own {
            Some(front) => front.bytes.as_slice(),
            None => self.slicer.held(),
        }
    }

    /// Discards all bytes that are held. If they were whole, they were the next slice.
    pub fn clear(&mut self)
        ensures value { self.new ≡ [] }
        ensures stands { (fed : List ℕ) (gave : List (List ℕ)) → need_of self.old ≡ 0
            → HasSliced fed gave self.old → HasSliced fed (gave ++ self.old ∷ []) self.new }
    {
        self.own = None;
        self.slicer.clear();
    }
}

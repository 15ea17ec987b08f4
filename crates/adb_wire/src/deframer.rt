//! The packets of a stream that comes in pieces.

ghost use Rattle.std.specs.Prelude.{◌≡◌, ◌≢◌, ◌<◌, ◌≤◌, ◌++◌, [], List, ℕ, length, Some, None, true, is_some, IfOk, IfSome, MatchOption};
ghost use Rattle.adb_wire.specs.declared.headers.TheConstants.{MAX_PAYLOAD};

use crate::format::{PacketFault, PacketFormat};
use crate::headers::HeadFault;
use crate::packets::Packet;
use crate::slicer::need;
use adb_outside::{FeedError, Framer};
use std::alloc::{AllocError, Global};
use std::marker::Model;

/// The reason why a piece was not taken, or not taken to its end.
#[derive(Clone, Copy, Debug, PartialEq, Eq, Drop)]
pub enum WireError {
    /// An allocation failed. Nothing changed.
    OutOfMemory,
    /// A header is wrong.
    Broken(HeadFault),
    /// A packet carries the check word `said`, and the sum of its payload is another.
    BadSum { said: u32, is: u32 },
}

/// A parser that cuts a stream into packets, whatever pieces it comes in. It holds the bytes past
/// the last whole packet and the packets that were not taken yet, never the whole stream.
#[derive(Drop)]
pub struct Deframer {
    framer: Framer<PacketFormat, Packet, PacketFault>,
}

impl Model for Deframer {
    ghost use Rattle.adb_wire.specs.Deframing.{Deframing};

    ghost Value = { Deframing };

    ghost use Rattle.adb_wire.specs.Deframing.{IsSound};

    ghost view = { λ d. d.framer };

    ghost invariant = { λ d. IsSound d.framer };
}

impl Deframer {
    ghost use Rattle.adb_wire.specs.Deframing.{StandsFor, Takes, Gives, Waits, answer_of, no_bytes};
    ghost use Rattle.adb_wire.specs.Slicing.{need_of};
    ghost use Rattle.adb_wire.specs.Cutting.{cut_packets};

    /// Returns a deframer to which nothing was fed. Allocates nothing.
    pub fn new(alloc: Global) -> Deframer
        ensures value { result ≡ no_bytes }
        ensures stands { StandsFor [] [] result }
    {
        Deframer {
            framer: Framer::new(alloc, PacketFormat { sums: false }),
        }
    }

    /// Takes the next piece of the stream, of any length.
    ///
    /// `OutOfMemory`: an allocation failed; nothing changed. `Broken` and `BadSum`: returned
    /// exactly if this is the first fault of all the bytes fed so far: that of a header once its 24
    /// bytes are there, that of a check word once the payload is whole. A check word is verified in
    /// a CNXN, which carries 0 or its sum, and in other packets while the last CNXN had a version
    /// below 0x01000001. At the first fault the packets before it are kept and can still be taken;
    /// every later call returns the same fault and takes nothing.
    pub fn feed(&mut self, piece: &[u8]) -> Result<(), WireError>
        ensures answer { result ≢ Err WireError.OutOfMemory → result ≡ answer_of self.new.fault }
        ensures taken { result ≢ Err WireError.OutOfMemory → Takes self.old piece.now self.new }
        ensures stays { (fault : PacketFault) → self.old.fault ≡ Some fault
            → result ≡ answer_of (Some fault) }
        ensures memory { result ≡ Err WireError.OutOfMemory → self.new ≡ self.old }
    {
        match self.framer.feed(piece) {
            Ok(()) => Ok(()),
            Err(FeedError::OutOfMemory) => Err(WireError::OutOfMemory),
            Err(FeedError::Fault(PacketFault::Broken(fault))) => Err(WireError::Broken(fault)),
            Err(FeedError::Fault(PacketFault::BadSum { said, is })) => {
                Err(WireError::BadSum { said, is })
            }
        }
    }

    /// Takes the next packet. Returns `None` exactly if no further whole packet was fed. Allocates
    /// nothing.
    pub fn next(&mut self) -> Option<Packet>
        ensures given { Gives self.old self.new result }
        ensures sized { IfSome result (λ packet. length packet.payload ≤ MAX_PAYLOAD) }
    {
        self.framer.next()
    }

    /// Returns how many bytes are missing, at least, until a packet is whole or a fault is there: a
    /// shorter piece completes nothing. If there is a fault, no packet ever completes, and the
    /// result is `usize::MAX`. Allocates nothing.
    pub fn missing(&self) -> usize
        ensures value { MatchOption self.now.fault (result ≡ need_of self.now.rest)
            (λ _. result ≡ usize.MAX) }
        ensures some { 0 < result }
        ensures short { self.now.fault ≡ None → (piece : List ℕ) → length piece < result
            → Waits self.now piece }
    {
        match self.framer.fault() {
            None => need(self.framer.rest()),
            Some(_) => usize::MAX,
        }
    }

    /// Returns whether the deframer is like a new one: it holds nothing and verifies no check
    /// words. Allocates nothing.
    pub fn is_fresh(&self) -> bool
        ensures { result ≡ true → self.now ≡ no_bytes }
    {
        match self.framer.idle() {
            Some(format) => !format.sums,
            None => false,
        }
    }

    /// Returns whether the bytes that were fed have a fault.
    pub fn is_broken(&self) -> bool
        ensures { result ≡ is_some self.now.fault }
    {
        self.framer.fault().is_some()
    }

    /// Returns another deframer that holds the same bytes, but none of the packets, and takes a
    /// further piece. This deframer stays as it is. No payload is copied twice. Fails if an
    /// allocation fails.
    pub fn with_piece(&mut self, piece: &[u8]) -> Result<Deframer, AllocError>
        requires { self.old.fault ≡ None }
        ensures stays { self.new ≡ self.old }
        ensures next { IfOk result (λ next.
            next ≡ cut_packets self.old.reading (self.old.rest ++ piece.now)) }
    {
        Ok(Deframer {
            framer: self.framer.with_piece(piece)?,
        })
    }
}

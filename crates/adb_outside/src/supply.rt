//! The bytes of a text, read piece by piece.

ghost use Rattle.std.specs.Prelude.{◌≡◌, ◌≢◌, ◌≤◌, ◌<◌, ℕ, length, Some};
ghost use Rattle.adb_outside.specs.Source.{FitsBuffer, TellsRead};
ghost use Rattle.adb_outside.specs.Memory.{GivesPiece};

use crate::byte_queue::ByteQueue;
use crate::source::Got;
use crate::text::Text;
use std::marker::Model;

/// The bytes of a text that were not read yet. Each call gives at most a fixed number of them.
#[derive(Drop)]
pub struct Supply {
    bytes: ByteQueue,
    piece: usize,
}

impl Model for Supply {
    ghost use Rattle.std.specs.Prelude.{◌<◌};
    ghost use Rattle.adb_outside.specs.Memory.{Supplied};

    ghost Value = { Supplied };

    ghost view = { λ s. record { coming = s.bytes.bytes; piece = s.piece } };

    ghost invariant = { λ s. 0 < s.piece };
}

impl Supply {
    /// Returns the bytes of a text, of which each call gives at most `piece`. Allocates nothing.
    pub fn new(bytes: Text, piece: usize) -> Supply
        requires { 1 ≤ piece }
        ensures { result ≡ record { coming = bytes; piece = piece } }
    {
        Supply {
            bytes: ByteQueue::from_text(bytes),
            piece,
        }
    }

    /// Copies the first of the bytes that are left into the buffer.
    pub fn give(&mut self, into: &mut [u8]) -> Got
        requires { 0 < length into.old }
        ensures fits { FitsBuffer into.old result }
        ensures told { TellsRead (Some self.old.coming) (Some self.new.coming) into.new result }
        ensures sound { result ≢ Got.Failed }
        ensures gives { GivesPiece self.old.piece self.old.coming into.old result }
        ensures same { self.new.piece ≡ self.old.piece }
    {
        let rest = self.bytes.as_slice();
        let n = rest.len().min(self.piece).min(into.len());
        if n == 0 {
            return Got::End;
        }
        into[..n].copy_from_slice(&rest[..n]);
        self.bytes.take(n);
        Got::Bytes(n)
    }
}

//! Shared bytes in two slices.

ghost use Rattle.std.specs.Prelude.{◌≡◌, ◌≤◌, ◌++◌, length, take, drop};

use crate::hand_out::Parts;
use bytes::Bytes;
use std::marker::Model;

/// Shared bytes in two consecutive slices, so that a text that spans two buffers needs no copy into
/// one. Either slice may be empty. Contracts see them as one list.
#[derive(Drop)]
pub struct SplitBytes {
    front: Bytes,
    back: Bytes,
}

impl Model for SplitBytes {
    ghost use Rattle.std.specs.Prelude.{◌++◌, List, ℕ};

    ghost Value = { List ℕ };

    ghost view = { λ s. s.front ++ s.back };
}

impl SplitBytes {
    /// Returns one slice followed by another. Allocates nothing.
    pub fn new(front: Bytes, back: Bytes) -> SplitBytes
        ensures { result ≡ front ++ back }
    {
        SplitBytes { front, back }
    }

    /// Returns bytes that lie in one slice. Allocates nothing.
    pub fn whole(bytes: Bytes) -> SplitBytes
        ensures { result ≡ bytes }
    {
        SplitBytes {
            front: bytes,
            back: Bytes::new(),
        }
    }

    /// Returns the two parts of the bytes.
    pub fn parts(&self) -> Parts<'_>
        ensures { result.start.now ++ result.rest.now ≡ self.now }
    {
        Parts {
            start: self.front.as_slice(),
            rest: self.back.as_slice(),
        }
    }

    /// Returns the number of bytes.
    pub fn len(&self) -> usize
        ensures { result ≡ length self.now }
    {
        self.front.len() + self.back.len()
    }

    /// Returns the first slice, or the second if the first is empty.
    pub fn first(&self) -> &Bytes
        ensures { result.now ≡ take (length result.now) self.now }
    {
        if self.front.is_empty() {
            &self.back
        } else {
            &self.front
        }
    }

    /// Removes the first `n` bytes. Allocates nothing.
    pub fn advance(&mut self, n: usize)
        requires { n ≤ length self.old }
        ensures { self.new ≡ drop n self.old }
    {
        let some = n.min(self.front.len());
        self.front.advance(some);
        self.back.advance(n - some);
    }
}

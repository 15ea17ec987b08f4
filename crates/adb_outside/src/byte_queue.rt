//! A queue of bytes.

ghost use Rattle.std.specs.Prelude.{◌≡◌, ◌==◌, ◌≤◌, ◌+◌, ◌++◌, [], length, take, drop, IsOk, OnErr, OnOk};

use crate::text::Text;
use bytes::BytesMut;
use std::alloc::{AllocError, Global};
use std::marker::Model;

/// The number of bytes that may be taken before memory that still holds others is given back.
const FEW: usize = 64 * 1024;

/// Bytes that are appended at the end and taken from the start. Contracts see them and the spare
/// capacity, which is how many more bytes fit without an allocation. The space of bytes that were
/// taken is reused. Bytes move only when room is made or memory is given back, so all calls
/// together take time linear in the bytes.
#[derive(Drop)]
pub struct ByteQueue {
    alloc: Global,
    bytes: BytesMut,
    /// The number of bytes taken since the memory was allocated.
    gone: usize,
}

impl Model for ByteQueue {
    ghost use Rattle.adb_outside.specs.Queued.{Queued};

    ghost Value = { Queued };

    ghost view = { λ queue. record { bytes = queue.bytes.items; spare = queue.bytes.spare } };
}

impl ByteQueue {
    /// Returns an empty queue. Allocates nothing.
    pub fn new(alloc: Global) -> ByteQueue
        ensures bytes { result.bytes ≡ [] }
        ensures spare { result.spare ≡ 0 }
    {
        ByteQueue {
            alloc,
            bytes: BytesMut::new(alloc),
            gone: 0,
        }
    }

    /// Returns a queue of the bytes of a text, which is moved. Allocates nothing.
    pub fn from_text(text: Text) -> ByteQueue
        ensures { result.bytes ≡ text }
    {
        let bytes = text.into_vec();
        ByteQueue {
            alloc: *bytes.allocator(),
            bytes: BytesMut::from_vec(bytes),
            gone: 0,
        }
    }

    /// Returns the bytes.
    pub fn as_slice(&self) -> &[u8]
        ensures { result.now ≡ self.now.bytes }
    {
        self.bytes.as_slice()
    }

    /// Returns the number of bytes.
    pub fn len(&self) -> usize
        ensures { result ≡ length self.now.bytes }
    {
        self.bytes.len()
    }

    /// Returns whether the queue is empty.
    pub fn is_empty(&self) -> bool
        ensures { result ≡ (length self.now.bytes == 0) }
    {
        self.bytes.is_empty()
    }

    /// Returns how many more bytes fit without an allocation.
    pub fn spare(&self) -> usize
        ensures { result ≡ self.now.spare }
    {
        self.bytes.capacity() - self.bytes.len()
    }

    /// Reserves room for `n` bytes. If an allocation fails, the queue is unchanged.
    pub fn reserve(&mut self, n: usize) -> Result<(), AllocError>
        ensures bytes { self.new.bytes ≡ self.old.bytes }
        ensures spare { self.old.spare ≤ self.new.spare }
        ensures room { OnOk result (n ≤ self.new.spare) }
        ensures has_room { n ≤ self.old.spare → IsOk result }
    {
        self.bytes.reserve(n)
    }

    /// Appends bytes for which there is room. Allocates nothing.
    pub fn push_spare(&mut self, bytes: &[u8])
        requires { length bytes.now ≤ self.old.spare }
        ensures bytes { self.new.bytes ≡ self.old.bytes ++ bytes.now }
        ensures spare { self.new.spare + length bytes.now ≡ self.old.spare }
    {
        self.bytes.extend_reserved(bytes);
    }

    /// Appends bytes. If an allocation fails, the bytes are unchanged.
    pub fn push(&mut self, bytes: &[u8]) -> Result<(), AllocError>
        ensures ok { OnOk result (self.new.bytes ≡ self.old.bytes ++ bytes.now) }
        ensures err { OnErr result (self.new.bytes ≡ self.old.bytes) }
        ensures spare { self.old.spare ≤ self.new.spare + length bytes.now }
        ensures has_room { length bytes.now ≤ self.old.spare → IsOk result }
    {
        self.reserve(bytes.len())?;
        self.push_spare(bytes);
        Ok(())
    }

    /// Removes the first `n` bytes. Allocates nothing.
    pub fn take(&mut self, n: usize)
        requires { n ≤ length self.old.bytes }
        ensures bytes { self.new.bytes ≡ drop n self.old.bytes }
        ensures spare { self.old.spare ≤ self.new.spare }
    {
        self.bytes.advance(n);
        self.gone = self.gone.saturating_add(n);
        if self.bytes.is_empty() {
            self.bytes.clear();
        }
    }

    /// Removes all bytes after the first `n`. Allocates nothing.
    pub fn truncate(&mut self, n: usize)
        ensures bytes { self.new.bytes ≡ take n self.old.bytes }
        ensures spare { length self.new.bytes + self.new.spare
            ≡ length self.old.bytes + self.old.spare }
    {
        self.bytes.truncate(n);
    }

    /// Removes all bytes. Allocates nothing.
    pub fn clear(&mut self)
        ensures bytes { self.new.bytes ≡ [] }
        ensures spare { length self.old.bytes + self.old.spare ≤ self.new.spare }
    {
        self.bytes.clear();
    }

    /// Gives back memory that is large for the few bytes it holds: all of it if the queue is empty,
    /// and otherwise the excess over a copy, once several times as many bytes were taken. An
    /// allocation failure is ignored. The spare capacity may fall.
    pub fn give_back(&mut self)
        ensures { self.new.bytes ≡ self.old.bytes }
    {
        if self.bytes.is_empty() {
            self.renew(BytesMut::new(self.alloc));
        } else if self.gone > FEW && self.gone / 4 > self.bytes.len() {
            if let Ok(bytes) = BytesMut::copy_from_slice(self.alloc, self.bytes.as_slice()) {
                self.renew(bytes);
            }
        }
    }

    /// Moves the bytes to new memory.
    fn renew(&mut self, bytes: BytesMut)
        requires { bytes.items ≡ self.old.bytes }
        ensures { self.new.bytes ≡ self.old.bytes }
    {
        self.bytes = bytes;
        self.gone = 0;
    }
}

//! Bytes that are gathered in one buffer.

ghost use Rattle.std.specs.Prelude.{◌≡◌, ◌<◌, ◌≤◌, ◌^◌, ◌++◌, [], length, take, drop, IfOk, OnOk, OnErr};

use crate::slices::behind;
use adb_outside::MIN_SHARED;
use bytes::Bytes;
use std::alloc::{AllocError, Global};
use std::marker::Model;

/// The number of held bytes at which a client has no more room: one more than the longest request
/// with its length. Up to this many bytes are gathered in one buffer, so that the bytes that a
/// client sends while a packet is on its way lie in one buffer.
pub const MAX_HELD: usize = 65_540;

/// A buffer to which bytes are appended, and of which the first may have been removed. Contracts
/// see the bytes that are left.
#[derive(Drop)]
pub(crate) struct Gathered {
    alloc: Global,
    bytes: Vec<u8>,
    gone: usize,
}

impl Model for Gathered {
    ghost use Rattle.std.specs.Prelude.{◌≤◌, ℕ, List, drop, vec_len};

    ghost Value = { List ℕ };

    ghost view = { λ g. drop g.gone g.bytes.items };

    ghost invariant = { λ g. g.gone ≤ vec_len g.bytes };
}

impl Gathered {
    /// Returns a buffer without bytes. Allocates nothing.
    pub(crate) fn new(alloc: Global) -> Gathered
        ensures { result ≡ [] }
    {
        Gathered {
            alloc,
            bytes: Vec::new(alloc),
            gone: 0,
        }
    }

    pub(crate) fn len(&self) -> usize
        ensures value { result ≡ length self.now }
        ensures bound { result < 2 ^ 63 }
    {
        self.bytes.len() - self.gone
    }

    pub(crate) fn as_slice(&self) -> &[u8]
        ensures { result.now ≡ self.now }
    {
        behind(self.bytes.as_slice(), self.gone)
    }

    /// Returns whether this many more bytes are to be gathered with those in the buffer: there is
    /// room for both, or the buffer holds fewer, so that moving them costs less than copying the
    /// new ones.
    pub(crate) fn has_room(&self, more: usize) -> bool {
        more <= MAX_HELD.saturating_sub(self.len()) || self.len() < more
    }

    /// Appends bytes. Reuses the space of the removed bytes if they are at least as many as those
    /// left.
    pub(crate) fn push(&mut self, more: &[u8]) -> Result<(), AllocError>
        ensures ok { OnOk result (self.new ≡ self.old ++ more.now) }
        ensures err { OnErr result (self.new ≡ self.old) }
    {
        let room = room_for(self.len(), more.len());
        if self.gone < self.len() {
            self.bytes.reserve(room)?;
        } else {
            self.renew(room)?;
        }
        self.bytes.extend_from_slice(more)
    }

    /// Moves the bytes to a buffer that has this much room after them.
    fn renew(&mut self, room: usize) -> Result<(), AllocError>
        ensures { self.new ≡ self.old }
    {
        let mut memory = Vec::with_capacity(self.alloc, self.len().saturating_add(room))?;
        memory.extend_from_slice(self.as_slice())?;
        self.bytes = memory;
        self.gone = 0;
        Ok(())
    }

    /// Keeps the first `n` bytes. Allocates nothing.
    pub(crate) fn truncate(&mut self, n: usize)
        ensures { self.new ≡ take n self.old }
    {
        self.bytes.truncate(self.gone.saturating_add(n));
    }

    /// Removes the first `n` bytes. Allocates nothing.
    pub(crate) fn advance(&mut self, n: usize)
        requires { n ≤ length self.old }
        ensures { self.new ≡ drop n self.old }
    {
        self.gone += n;
    }

    /// Removes all bytes and returns them as a slice, without a copy.
    pub(crate) fn freeze(&mut self) -> Result<Bytes, AllocError>
        ensures all { IfOk result (λ bytes. bytes ≡ self.old) }
        ensures none { OnOk result (self.new ≡ []) }
        ensures err { OnErr result (self.new ≡ self.old) }
    {
        let memory = std::mem::replace(&mut self.bytes, Vec::new(self.alloc));
        match Bytes::from_vec(memory) {
            Ok(all) => {
                let mut all = all;
                all.advance(self.gone);
                self.gone = 0;
                Ok(all)
            }
            Err(failed) => {
                self.bytes = failed.value;
                Err(AllocError)
            }
        }
    }
}

/// Returns how much room to make for more bytes after `len` bytes: with the first large piece, room
/// also for the bytes that follow it.
fn room_for(len: usize, more: usize) -> usize {
    if more < MIN_SHARED {
        return more;
    }
    MAX_HELD.saturating_sub(len).max(more)
}

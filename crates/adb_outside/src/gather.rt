//! A buffer that gathers bytes and then shares them.

ghost use Rattle.std.specs.Prelude.{◌≡◌, ◌==◌, ◌≤◌, ◌++◌, [], length, take, OnOk, OnErr, IfOk, MatchResult};
ghost use Rattle.adb_outside.specs.Gathered.{IsApart};

use bytes::{Bytes, BytesMut};
use std::alloc::{AllocError, AllocFailed, Global};
use std::marker::Model;
use std::mem;

/// Bytes that are appended until all of them are shared as one slice, without a copy. Contracts see
/// them as a list. The buffer may still hold a prefix of the bytes that it shared.
#[derive(Drop)]
pub(crate) struct Gather {
    alloc: Global,
    /// The shared bytes. If there are any, no bytes are growing.
    shared: Bytes,
    growing: BytesMut,
}

impl Model for Gather {
    ghost use Rattle.std.specs.Prelude.{List, ℕ, ◌++◌};
    ghost use Rattle.adb_outside.specs.Gathered.{IsApart};

    ghost Value = { List ℕ };

    ghost view = { λ g. g.shared ++ g.growing.items };

    ghost invariant = { λ g. IsApart g.shared g.growing.items };
}

impl Gather {
    /// Returns a buffer without bytes. Allocates nothing.
    pub(crate) fn new(alloc: Global) -> Gather
        ensures { result ≡ [] }
    {
        Gather::of(alloc, Bytes::new())
    }

    /// Returns a buffer of shared bytes. Allocates nothing.
    pub(crate) fn of(alloc: Global, shared: Bytes) -> Gather
        ensures { result ≡ shared }
    {
        Gather {
            alloc,
            shared,
            growing: BytesMut::new(alloc),
        }
    }

    /// Returns the bytes.
    pub(crate) fn as_slice(&self) -> &[u8]
        ensures { result.now ≡ self.now }
    {
        if self.shared.is_empty() {
            self.growing.as_slice()
        } else {
            self.shared.as_slice()
        }
    }

    /// Returns whether there are no bytes.
    pub(crate) fn is_empty(&self) -> bool
        ensures { result ≡ (length self.now == 0) }
    {
        self.as_slice().is_empty()
    }

    /// Appends bytes. If an allocation fails, the bytes are unchanged.
    pub(crate) fn push(&mut self, piece: &[u8]) -> Result<(), AllocError>
        ensures ok { OnOk result (self.new ≡ self.old ++ piece.now) }
        ensures err { OnErr result (self.new ≡ self.old) }
    {
        grow(self.alloc, &mut self.shared, &mut self.growing, piece)
    }

    /// Removes all bytes after the first `n`. Allocates nothing.
    pub(crate) fn truncate(&mut self, n: usize)
        ensures { self.new ≡ take n self.old }
    {
        self.growing.truncate(n.saturating_sub(self.shared.len()));
        self.shared.truncate(n);
    }

    /// Returns the bytes followed by a piece, as one slice. The bytes are copied only if others
    /// still share them. They stay in the buffer.
    pub(crate) fn join(&mut self, piece: &[u8]) -> Result<Bytes, AllocError>
        ensures all { IfOk result (λ all. all ≡ self.old ++ piece.now) }
        ensures stays { self.new ≡ self.old }
    {
        let len = self.as_slice().len();
        grow(self.alloc, &mut self.shared, &mut self.growing, piece)?;
        let growing = mem::replace(&mut self.growing, BytesMut::new(self.alloc));
        match growing.freeze() {
            Ok(all) => share_front(&mut self.shared, all, len),
            Err(AllocFailed { value }) => {
                self.growing = value;
                self.growing.truncate(len);
                Err(AllocError)
            }
        }
    }
}

/// Appends bytes to those that grow. Shared bytes become growing ones first.
fn grow(
    alloc: Global,
    shared: &mut Bytes,
    growing: &mut BytesMut,
    piece: &[u8],
) -> Result<(), AllocError>
    requires { IsApart shared.old growing.old.items }
    ensures none { OnOk result (shared.new ≡ []) }
    ensures ok { OnOk result
        (growing.new.items ≡ (shared.old ++ growing.old.items) ++ piece.now) }
    ensures apart { IsApart shared.new growing.new.items }
    ensures err { OnErr result
        (shared.new ++ growing.new.items ≡ shared.old ++ growing.old.items) }
{
    if !shared.is_empty() {
        match own(alloc, mem::replace(shared, Bytes::new())) {
            Ok(bytes) => *growing = bytes,
            Err(bytes) => {
                *shared = bytes;
                return Err(AllocError);
            }
        }
    }
    growing.extend_from_slice(piece)
}

/// Returns bytes that can grow: a copy if others share them too.
fn own(alloc: Global, shared: Bytes) -> Result<BytesMut, Bytes>
    ensures { MatchResult result (λ own. own.items ≡ shared) (λ back. back ≡ shared) }
{
    match shared.try_into_mut() {
        Ok(bytes) => Ok(bytes),
        Err(shared) => match BytesMut::copy_from_slice(alloc, shared.as_slice()) {
            Ok(bytes) => Ok(bytes),
            Err(_) => Err(shared),
        },
    }
}

/// Stores the first `len` bytes of a slice in `front`, which is empty, and returns the whole slice.
fn share_front(front: &mut Bytes, all: Bytes, len: usize) -> Result<Bytes, AllocError>
    requires { len ≤ length all }
    ensures given { IfOk result (λ given. given ≡ all) }
    ensures front { front.new ≡ take len all }
{
    match all.slice(0..len) {
        Ok(some) => {
            *front = some;
            Ok(all)
        }
        Err(error) => {
            let mut some = all;
            some.truncate(len);
            *front = some;
            Err(error)
        }
    }
}

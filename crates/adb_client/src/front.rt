//! A slice of which pieces can be cut off without an allocation.

ghost use Rattle.std.specs.Prelude.{◌≡◌, ◌<◌, ◌≤◌, ◌+◌, ◌-◌, ◌^◌, [], length, take, drop, vec_len, All, IfOk, OnOk, OnErr};
ghost use Rattle.adb_client.specs.Input.{EndsWith};

use crate::slices::share;
use bytes::Bytes;
use std::alloc::{AllocError, Global};
use std::marker::Model;

/// A slice with handles that were made in advance. Each handle becomes a part of the slice by
/// dropping bytes at both ends, which allocates nothing.
#[derive(Drop)]
pub(crate) struct Front {
    alloc: Global,
    bytes: Bytes,
    handles: Vec<Bytes>,
}

impl Model for Front {
    ghost use Rattle.std.specs.Prelude.{All, vec_len};
    ghost use Rattle.adb_client.specs.Input.{EndsWith, Handled};

    ghost Value = { Handled };

    ghost view = { λ f. record { bytes = f.bytes; handles = vec_len f.handles } };

    ghost invariant = { λ f. All (EndsWith f.bytes) f.handles.items };
}

impl Front {
    /// Returns an empty slice. Allocates nothing.
    pub(crate) fn new(alloc: Global) -> Front
        ensures { result ≡ record { bytes = []; handles = 0 } }
    {
        Front::bare(alloc, Bytes::new())
    }

    /// Returns a slice without handles. Allocates nothing.
    pub(crate) fn bare(alloc: Global, bytes: Bytes) -> Front
        ensures { result ≡ record { bytes = bytes; handles = 0 } }
    {
        Front {
            alloc,
            bytes,
            handles: Vec::new(alloc),
        }
    }

    /// Returns a slice with this many handles.
    pub(crate) fn held(alloc: Global, bytes: Bytes, handles: usize) -> Result<Front, AllocError>
        ensures { IfOk result (λ front. front ≡ record { bytes = bytes; handles = handles }) }
    {
        let handles = handles_of(alloc, &bytes, handles)?;
        Ok(Front {
            alloc,
            bytes,
            handles,
        })
    }

    /// Replaces the handles by this many new ones.
    pub(crate) fn hold(&mut self, handles: usize) -> Result<(), AllocError>
        ensures ok { OnOk result (self.new ≡ record self.old { handles = handles }) }
        ensures err { OnErr result (self.new ≡ self.old) }
    {
        self.handles = handles_of(self.alloc, &self.bytes, handles)?;
        Ok(())
    }

    pub(crate) fn as_slice(&self) -> &[u8]
        ensures { result.now ≡ self.now.bytes }
    {
        self.bytes.as_slice()
    }

    pub(crate) fn len(&self) -> usize
        ensures value { result ≡ length self.now.bytes }
        ensures bound { result < 2 ^ 63 }
    {
        self.bytes.len()
    }

    /// Keeps the first `n` bytes, without handles. Allocates nothing.
    pub(crate) fn truncate(&mut self, n: usize)
        ensures { self.new ≡ record { bytes = take n self.old.bytes; handles = 0 } }
    {
        self.handles.clear();
        self.bytes.truncate(n);
    }

    /// Removes the first `n` bytes. Allocates nothing.
    pub(crate) fn advance(&mut self, n: usize)
        requires { n ≤ length self.old.bytes }
        ensures { self.new ≡ record self.old { bytes = drop n self.old.bytes } }
    {
        self.bytes.advance(n);
    }

    /// Removes the first `n` bytes and returns them as a slice, for which it takes a handle if
    /// there is one. Allocates nothing.
    pub(crate) fn cut(&mut self, n: usize) -> Bytes
        requires within { n ≤ length self.old.bytes }
        requires handle { 0 < n → 0 < self.old.handles }
        ensures piece { result ≡ take n self.old.bytes }
        ensures rest { self.new.bytes ≡ drop n self.old.bytes }
        ensures handles { self.old.handles ≤ self.new.handles + 1 }
    {
        if n == 0 {
            return Bytes::new();
        }
        let handle = self.handles.pop().unwrap_or(Bytes::new());
        let piece = part(handle, self.bytes.len(), n);
        self.bytes.advance(n);
        piece
    }
}

/// Returns this many handles of a slice, each of all its bytes.
fn handles_of(alloc: Global, front: &Bytes, n: usize) -> Result<Vec<Bytes>, AllocError>
    ensures ends { IfOk result (λ handles. All (EndsWith front.now) handles.items) }
    ensures len { IfOk result (λ handles. vec_len handles ≡ n) }
{
    let mut handles = Vec::with_capacity(alloc, n)?;
    for _ in 0..n {
        handles.push(share(front)?)?;
    }
    Ok(handles)
}

/// Returns the first `n` of a handle's last `len` bytes.
fn part(handle: Bytes, len: usize, n: usize) -> Bytes
    ensures { result ≡ take n (drop (length handle - len) handle) }
{
    let mut piece = handle;
    piece.advance(piece.len().saturating_sub(len));
    piece.truncate(n);
    piece
}

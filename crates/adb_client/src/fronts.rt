//! The first held bytes, prepared for cutting.

ghost use Rattle.std.specs.Prelude.{◌≡◌, ◌<◌, ◌≤◌, ◌+◌, ◌-◌, ◌^◌, ◌++◌, [], length, take, drop, IfOk, IfSome, OnOk, OnErr};
ghost use Rattle.std.specs.Bool.{◌==◌};
ghost use Rattle.adb_client.specs.Input.{Handled};

use crate::front::Front;
use crate::slices::first;
use crate::tail::Tail;
use adb_outside::SplitBytes;
use bytes::Bytes;
use std::alloc::{AllocError, Global};
use std::marker::Model;

/// Up to two consecutive slices, of which pieces can be cut off, so that bytes that span two
/// buffers are sent without a copy.
#[derive(Drop)]
pub(crate) struct Fronts {
    alloc: Global,
    first: Front,
    second: Front,
    /// The number of bytes that can be cut off without an allocation, and the number of pieces.
    ready: usize,
    cuts: usize,
}

impl Model for Fronts {
    ghost use Rattle.adb_client.specs.Input.{Ahead};
    ghost use Rattle.adb_client.specs.Fronts.{ahead, IsAhead};

    ghost Value = { Ahead };

    ghost view = { ahead };

    ghost invariant = { IsAhead };
}

impl Fronts {
    /// Returns slices without bytes. Allocates nothing.
    pub(crate) fn new(alloc: Global) -> Fronts
        ensures { result ≡ record { bytes = []; ready = 0; cuts = 0 } }
    {
        Fronts {
            alloc,
            first: Front::new(alloc),
            second: Front::new(alloc),
            ready: 0,
            cuts: 0,
        }
    }

    /// Returns a slice that is ready, in this many pieces.
    pub(crate) fn whole(alloc: Global, bytes: Bytes, cuts: usize) -> Result<Fronts, AllocError>
        ensures { IfOk result (λ fronts. fronts ≡ record {
          bytes = bytes;
          ready = length bytes;
          cuts = cuts;
        }) }
    {
        let ready = bytes.len();
        Ok(Fronts {
            alloc,
            first: Front::held(alloc, bytes, cuts)?,
            second: Front::new(alloc),
            ready,
            cuts,
        })
    }

    pub(crate) fn len(&self) -> usize
        ensures value { result ≡ length self.now.bytes }
        ensures bound { result < 2 ^ 63 }
    {
        self.first.len() + self.second.len()
    }

    pub(crate) fn is_empty(&self) -> bool
        ensures { result ≡ (length self.now.bytes == 0) }
    {
        self.len() == 0
    }

    /// Returns how many bytes can be cut off without an allocation.
    pub(crate) fn ready(&self) -> usize
        ensures value { result ≡ self.now.ready }
        ensures within { result ≤ length self.now.bytes }
    {
        self.ready
    }

    /// Returns in how many pieces.
    pub(crate) fn cuts(&self) -> usize
        ensures { result ≡ self.now.cuts }
    {
        self.cuts
    }

    /// Returns the bytes, if they lie in one slice.
    pub(crate) fn as_slice(&self) -> Option<&[u8]>
        ensures { IfSome result (λ bytes. bytes.now ≡ self.now.bytes) }
    {
        if self.second.len() == 0 {
            Some(self.first.as_slice())
        } else {
            None
        }
    }

    /// Appends a copy of the first `n` bytes to `to`.
    pub(crate) fn copy_to(&self, n: usize, to: &mut Vec<u8>) -> Result<(), AllocError>
        requires { n ≤ length self.now.bytes }
        ensures { OnOk result (to.new.items ≡ to.old.items ++ take n self.now.bytes) }
    {
        let some = n.min(self.first.len());
        to.extend_from_slice(first(self.first.as_slice(), some))?;
        to.extend_from_slice(first(self.second.as_slice(), n - some))
    }

    /// Appends the first slices of a tail, while there are fewer than `n` bytes and fewer than two
    /// slices.
    pub(crate) fn take_from(&mut self, rest: &mut Tail, n: usize) -> Result<(), AllocError>
        requires bound { length self.old.bytes + length rest.old < 2 ^ 63 }
        ensures bytes { self.new.bytes ++ rest.new ≡ self.old.bytes ++ rest.old }
        ensures same { (self.new.ready ≡ self.old.ready) × (self.new.cuts ≡ self.old.cuts) }
    {
        if self.first.len() == 0 && 0 < n {
            self.first = Front::bare(self.alloc, rest.take_front()?);
        }
        let len = self.first.len();
        if self.second.len() == 0 && 0 < len && len < n {
            self.second = Front::bare(self.alloc, rest.take_front()?);
        }
        Ok(())
    }

    /// Makes the first `ready` bytes ready, in `cuts` pieces.
    pub(crate) fn hold(&mut self, ready: usize, cuts: usize) -> Result<(), AllocError>
        requires within { ready ≤ length self.old.bytes }
        requires more { self.old.cuts ≤ cuts }
        ensures ok { OnOk result (self.new ≡ record self.old { ready = ready; cuts = cuts }) }
        ensures err { OnErr result (self.new ≡ self.old) }
    {
        self.first.hold(cuts)?;
        if ready > self.first.len() {
            self.second.hold(cuts)?;
        }
        self.ready = ready;
        self.cuts = cuts;
        Ok(())
    }

    /// Keeps the first `n` bytes, of which none are ready. Allocates nothing.
    pub(crate) fn truncate(&mut self, n: usize)
        ensures { self.new ≡ record { bytes = take n self.old.bytes; ready = 0; cuts = 0 } }
    {
        self.ready = 0;
        self.cuts = 0;
        self.second.truncate(n.saturating_sub(self.first.len()));
        self.first.truncate(n);
    }

    /// Removes the first `n` bytes. Allocates nothing.
    pub(crate) fn advance(&mut self, n: usize)
        requires { n ≤ length self.old.bytes }
        ensures rest { self.new ≡ record self.old {
          bytes = drop n self.old.bytes;
          ready = self.old.ready - n;
        } }
        ensures within { self.old.ready ≤ length self.old.bytes }
    {
        let some = n.min(self.first.len());
        self.first.advance(some);
        self.second.advance(n - some);
        self.ready = self.ready.saturating_sub(n);
        move_up(self.alloc, &mut self.first, &mut self.second);
    }

    /// Removes the first `n` bytes, which are ready, and returns them. Allocates nothing.
    pub(crate) fn cut(&mut self, n: usize) -> SplitBytes
        requires within { n ≤ self.old.ready }
        requires cut { 0 < self.old.cuts }
        ensures piece { result ≡ take n self.old.bytes }
        ensures rest { self.new ≡ record {
          bytes = drop n self.old.bytes;
          ready = self.old.ready - n;
          cuts = self.old.cuts - 1;
        } }
        ensures within { self.old.ready ≤ length self.old.bytes }
    {
        let some = n.min(self.first.len());
        let front = self.first.cut(some);
        let back = self.second.cut(n - some);
        self.ready -= n;
        self.cuts -= 1;
        move_up(self.alloc, &mut self.first, &mut self.second);
        SplitBytes::new(front, back)
    }
}

/// Replaces the first slice by the second if the first is empty, and frees its memory.
fn move_up(alloc: Global, front: &mut Front, next: &mut Front)
    ensures bytes { front.new.bytes ++ next.new.bytes ≡ front.old.bytes ++ next.old.bytes }
    ensures none { length front.old.bytes ≡ 0
        → (front.new ≡ next.old) × (next.new ≡ record { bytes = []; handles = 0 }) }
    ensures some { 0 < length front.old.bytes → (front.new ≡ front.old) × (next.new ≡ next.old) }
{
    if front.len() == 0 {
        *front = std::mem::replace(next, Front::new(alloc));
    }
}

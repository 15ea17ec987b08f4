//! The held input of a client.

ghost use Rattle.std.specs.Prelude.{◌≡◌, ◌<◌, ◌≤◌, ◌+◌, ◌-◌, ◌^◌, ◌++◌, [], length, take, drop, max, IsOk, IfOk, OnOk, OnErr};
ghost use Rattle.adb_client.specs.Ask.{asked_in};

use crate::ask::{Asked, ask_in};
use crate::fronts::Fronts;
use crate::slices::behind;
use crate::tail::Tail;
use adb_outside::{MIN_SHARED, SplitBytes};
use bytes::Bytes;
use std::alloc::{AllocError, Global};
use std::marker::Model;

/// The maximum number of held bytes.
const MAX_LEN: usize = isize::MAX as usize;

/// The held bytes, in order: the first of them prepared for cutting, and the rest.
#[derive(Drop)]
pub(crate) struct Input {
    alloc: Global,
    fronts: Fronts,
    rest: Tail,
}

impl Model for Input {
    ghost use Rattle.std.specs.Prelude.{◌++◌, ◌+◌, ◌<◌, ◌^◌, length};
    ghost use Rattle.adb_client.specs.Input.{Incoming};

    ghost Value = { Incoming };

    ghost view = { λ i. record {
      held = i.fronts.bytes ++ i.rest;
      ready = i.fronts.ready;
      cuts = i.fronts.cuts;
    } };

    ghost invariant = { λ i. length i.fronts.bytes + length i.rest < 2 ^ 63 };
}

impl Input {
    /// Returns an input without bytes. Allocates nothing.
    pub(crate) fn new(alloc: Global) -> Input
        ensures { result ≡ record { held = []; ready = 0; cuts = 0 } }
    {
        Input {
            alloc,
            fronts: Fronts::new(alloc),
            rest: Tail::new(alloc),
        }
    }

    /// Returns how many bytes are held.
    pub(crate) fn len(&self) -> usize
        ensures value { result ≡ length self.now.held }
        ensures bound { result < 2 ^ 63 }
    {
        self.fronts.len() + self.rest.len()
    }

    /// Appends bytes that came. Fails if an allocation fails, or if all bytes together would be too
    /// many to count.
    pub(crate) fn take_in(&mut self, piece: &[u8]) -> Result<(), AllocError>
        ensures ok { OnOk result (self.new ≡ record self.old {
          held = self.old.held ++ piece.now;
        }) }
        ensures err { OnErr result (self.new ≡ self.old) }
    {
        if piece.len() > MAX_LEN - self.len() {
            return Err(AllocError);
        }
        self.gather_front()?;
        self.rest.push(piece)
    }

    /// Gathers the rest of the first slices again if it is short and no bytes follow it, so that it
    /// lies in one buffer with the bytes that come.
    fn gather_front(&mut self) -> Result<(), AllocError>
        ensures { self.new ≡ self.old }
    {
        let is_kept = self.fronts.ready() > 0
            || self.fronts.len() >= MIN_SHARED
            || !self.rest.is_empty();
        if self.fronts.is_empty() || is_kept {
            return Ok(());
        }
        if let Some(few) = self.fronts.as_slice() {
            self.rest.push(few)?;
            self.fronts.advance(self.fronts.len());
        }
        Ok(())
    }

    /// Removes the last `n` held bytes. None are ready afterwards. Allocates nothing.
    pub(crate) fn take_back(&mut self, n: usize)
        requires { n ≤ length self.old.held }
        ensures { self.new ≡ record {
          held = take (length self.old.held - n) self.old.held;
          ready = 0;
          cuts = 0;
        } }
    {
        let left = self.len() - n;
        self.rest.truncate(left.saturating_sub(self.fronts.len()));
        self.fronts.truncate(left);
    }

    /// Returns the first request from a place on.
    pub(crate) fn ask_from(&self, at: usize) -> Result<Asked, AllocError>
        requires { at ≤ length self.now.held }
        ensures asked { IfOk result (λ asked. asked ≡ asked_in (drop at self.now.held)) }
        ensures within { IfOk result (λ asked. at + asked.len ≤ length self.now.held) }
    {
        if self.fronts.is_empty()
            && let Some(bytes) = self.rest.as_slice()
        {
            return ask_in(self.alloc, behind(bytes, at));
        }
        let all = self.joined(self.len())?;
        ask_in(self.alloc, behind(all.as_slice(), at))
    }

    /// Returns a copy of the first `n` bytes, in one slice.
    fn joined(&self, n: usize) -> Result<Bytes, AllocError>
        requires { n ≤ length self.now.held }
        ensures { IfOk result (λ bytes. bytes ≡ take n self.now.held) }
    {
        let mut all = Vec::with_capacity(self.alloc, n)?;
        let some = n.min(self.fronts.len());
        self.fronts.copy_to(some, &mut all)?;
        self.rest.copy_to(n - some, &mut all)?;
        Ok(Bytes::from_vec(all)?)
    }

    /// Removes the first `n` bytes. Allocates nothing.
    pub(crate) fn pass_over(&mut self, n: usize)
        requires { n ≤ length self.old.held }
        ensures { self.new ≡ record self.old {
          held = drop n self.old.held;
          ready = self.old.ready - n;
        } }
    {
        let some = n.min(self.fronts.len());
        self.fronts.advance(some);
        self.rest.advance(n - some);
        self.give_back();
    }

    /// Frees memory that only holds removed bytes.
    fn give_back(&mut self)
        ensures { self.new ≡ self.old }
    {
        if self.rest.is_empty() {
            self.rest = Tail::new(self.alloc);
        }
    }

    /// Makes at least the first `n` bytes ready, in at least `cuts` pieces.
    pub(crate) fn prepare_cuts(&mut self, n: usize, cuts: usize) -> Result<(), AllocError>
        requires { n ≤ length self.old.held }
        ensures ok { OnOk result (self.new ≡ record self.old {
          ready = max n self.old.ready;
          cuts = max cuts self.old.cuts;
        }) }
        ensures err { OnErr result (self.new ≡ self.old) }
        ensures is_ready { n ≤ self.old.ready → cuts ≤ self.old.cuts → IsOk result }
    {
        if n <= self.fronts.ready() && cuts <= self.fronts.cuts() {
            return Ok(());
        }
        let ready = n.max(self.fronts.ready());
        self.fronts.take_from(&mut self.rest, ready)?;
        let cuts = cuts.max(self.fronts.cuts());
        self.hold_cuts(ready, cuts)
    }

    /// Makes the first `ready` bytes ready, in `cuts` pieces: up to two slices as they are, and
    /// more as a copy.
    fn hold_cuts(&mut self, ready: usize, cuts: usize) -> Result<(), AllocError>
        requires within { ready ≤ length self.old.held }
        requires more { self.old.cuts ≤ cuts }
        ensures ok { OnOk result (self.new ≡ record self.old { ready = ready; cuts = cuts }) }
        ensures err { OnErr result (self.new ≡ self.old) }
    {
        let before = self.fronts.len();
        if ready <= before {
            return self.fronts.hold(ready, cuts);
        }
        let all = self.joined(ready)?;
        let fronts = Fronts::whole(self.alloc, all, cuts)?;
        self.rest.advance(ready - before);
        self.fronts = fronts;
        Ok(())
    }

    /// Removes the first `n` bytes, which are ready, and returns them. Allocates nothing.
    pub(crate) fn cut_ready(&mut self, n: usize) -> SplitBytes
        requires within { n ≤ self.old.ready }
        requires cut { 0 < self.old.cuts }
        ensures piece { result ≡ take n self.old.held }
        ensures rest { self.new ≡ record {
          held = drop n self.old.held;
          ready = self.old.ready - n;
          cuts = self.old.cuts - 1;
        } }
    {
        let piece = self.fronts.cut(n);
        self.give_back();
        piece
    }
}

//! The output queue of a client.

ghost use Rattle.std.specs.Prelude.{◌≡◌, ◌<◌, ◌≤◌, ◌+◌, ◌-◌, ◌++◌, [], length, take, drop, max, IsOk, IfOk, OnOk, OnErr};
ghost use Rattle.adb_client.specs.declared.gathered.TheConstants.{MAX_HELD};
ghost use Rattle.std.specs.VecDeque.{deque_len, deque_capacity};

use crate::slices::{Slice, fill, first, put_back, share_front};
use adb_outside::{HandOut, MAX_START, MIN_SHARED, Text};
use bytes::{Bytes, BytesMut};
use std::alloc::{AllocError, Global};
use std::collections::VecDeque;
use std::marker::Model;

/// The maximum number of bytes of a slice that is queued in a reserved place: the longest payload
/// of a packet.
pub const MAX_SLICE: usize = 1_048_576;

/// States the numbers that definitions take from the code.
pub fn limits_are()
    ensures slice { MAX_SLICE ≡ 1048576 }
    ensures held { MAX_HELD ≡ 65540 }
{}

/// The maximum number of bytes of all slices, including those with a reserved place, so that the
/// length of the queue fits a `usize`.
const MAX_DUE: usize = 1 << 63;

/// The number of bytes, and of places for slices, that may stay allocated while the queue is empty.
const FEW_BYTES: usize = 16 * 1024;

const FEW_SLICES: usize = 64;

/// The number of slices up to which room is made for exactly as many as are requested.
const EXACT: usize = 2;

/// The queued bytes: own bytes, and shared slices among them, with the places that are reserved for
/// more of both. Bytes that were handed out are removed.
#[derive(Drop)]
pub(crate) struct Output {
    alloc: Global,
    slices: VecDeque<Slice>,
    /// The number of bytes of the slices.
    shared: usize,
    /// The number of reserved places for slices.
    places: usize,
    own: BytesMut,
    /// The number of own bytes before the last slice.
    before: usize,
    /// The number of reserved places for own bytes.
    spare: usize,
}

impl Model for Output {
    ghost use Rattle.adb_client.specs.Output.{Outgoing};

    ghost Value = { Outgoing };

    ghost use Rattle.adb_client.specs.Slices.{outgoing, IsQueue};

    ghost view = { outgoing };

    ghost invariant = { IsQueue };
}

impl Output {
    /// Returns an empty queue without reserved places. Allocates nothing.
    pub(crate) fn new(alloc: Global) -> Output
        ensures { result ≡ record { due = []; spare = 0; places = 0 } }
    {
        Output {
            alloc,
            slices: VecDeque::new(alloc),
            shared: 0,
            places: 0,
            own: BytesMut::new(alloc),
            before: 0,
            spare: 0,
        }
    }

    /// Returns how many bytes are queued.
    pub(crate) fn owed(&self) -> usize
        ensures { result ≡ length self.now.due }
    {
        self.shared + self.own.len()
    }

    /// Makes the spare capacity at least `n`.
    pub(crate) fn reserve(&mut self, n: usize) -> Result<(), AllocError>
        ensures ok { OnOk result (self.new ≡ record self.old { spare = max n self.old.spare }) }
        ensures err { OnErr result (self.new ≡ self.old) }
        ensures has_room { n ≤ self.old.spare → IsOk result }
    {
        self.own.reserve(n)?;
        self.spare = self.spare.max(n);
        Ok(())
    }

    /// Makes the reserved places at least `n`. Fails if an allocation fails, or if the bytes of
    /// that many slices could not be counted.
    pub(crate) fn reserve_slices(&mut self, n: usize) -> Result<(), AllocError>
        ensures ok { OnOk result (self.new ≡ record self.old { places = max n self.old.places }) }
        ensures err { OnErr result (self.new ≡ self.old) }
        ensures has_room { n ≤ self.old.places → IsOk result }
    {
        if n <= self.places {
            return Ok(());
        }
        if n > (MAX_DUE - self.shared) / MAX_SLICE {
            return Err(AllocError);
        }
        make_room(&mut self.slices, n)?;
        self.places = n;
        Ok(())
    }

    /// Queues a copy of the bytes.
    pub(crate) fn owe(&mut self, bytes: &[u8]) -> Result<(), AllocError>
        ensures ok { OnOk result (self.new ≡ record self.old { due = self.old.due ++ bytes.now }) }
        ensures err { OnErr result (self.new ≡ self.old) }
    {
        let Some(places) = self.spare.checked_add(bytes.len()) else {
            return Err(AllocError);
        };
        self.own.reserve(places)?;
        self.own.extend_reserved(bytes);
        Ok(())
    }

    /// Queues bytes in reserved places. Allocates nothing.
    pub(crate) fn owe_spare(&mut self, bytes: &[u8])
        requires { length bytes.now ≤ self.old.spare }
        ensures { self.new ≡ record self.old {
          due = self.old.due ++ bytes.now;
          spare = self.old.spare - length bytes.now;
        } }
    {
        self.own.extend_reserved(bytes);
        self.spare -= bytes.len();
    }

    /// Queues a slice in a reserved place, without a copy. Allocates nothing.
    pub(crate) fn owe_slice_spare(&mut self, bytes: Bytes)
        requires place { 0 < self.old.places }
        requires size { length bytes ≤ MAX_SLICE }
        ensures { self.new ≡ record self.old {
          due = self.old.due ++ bytes;
          places = self.old.places - 1;
        } }
    {
        self.places -= 1;
        if bytes.is_empty() {
            return;
        }
        self.shared += bytes.len();
        self.slices.push_back_reserved(Slice {
            before: self.own.len() - self.before,
            bytes,
        });
        self.before = self.own.len();
    }

    /// Returns the first `max` queued bytes, or all if there are fewer. They are shared if the
    /// first slice alone contains them, and otherwise copied; a few bytes are copied without an
    /// allocation if no slice is queued.
    pub(crate) fn front(&self, max: usize) -> Result<HandOut, AllocError>
        ensures { IfOk result (λ bytes. bytes ≡ take max self.now.due) }
    {
        let n = max.min(self.owed());
        if let Some(bytes) = share_front(&self.slices, n) {
            return Ok(HandOut::shared(bytes));
        }
        if self.slices.is_empty() && n <= MAX_START {
            return Ok(HandOut::framed(first(self.own.as_slice(), n), Bytes::new()));
        }
        let mut text = Text::from_vec(Vec::with_capacity(self.alloc, n)?);
        fill(&mut text, &self.slices, self.own.as_slice(), max)?;
        Ok(HandOut::own(text))
    }

    /// Returns how many bytes to hand out at once, at most `max`, so that no large slice is copied:
    /// those of a large slice that comes first, or otherwise those before it; `max` if there is
    /// none among these.
    pub(crate) fn front_len(&self, max: usize) -> usize
        requires { 0 < max }
        ensures { (0 < result) × (result ≤ max) }
    {
        let mut short: usize = 0;
        for i in 0..self.slices.len() {
            let slice = &self.slices[i];
            short = short.saturating_add(slice.before);
            if short >= max {
                break;
            }
            let len = slice.bytes.len();
            if len >= MIN_SHARED {
                return if short == 0 { len.min(max) } else { short };
            }
            short = short.saturating_add(len);
        }
        max
    }

    /// Removes the first `n` bytes, which were handed out. Needs no memory.
    pub(crate) fn hand(&mut self, n: usize)
        requires { n ≤ length self.old.due }
        ensures { self.new ≡ record self.old { due = drop n self.old.due } }
    {
        let mut left = n;
        while left > 0 {
            left -= self.hand_first(left);
        }
        self.give_back();
    }

    /// Removes at most the first `n` bytes, of the first slice alone or of the own bytes before it.
    /// Returns how many it removed.
    fn hand_first(&mut self, n: usize) -> usize
        requires { (0 < n) × (n ≤ length self.old.due) }
        ensures count { (0 < result) × (result ≤ n) }
        ensures due { self.new ≡ record self.old { due = drop result self.old.due } }
    {
        let Some(mut slice) = self.slices.pop_front() else {
            self.own.advance(n);
            return n;
        };
        if slice.before > 0 {
            let taken = n.min(slice.before);
            self.own.advance(taken);
            self.before -= taken;
            slice.before -= taken;
            self.slices.push_front_reserved(slice);
            return taken;
        }
        let taken = n.min(slice.bytes.len());
        self.shared -= taken;
        slice.bytes.advance(taken);
        put_back(&mut self.slices, slice);
        taken
    }

    /// Frees memory that only holds bytes that were handed out, but not the reserved places.
    fn give_back(&mut self)
        ensures { self.new ≡ self.old }
    {
        if self.slices.is_empty()
            && self.slices.capacity() > FEW_SLICES.saturating_add(self.places)
            && let Ok(slices) = VecDeque::with_capacity(self.alloc, self.places)
        {
            self.slices = slices;
        }
        if self.own.is_empty()
            && self.own.capacity() > FEW_BYTES.saturating_add(self.spare)
            && let Ok(own) = BytesMut::with_capacity(self.alloc, self.spare)
        {
            self.own = own;
        }
    }
}

/// Makes room for `n` more slices: for exactly these if they are few and there are few others.
fn make_room(slices: &mut VecDeque<Slice>, n: usize) -> Result<(), AllocError>
    ensures items { slices.new.items ≡ slices.old.items }
    ensures len { deque_len slices.new ≡ deque_len slices.old }
    ensures capacity { deque_capacity slices.old ≤ deque_capacity slices.new }
    ensures ok { OnOk result (deque_len slices.new + n ≤ deque_capacity slices.new) }
{
    if n <= EXACT && slices.len() < EXACT {
        slices.reserve_exact(n)
    } else {
        slices.reserve(n)
    }
}

//! The queue of outgoing packets.

ghost use Rattle.std.specs.Prelude.{◌≡◌, ◌<◌, ◌≤◌, ◌+◌, ◌-◌, ◌++◌, [], length, take, drop, max, IfOk, IfSome, OnOk, OnErr};
ghost use Rattle.std.specs.List.{concat};

use crate::outgoing::Outgoing;
use adb_outside::{HandOut, MIN_SHARED, Text};
use adb_wire::MAX_PACKET;
use std::alloc::{AllocError, Global};
use std::collections::VecDeque;
use std::marker::Model;

/// Queued packets, and places for more that need no allocation: a place holds one packet, whatever
/// its payload. Contracts see the queued bytes and the number of spare places.
#[derive(Drop)]
pub(crate) struct Outbox {
    packets: VecDeque<Outgoing>,
    owed: usize,
    spare: usize,
}

impl Model for Outbox {
    ghost use Rattle.adb_link.specs.Outbox.{Queue, IsBox};
    ghost use Rattle.std.specs.List.{concat};
    ghost use Rattle.std.specs.VecDeque.{deque_len, deque_capacity};

    ghost Value = { Queue };

    ghost view = { λ o. record { due = concat o.packets.items; spare = o.spare } };

    ghost invariant = { λ o. IsBox o.packets.items o.owed o.spare (deque_len o.packets)
        (deque_capacity o.packets) };
}

impl Outbox {
    /// Returns an empty queue without spare places. Allocates nothing.
    pub(crate) fn new(alloc: Global) -> Outbox
        ensures { result ≡ record { due = []; spare = 0 } }
    {
        Outbox {
            packets: VecDeque::new(alloc),
            owed: 0,
            spare: 0,
        }
    }

    /// Reserves places for `n` packets. If an allocation fails, or if that many bytes could not be
    /// counted, the queue is unchanged.
    pub(crate) fn reserve(&mut self, n: usize) -> Result<(), AllocError>
        ensures ok { OnOk result (self.new ≡ record self.old { spare = max n self.old.spare }) }
        ensures err { OnErr result (self.new ≡ self.old) }
    {
        let n = n.max(self.spare);
        if n > (usize::MAX - self.owed) / MAX_PACKET {
            return Err(AllocError);
        }
        self.packets.reserve(n)?;
        self.spare = n;
        Ok(())
    }

    /// Queues a packet in a spare place. Allocates nothing.
    pub(crate) fn push_spare(&mut self, packet: Outgoing)
        requires place { 0 < self.old.spare }
        requires some { 0 < length packet }
        requires fits { length packet ≤ MAX_PACKET }
        ensures { self.new ≡ record { due = self.old.due ++ packet; spare = self.old.spare - 1 } }
    {
        self.owed += packet.len();
        self.packets.push_back_reserved(packet);
        self.spare -= 1;
    }

    /// Queues a packet. If an allocation fails, the queue is unchanged.
    pub(crate) fn push(&mut self, packet: Outgoing) -> Result<(), AllocError>
        requires some { 0 < length packet }
        requires fits { length packet ≤ MAX_PACKET }
        ensures ok { OnOk result (self.new ≡ record self.old { due = self.old.due ++ packet }) }
        ensures err { OnErr result (self.new ≡ self.old) }
    {
        let places = self.spare + 1;
        self.reserve(places)?;
        self.push_spare(packet);
        Ok(())
    }

    /// Returns how many bytes are queued.
    pub(crate) fn owed(&self) -> usize
        ensures { result ≡ length self.now.due }
    {
        self.owed
    }

    /// Returns the first `max` queued bytes, or all if there are fewer. The payload is shared if
    /// the first packet alone contains them, in one slice of it; otherwise the bytes are copied.
    pub(crate) fn front(&self, alloc: Global, max: usize) -> Result<HandOut, AllocError>
        ensures { IfOk result (λ bytes. bytes ≡ take max self.now.due) }
    {
        let n = max.min(self.owed);
        if let Some(shared) = share(&self.packets, n)? {
            return Ok(shared);
        }
        let mut text = Text::from_vec(Vec::with_capacity(alloc, n)?);
        fill(&mut text, &self.packets, max)?;
        Ok(HandOut::own(text))
    }

    /// Returns how many bytes to hand out at once, at most `max`, so that no large payload slice is
    /// copied: those of the first packet up to the end of its first slice if that is large, or
    /// those before the first large slice. Looks at no packet after these.
    pub(crate) fn front_len(&self, max: usize) -> usize
        requires { 0 < max }
        ensures { (0 < result) × (result ≤ max) }
    {
        let mut short: usize = 0;
        for i in 0..self.packets.len() {
            if short >= max {
                break;
            }
            let packet = &self.packets[i];
            let len = packet.first_len();
            if len >= MIN_SHARED {
                return if short == 0 { len.min(max) } else { short };
            }
            short = short.saturating_add(len);
            if len < packet.len() && short > 0 {
                return short.min(max);
            }
        }
        max
    }

    /// Removes the first `n` bytes, which were handed out. Allocates nothing.
    pub(crate) fn hand(&mut self, n: usize)
        requires { n ≤ length self.old.due }
        ensures { self.new ≡ record self.old { due = drop n self.old.due } }
    {
        let mut left = n;
        while left > 0 {
            left -= self.hand_first(left);
        }
    }

    /// Removes up to `n` bytes of the first packet, which were handed out. Returns how many.
    fn hand_first(&mut self, n: usize) -> usize
        requires { (0 < n) × (n ≤ length self.old.due) }
        ensures some { (0 < result) × (result ≤ n) }
        ensures rest { self.new ≡ record self.old { due = drop result self.old.due } }
    {
        let Some(mut packet) = self.packets.pop_front() else {
            unreachable!()
        };
        let len = packet.len();
        let taken = n.min(len);
        self.owed -= taken;
        if taken < len {
            packet.hand(taken);
            self.packets.push_front_reserved(packet);
        }
        taken
    }
}

/// Returns the first `n` bytes, if the first packet alone contains them, in one slice of its
/// payload.
fn share(packets: &VecDeque<Outgoing>, n: usize) -> Result<Option<HandOut>, AllocError>
    ensures { IfOk result (λ shared. IfSome shared
        (λ bytes. bytes ≡ take n (concat packets.now.items))) }
{
    match packets.front() {
        Some(packet) => packet.share(n),
        None => Ok(None),
    }
}

/// Fills an empty text up to `max` bytes from packets. Looks at no packet after these.
fn fill(text: &mut Text, packets: &VecDeque<Outgoing>, max: usize) -> Result<(), AllocError>
    requires { text.old ≡ [] }
    ensures { OnOk result (text.new ≡ take max (concat packets.now.items)) }
{
    for i in 0..packets.len() {
        if text.len() >= max {
            return Ok(());
        }
        packets[i].fill(text, max)?;
    }
    Ok(())
}

//! A device's link.

ghost use Rattle.std.specs.Prelude.{◌≡◌, ◌<◌, ◌≤◌, ◌++◌, [], List, ℕ, length, take, drop, max, None, true, IfOk, OnOk, OnErr, MatchOption};
ghost use Rattle.adb_wire.specs.Header.{byte_sum_of};
ghost use Rattle.adb_wire.specs.Packet.{head_for, check_of};
ghost use Rattle.adb_wire.specs.Format.{packet_under};
ghost use Rattle.adb_wire.specs.Cutting.{cut_packets, goes_with_sum};
ghost use Rattle.adb_wire.specs.Slicing.{need_of};
ghost use Rattle.adb_link.specs.Linked.{IsHeadOf, version_past};

use crate::outbox::Outbox;
use crate::outgoing::{MAX_SHORT, Outgoing};
use adb_outside::{HandOut, Parts, SplitBytes};
use adb_wire::{Command, Deframer, Head, MIN_VERSION, WireError, byte_sum};
use bytes::Bytes;
use std::alloc::{AllocError, Global};
use std::marker::Model;

/// A device's link. Incoming bytes are cut into packets, and outgoing packets are queued with the
/// check word that protocol.txt requires for the link's version ("MESSAGES"). A queued packet keeps
/// its check word: a CNXN goes out with its sum, and so does every other packet if the last CNXN
/// that was passed to `took` had the version 0x01000000.
///
/// Places for packets can be reserved, so that packets can be queued later without an allocation; a
/// place holds one packet, whatever its payload. Only the calls that take a place lower their
/// number.
#[derive(Drop)]
pub struct Link {
    alloc: Global,
    incoming: Deframer,
    version: u32,
    outbox: Outbox,
}

impl Model for Link {
    ghost use Rattle.adb_link.specs.Linked.{Linked};

    ghost Value = { Linked };

    ghost view = { λ link. record {
      incoming = link.incoming;
      version = link.version;
      due = link.outbox.due;
      spare = link.outbox.spare;
    } };
}

impl Link {
    ghost use Rattle.adb_wire.specs.Deframing.{StandsFor, Takes, Waits, no_bytes};
    ghost use Rattle.adb_link.specs.Linked.{new_link, owing, placing};

    /// Returns a link to which nothing was fed, with an empty queue and no reserved places.
    /// Allocates nothing.
    pub fn new(alloc: Global) -> Link
        ensures value { result ≡ new_link }
        ensures stands { StandsFor [] [] result.incoming }
    {
        Link {
            alloc,
            incoming: Deframer::new(alloc),
            version: 0,
            outbox: Outbox::new(alloc),
        }
    }

    /// Appends the next piece of the input, which completes neither a packet nor a fault, to the
    /// held bytes. If an allocation fails, the link is unchanged.
    pub fn hold(&mut self, piece: &[u8]) -> Result<(), AllocError>
        requires sound { self.old.incoming.fault ≡ None }
        requires waits { Waits self.old.incoming piece.now }
        ensures held { OnOk result (self.new ≡ record self.old {
          incoming = record self.old.incoming { rest = self.old.incoming.rest ++ piece.now };
        }) }
        ensures taken { OnOk result (Takes self.old.incoming piece.now self.new.incoming) }
        ensures err { OnErr result (self.new ≡ self.old) }
    {
        match self.incoming.feed(piece) {
            Ok(()) => Ok(()),
            Err(WireError::OutOfMemory) => Err(AllocError),
            Err(WireError::Broken(_) | WireError::BadSum { .. }) => unreachable!(),
        }
    }

    /// Returns how many bytes are missing, at least, until a packet is whole or a fault is there: a
    /// shorter piece completes nothing. If there is a fault, the result is `usize::MAX`. Allocates
    /// nothing.
    pub fn missing(&self) -> usize
        ensures value { MatchOption self.now.incoming.fault
            (result ≡ need_of self.now.incoming.rest) (λ _. result ≡ usize.MAX) }
        ensures some { 0 < result }
        ensures short { self.now.incoming.fault ≡ None → (piece : List ℕ) → length piece < result
            → Waits self.now.incoming piece }
    {
        self.incoming.missing()
    }

    /// Records that a packet with this header was taken from the input that a piece completed: a
    /// CNXN fixes the link's version. Allocates nothing.
    pub fn took(&mut self, head: &Head)
        ensures { self.new ≡ record self.old {
          version = version_past self.old.version head.now.command head.now.arg0;
        } }
    {
        self.version = version_past(self.version, head.command, head.arg0);
    }

    /// Returns the input with a further piece, without the packets that were not taken before. The
    /// link itself is unchanged. No payload is copied twice. Fails if an allocation fails.
    pub fn with_piece(&mut self, piece: &[u8]) -> Result<Deframer, AllocError>
        requires { self.old.incoming.fault ≡ None }
        ensures stays { self.new ≡ self.old }
        ensures next { IfOk result (λ incoming. incoming
            ≡ cut_packets self.old.incoming.reading (self.old.incoming.rest ++ piece.now)) }
    {
        self.incoming.with_piece(piece)
    }

    /// Replaces the input. Allocates nothing.
    pub fn put_incoming(&mut self, incoming: Deframer)
        ensures { self.new ≡ record self.old { incoming = incoming } }
    {
        self.incoming = incoming;
    }

    /// Returns whether no input is held and no check words are verified in it. Allocates nothing.
    pub fn is_fresh(&self) -> bool
        ensures { result ≡ true → self.now.incoming ≡ no_bytes }
    {
        self.incoming.is_fresh()
    }

    /// Queues a packet of this header and shared payload, with the link's check word instead of the
    /// header's. If an allocation fails, the link is unchanged, and the payload is dropped.
    pub fn owe_slice(&mut self, head: &Head, payload: Bytes) -> Result<(), AllocError>
        requires { IsHeadOf head.now payload }
        ensures ok { OnOk result (self.new ≡ owing self.old (packet_under head.now payload)) }
        ensures err { OnErr result (self.new ≡ self.old) }
    {
        let payload = SplitBytes::whole(payload);
        let head = head_to_send(self.version, head, payload.parts());
        self.outbox.push(Outgoing::new(&head, &[], payload))
    }

    /// Reserves places for `packets` packets, including those that are reserved already. If an
    /// allocation fails, or if the bytes of that many packets could not be counted, the link is
    /// unchanged.
    pub fn reserve(&mut self, packets: usize) -> Result<(), AllocError>
        ensures ok { OnOk result
            (self.new ≡ record self.old { spare = max packets self.old.spare }) }
        ensures err { OnErr result (self.new ≡ self.old) }
    {
        self.outbox.reserve(packets)
    }

    /// Queues a packet of this header and a payload of at most `MAX_SHORT` bytes, which are copied,
    /// in a reserved place, with the link's check word. Allocates nothing.
    pub fn owe_short_spare(&mut self, head: &Head, payload: &[u8])
        requires place { 0 < self.old.spare }
        requires head { IsHeadOf head.now payload.now }
        requires short { length payload.now ≤ MAX_SHORT }
        ensures { self.new ≡ placing self.old (packet_under head.now payload.now) }
    {
        let parts = Parts {
            start: payload,
            rest: &[],
        };
        let head = head_to_send(self.version, head, parts);
        let none = SplitBytes::whole(Bytes::new());
        self.outbox.push_spare(Outgoing::new(&head, payload, none));
    }

    /// Queues a packet of this header and shared payload in a reserved place, with the link's check
    /// word. Allocates nothing.
    pub fn owe_slice_spare(&mut self, head: &Head, payload: SplitBytes)
        requires place { 0 < self.old.spare }
        requires head { IsHeadOf head.now payload }
        ensures { self.new ≡ placing self.old (packet_under head.now payload) }
    {
        let head = head_to_send(self.version, head, payload.parts());
        self.outbox.push_spare(Outgoing::new(&head, &[], payload));
    }

    /// Returns how many bytes are queued for output. Allocates nothing.
    pub fn owed(&self) -> usize
        ensures { result ≡ length self.now.due }
    {
        self.outbox.owed()
    }

    /// Returns the first `max` queued bytes, or all if there are fewer. The payload is shared if
    /// the first packet alone contains them, in one slice of it; otherwise the bytes are copied.
    /// Nothing changes. Fails if an allocation fails.
    pub fn front(&self, max: usize) -> Result<HandOut, AllocError>
        ensures { IfOk result (λ bytes. bytes ≡ take max self.now.due) }
    {
        self.outbox.front(self.alloc, max)
    }

    /// Returns how many bytes to hand out at once, at most `max`, so that no payload slice of 4 KiB
    /// or more is copied: those up to its end if it comes first, otherwise those before it; `max`
    /// if there is none. Allocates nothing.
    pub fn front_len(&self, max: usize) -> usize
        requires { 0 < max }
        ensures { (0 < result) × (result ≤ max) }
    {
        self.outbox.front_len(max)
    }

    /// Removes the first `n` queued bytes, which were handed out; they may be more than one `front`
    /// returned. Allocates nothing.
    pub fn hand(&mut self, n: usize)
        requires { n ≤ length self.old.due }
        ensures { self.new ≡ record self.old { due = drop n self.old.due } }
    {
        self.outbox.hand(n);
    }
}

/// Returns the version of a link after a packet was taken from it: a CNXN sets it.
fn version_past(version: u32, command: Command, arg0: u32) -> u32
    ensures { result ≡ version_past version command arg0 }
{
    match command {
        Command::Cnxn => arg0,
        _ => version,
    }
}

/// Returns the header with the check word that it goes out with on a link of that version.
fn head_to_send(version: u32, head: &Head, payload: Parts<'_>) -> Head
    requires { IsHeadOf head.now (payload.start.now ++ payload.rest.now) }
    ensures { let p = packet_under head.now (payload.entry.start.now ++ payload.entry.rest.now) in
        result ≡ head_for p (check_of (goes_with_sum version p) p) }
{
    let has_sum = match head.command {
        Command::Cnxn => true,
        _ => version == MIN_VERSION,
    };
    Head {
        command: head.command,
        arg0: head.arg0,
        arg1: head.arg1,
        length: head.length,
        check: if has_sum { sum_of(payload) } else { 0 },
    }
}

/// Returns the sum of a payload's bytes, modulo 2^32.
#[tactic(auto, using(crate::proofs::Sums::sum_both))]
fn sum_of(payload: Parts<'_>) -> u32
    ensures { result ≡ byte_sum_of (payload.entry.start.now ++ payload.entry.rest.now) }
{
    byte_sum(payload.start).wrapping_add(byte_sum(payload.rest))
}

//! The bytes of a push.

ghost use Rattle.std.specs.Prelude.{◌≡◌, ◌≢◌, ◌≤◌, ◌<◌, [], decimal, length, drop, IfOk};
ghost use Rattle.std.specs.Io.{StartsWith};
ghost use Rattle.adb_sync.specs.Asks.{ask_bytes};
ghost use Rattle.adb_sync_client.specs.Texts.{push_text};

use crate::request::{MAX_ASKED_PATH, spelled};
use adb_outside::{ByteQueue, Text};
use adb_sync::{Chunk, SyncAsk};
use itoa::Buffer;
use std::alloc::{AllocError, Global};
use std::marker::Model;

/// The bytes of a SEND, its chunks and its DONE that were not taken yet. Contracts see those bytes.
/// The chunks are made as they are taken, from a single copy of the file.
#[derive(Drop)]
pub struct Outgoing {
    head: ByteQueue,
    bytes: Text,
    chunk: Chunk,
    tail: ByteQueue,
}

impl Model for Outgoing {
    ghost use Rattle.std.specs.Prelude.{◌++◌, List, ℕ};
    ghost use Rattle.adb_sync.specs.Chunk.{HasFront, IsWithin, left_from};

    ghost Value = { List ℕ };

    ghost view = { λ o. o.head.bytes ++ (left_from o.chunk o.bytes ++ o.tail.bytes) };

    ghost invariant = { λ o. IsWithin o.chunk o.bytes × HasFront o.chunk o.bytes };
}

impl Outgoing {
    /// Returns all the bytes of a push.
    pub fn new(
        alloc: Global,
        path: &[u8],
        mode: u32,
        mtime: u32,
        bytes: &[u8],
    ) -> Result<Outgoing, AllocError>
        requires { length path.now ≤ MAX_ASKED_PATH }
        ensures { IfOk result (λ out. out ≡ push_text path.now mode mtime bytes.now) }
    {
        let head = send_of(alloc, path, mode)?;
        let bytes = Text::from_slice(alloc, bytes)?;
        let chunk = Chunk::begin(bytes.as_slice(), 0);
        let tail = spelled(alloc, &SyncAsk::Finish { mtime })?;
        Ok(Outgoing {
            head,
            bytes,
            chunk,
            tail,
        })
    }

    /// Returns the first bytes that were not taken yet: at least one if any are left.
    pub fn front(&self) -> &[u8]
        ensures front { StartsWith self.now result.now }
        ensures some { self.now ≢ [] → result.now ≢ [] }
    {
        if !self.head.is_empty() {
            return self.head.as_slice();
        }
        let front = self.chunk.front(self.bytes.as_slice());
        if front.is_empty() {
            self.tail.as_slice()
        } else {
            front
        }
    }

    /// Removes the first `n` bytes, which were taken. Allocates nothing.
    pub fn taken(&mut self, n: usize)
        requires { n ≤ length self.old }
        ensures { self.new ≡ drop n self.old }
    {
        let mut left = n;
        while left > 0 {
            left -= self.take_front(left);
        }
    }

    /// Removes at most the first `n` bytes, of one part alone. Returns how many: at least one if
    /// any are left.
    fn take_front(&mut self, n: usize) -> usize
        ensures most { result ≤ n }
        ensures here { result ≤ length self.old }
        ensures some { 0 < n → self.old ≢ [] → 0 < result }
        ensures left { self.new ≡ drop result self.old }
    {
        if !self.head.is_empty() {
            return take_from(&mut self.head, n);
        }
        let taken = self.chunk.take_front(self.bytes.as_slice(), n);
        if taken > 0 {
            return taken;
        }
        take_from(&mut self.tail, n)
    }
}

/// Removes at most the first `n` bytes of a queue. Returns how many.
fn take_from(queue: &mut ByteQueue, n: usize) -> usize
    ensures most { result ≤ n }
    ensures here { result ≤ length queue.old.bytes }
    ensures some { 0 < n → queue.old.bytes ≢ [] → 0 < result }
    ensures left { queue.new.bytes ≡ drop result queue.old.bytes }
{
    let taken = n.min(queue.len());
    queue.take(taken);
    taken
}

/// Returns the bytes of a SEND.
fn send_of(alloc: Global, path: &[u8], mode: u32) -> Result<ByteQueue, AllocError>
    requires { length path.now ≤ MAX_ASKED_PATH }
    ensures { IfOk result (λ head. head.bytes ≡ ask_bytes (SyncAsk.Send path.now (decimal mode))) }
{
    let path = Text::from_slice(alloc, path)?;
    let mode = decimal_of(alloc, mode)?;
    spelled(alloc, &SyncAsk::Send { path, mode })
}

/// Returns the decimal digits of a number.
fn decimal_of(alloc: Global, number: u32) -> Result<Text, AllocError>
    ensures { IfOk result (λ text. text ≡ decimal number) }
{
    let mut digits = Buffer::new();
    Text::from_slice(alloc, digits.format(number).as_bytes())
}

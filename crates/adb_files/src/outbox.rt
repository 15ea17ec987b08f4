//! The queue of answers.

ghost use Rattle.std.specs.Prelude.{◌≡◌, ◌≢◌, ◌<◌, ◌≤◌, ◌+◌, ◌++◌, [], List, ℕ, length, drop, Some, OnOk, OnErr};
ghost use Rattle.std.specs.Arc.{arc_value};
ghost use Rattle.std.specs.Io.{StartsWith};
ghost use Rattle.std.specs.VecDeque.{deque_capacity, deque_len};
ghost use Rattle.adb_sync.specs.Answers.{IsAnswer, answer_bytes};
ghost use Rattle.adb_files.specs.Part.{NoneIsEmpty, part_bytes, queued};
ghost use Rattle.adb_files.specs.Served.{file_bytes};

use crate::file::File;
use crate::part::Part;
use crate::pull::Pull;
use adb_outside::{ByteQueue, Text};
use adb_sync::{SyncAnswer, write_answer};
use std::alloc::{AllocError, Global};
use std::collections::VecDeque;
use std::marker::Model;
use std::mem;
use std::sync::Arc;

/// The bytes of answers that were not taken yet. A file among them is shared, and its chunks are
/// made as they are taken.
#[derive(Drop)]
pub struct Outbox {
    alloc: Global,
    parts: VecDeque<Part>,
    last: ByteQueue,
}

impl Model for Outbox {
    ghost use Rattle.std.specs.Prelude.{List, ℕ};

    ghost Value = { List ℕ };

    ghost use Rattle.adb_files.specs.Part.{queued, NoneIsEmpty};

    ghost view = { λ outbox. queued outbox.parts.items outbox.last.bytes };

    ghost invariant = { λ outbox. NoneIsEmpty outbox.parts.items };
}

impl Outbox {
    /// Returns an empty queue. Allocates nothing.
    pub fn new(alloc: Global) -> Outbox
        ensures { result ≡ [] }
    {
        Outbox {
            alloc,
            parts: VecDeque::new(alloc),
            last: ByteQueue::new(alloc),
        }
    }

    /// Returns the first bytes that were not taken yet: at least one if any are left.
    pub fn front(&self) -> &[u8]
        ensures front { StartsWith self.now result.now }
        ensures some { self.now ≢ [] → result.now ≢ [] }
    {
        match self.parts.front() {
            Some(part) => part.front(),
            None => self.last.as_slice(),
        }
    }

    /// Removes the first `n` bytes, which were taken. Needs no memory.
    pub fn taken(&mut self, n: usize)
        requires { n ≤ length self.old }
        ensures { self.new ≡ drop n self.old }
    {
        let mut left = n;
        while left > 0 {
            left -= self.take_front(left);
        }
    }

    /// Removes at most the first `n` bytes, of the first part alone. Returns how many: at least one
    /// if any are left.
    fn take_front(&mut self, n: usize) -> usize
        ensures most { result ≤ n }
        ensures here { result ≤ length self.old }
        ensures some { 0 < n → self.old ≢ [] → 0 < result }
        ensures left { self.new ≡ drop result self.old }
    {
        let Some(part) = self.parts.front_mut() else {
            let taken = n.min(self.last.len());
            self.last.take(taken);
            self.last.give_back();
            return taken;
        };
        let taken = part.take_front(n);
        if part.is_empty() {
            drop_first(&mut self.parts);
        }
        taken
    }

    /// Appends an answer. If an allocation fails, the bytes are unchanged.
    pub fn push(&mut self, answer: &SyncAnswer) -> Result<(), AllocError>
        requires { IsAnswer answer.now }
        ensures ok { OnOk result (self.new ≡ self.old ++ answer_bytes answer.now) }
        ensures err { OnErr result (self.new ≡ self.old) }
    {
        let mut bytes = Text::new(self.alloc);
        write_answer(self.alloc, answer, &mut bytes)?;
        self.last.push(bytes.as_slice())
    }

    /// Appends the chunks of a file and their end. The file is shared until all its bytes were
    /// taken. If an allocation fails, the bytes are unchanged.
    pub fn push_file(&mut self, file: Arc<File>) -> Result<(), AllocError>
        ensures ok { OnOk result (self.new ≡ self.old ++ file_bytes (Some (arc_value file))) }
        ensures err { OnErr result (self.new ≡ self.old) }
    {
        let pull = Pull::new(file);
        if pull.is_empty() {
            return self.push(&SyncAnswer::ChunkEnd);
        }
        let mut end = Text::new(self.alloc);
        write_answer(self.alloc, &SyncAnswer::ChunkEnd, &mut end)?;
        self.parts.reserve(2)?;
        let before = mem::replace(&mut self.last, ByteQueue::from_text(end));
        add(&mut self.parts, Part::Spelled(before));
        add(&mut self.parts, Part::Pull(pull));
        Ok(())
    }
}

/// Appends a part, unless it is empty. There is room for it.
fn add(parts: &mut VecDeque<Part>, part: Part)
    requires { deque_len parts.old < deque_capacity parts.old }
    ensures bytes { (last : List ℕ)
        → queued parts.new.items last ≡ queued parts.old.items (part_bytes part ++ last) }
    ensures none_empty { NoneIsEmpty parts.old.items → NoneIsEmpty parts.new.items }
    ensures len { deque_len parts.new ≤ deque_len parts.old + 1 }
    ensures capacity { deque_capacity parts.new ≡ deque_capacity parts.old }
{
    if !part.is_empty() {
        parts.push_back_reserved(part);
    }
}

/// Drops the first part, if there is one.
fn drop_first(parts: &mut VecDeque<Part>)
    ensures { parts.new.items ≡ drop 1 parts.old.items }
{
    parts.pop_front();
}

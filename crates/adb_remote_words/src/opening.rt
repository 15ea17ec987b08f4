//! Parsing of the OKAYs at the beginning of an answer.

ghost use Rattle.std.specs.Prelude.{◌≡◌, ◌≤◌, ◌++◌, ◌+◌, [], true, codes, nat_lt, length, take, drop, IfOk};
ghost use Rattle.adb_remote_frames.specs.Heads.{is_front};
ghost use Rattle.adb_remote_words.specs.Meaning.{refusal};
ghost use Rattle.adb_remote_words.specs.Reading.{Opened};

use adb_outside::{ByteQueue, Front, Text};
use adb_remote_frames::Awaited;
use adb_sync_client::Step;
use std::alloc::{AllocError, Global};
use std::marker::Model;

/// The reader of an answer until its last OKAY: the bytes after the last OKAY that came, how many
/// OKAYs came, and how many are still to come.
#[derive(Drop)]
pub struct Opening {
    alloc: Global,
    held: ByteQueue,
    okays: u8,
    left: u8,
}

impl Model for Opening {
    ghost use Rattle.adb_remote_words.specs.Held.{HeldOpening};

    ghost Value = { HeldOpening };

    ghost view = { λ o. record { held = o.held.bytes; okays = o.okays; left = o.left } };
}

impl Opening {
    /// Makes the reader of an answer that begins with `left` OKAYs. No byte was fed yet. It
    /// allocates nothing.
    pub fn new(alloc: Global, left: u8) -> Opening
        ensures { result ≡ record { held = []; okays = 0; left = left } }
    {
        Opening {
            alloc,
            held: ByteQueue::new(alloc),
            okays: 0,
            left,
        }
    }

    /// Returns whether an OKAY is still to come.
    pub fn is_open(&self) -> bool
        ensures { result ≡ nat_lt 0 self.now.left }
    {
        self.left > 0
    }

    /// Returns how many OKAYs came.
    pub fn okays(&self) -> u8
        ensures { result ≡ self.now.okays }
    {
        self.okays
    }

    /// Returns the bytes after the last OKAY that came.
    pub fn held(&self) -> &[u8]
        ensures { result.now ≡ self.now.held }
    {
        self.held.as_slice()
    }

    /// Takes the next piece. The step is done if no OKAY is still to come.
    pub fn feed(&mut self, piece: &[u8]) -> Result<Step<()>, AllocError>
        ensures { IfOk result (λ step. self.old.okays + self.old.left ≤ 2
            → Opened (record self.old { held = self.old.held ++ piece.now }) step self.new) }
    {
        self.held.push(piece)?;
        self.open()
    }

    /// Takes the OKAYs that are held.
    fn open(&mut self) -> Result<Step<()>, AllocError>
        ensures { IfOk result (λ step. self.old.okays + self.old.left ≤ 2
            → Opened self.old step self.new) }
    {
        while self.left > 0 {
            if !begins_okay(self.held.as_slice()) {
                return refusal(self.alloc, 4 * u64::from(self.okays), self.held.as_slice());
            }
            self.held.take(4);
            self.okays = self.okays.saturating_add(1);
            self.left -= 1;
        }
        Ok(Step::Done(()))
    }
}

/// Returns whether bytes begin with an OKAY.
fn begins_okay(bytes: &[u8]) -> bool
    ensures { result ≡ is_front (codes "OKAY") bytes.now }
{
    bytes.starts_with(b"OKAY")
}

/// Returns the meaning of bytes at an offset that come in place of an OKAY.
fn refusal(alloc: Global, offset: u64, bytes: &[u8]) -> Result<Step<()>, AllocError>
    ensures { IfOk result (λ step. step ≡ refusal offset bytes.now) }
{
    Ok(match Awaited::Status.found(offset, bytes) {
        Front::More => Step::More,
        Front::Bad(offset) => Step::BadAnswer { offset },
        Front::Whole(len) => Step::Refused(text_of(alloc, bytes, len)?),
    })
}

/// Returns the text of a FAIL that has `len` bytes.
fn text_of(alloc: Global, bytes: &[u8], len: usize) -> Result<Text, AllocError>
    ensures { IfOk result (λ text. text ≡ drop 8 (take len bytes.now)) }
{
    Text::from_slice(alloc, behind(front(bytes, len), 8))
}

/// Returns the first `n` bytes.
fn front(bytes: &[u8], n: usize) -> &[u8]
    ensures { result.now ≡ take n bytes.now }
{
    &bytes[..n.min(bytes.len())]
}

/// Returns the bytes after the first `n`.
fn behind(bytes: &[u8], n: usize) -> &[u8]
    ensures { result.now ≡ drop n bytes.now }
{
    &bytes[n.min(bytes.len())..]
}

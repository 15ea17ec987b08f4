//! Bytes to hand out.

ghost use Rattle.std.specs.Prelude.{◌≡◌, ◌==◌, ◌≤◌, ◌++◌, length, bytes_eq, IfOk};

use crate::text::Text;
use bytes::Bytes;
use std::alloc::AllocError;
use std::marker::Model;

/// The number of bytes that a hand-out holds inline, before those that it shares.
pub const MAX_START: usize = 32;

/// The length from which a slice is handed out without a copy. A shorter slice is copied together
/// with the bytes before and after it.
pub const MIN_SHARED: usize = 4096;

/// A few bytes that are stored inline. Contracts see them as their list.
#[derive(Drop)]
struct Start {
    bytes: [u8; MAX_START],
    len: usize,
}

impl Model for Start {
    ghost use Rattle.std.specs.Prelude.{◌≤◌, List, ℕ, take};
    ghost use Rattle.adb_outside.specs.declared.hand_out.TheConstants.{MAX_START};

    ghost Value = { List ℕ };

    ghost view = { λ start. take start.len start.bytes };

    ghost invariant = { λ start. start.len ≤ MAX_START };
}

impl Start {
    fn new(start: &[u8]) -> Start
        requires { length start.now ≤ MAX_START }
        ensures { result ≡ start.now }
    {
        let mut bytes = [0; MAX_START];
        bytes[..start.len()].copy_from_slice(start);
        Start {
            bytes,
            len: start.len(),
        }
    }

    fn as_slice(&self) -> &[u8]
        ensures is { result.now ≡ self.now }
        ensures short { length result.now ≤ MAX_START }
    {
        &self.bytes[..self.len]
    }
}

/// The storage of the bytes.
#[derive(Drop)]
enum Store {
    Own(Text),
    Shared(Bytes),
    Framed(Start, Bytes),
}

/// Bytes to hand out: a text of their own, or an optional header followed by bytes that are shared
/// with others and never written, so they need no copy. Contracts see them as their list.
#[derive(Drop)]
pub struct HandOut {
    store: Store,
}

impl Model for HandOut {
    ghost use Rattle.std.specs.Prelude.{List, ℕ};
    ghost use Rattle.adb_outside.specs.HandOut.{stored};

    ghost Value = { List ℕ };

    ghost view = { λ h. stored h.store };
}

/// The two consecutive parts of a hand-out's bytes. Each may be empty.
#[derive(Clone, Copy, Drop)]
pub struct Parts<'a> {
    pub start: &'a [u8],
    pub rest: &'a [u8],
}

impl HandOut {
    /// Returns the bytes of a text, which is moved. Allocates nothing.
    pub fn own(text: Text) -> HandOut
        ensures { result ≡ text }
    {
        HandOut {
            store: Store::Own(text),
        }
    }

    /// Returns bytes that others may hold too. Allocates nothing.
    pub fn shared(bytes: Bytes) -> HandOut
        ensures { result ≡ bytes }
    {
        HandOut {
            store: Store::Shared(bytes),
        }
    }

    /// Returns a start, which is copied inline, followed by bytes that others may hold too.
    /// Allocates nothing.
    pub fn framed(start: &[u8], bytes: Bytes) -> HandOut
        requires { length start.now ≤ MAX_START }
        ensures { result ≡ start.now ++ bytes }
    {
        HandOut {
            store: Store::Framed(Start::new(start), bytes),
        }
    }

    /// Returns the bytes as the two parts in which they are stored. The first part is short.
    pub fn parts(&self) -> Parts<'_>
        ensures is { result.start.now ++ result.rest.now ≡ self.now }
        ensures short { length result.start.now ≤ MAX_START }
    {
        match &self.store {
            Store::Own(text) => Parts {
                start: &[],
                rest: text.as_slice(),
            },
            Store::Shared(bytes) => Parts {
                start: &[],
                rest: bytes.as_slice(),
            },
            Store::Framed(start, bytes) => Parts {
                start: start.as_slice(),
                rest: bytes.as_slice(),
            },
        }
    }

    /// Returns whether both hold the same bytes, however they are stored.
    #[tactic(auto, using(crate::proofs::Joined::turned))]
    pub fn equals(&self, other: &HandOut) -> bool
        ensures { result ≡ bytes_eq self.now other.now }
    {
        let one = self.parts();
        let two = other.parts();
        if one.start.len() < two.start.len() {
            return are_same(two.start, two.rest, one.start, one.rest);
        }
        are_same(one.start, one.rest, two.start, two.rest)
    }

    /// Returns the number of bytes.
    pub fn len(&self) -> usize
        ensures { result ≡ length self.now }
    {
        let Parts { start, rest } = self.parts();
        start.len() + rest.len()
    }

    /// Returns whether there are no bytes.
    pub fn is_empty(&self) -> bool
        ensures { result ≡ (length self.now == 0) }
    {
        self.len() == 0
    }

    /// Returns the same bytes. The bytes of a text are copied; shared bytes are not. Fails if an
    /// allocation fails.
    pub fn copy(&self) -> Result<HandOut, AllocError>
        ensures { IfOk result (λ h. h ≡ self.now) }
    {
        Ok(match &self.store {
            Store::Own(text) => HandOut::own(text.copy()?),
            Store::Shared(bytes) => HandOut::shared(bytes.clone()?),
            Store::Framed(start, bytes) => HandOut::framed(start.as_slice(), bytes.clone()?),
        })
    }
}

/// Returns whether two parts hold the same bytes as two others, the first of which is no longer.
#[tactic(auto, using(crate::proofs::Joined::same_parts))]
fn are_same(start: &[u8], rest: &[u8], shorter: &[u8], more: &[u8]) -> bool
    requires { length shorter.now ≤ length start.now }
    ensures { result ≡ bytes_eq (start.now ++ rest.now) (shorter.now ++ more.now) }
{
    let (front, back) = start.split_at(shorter.len());
    front == shorter && are_joined(back, rest, more)
}

/// Returns whether two consecutive parts are the bytes.
#[tactic(auto, using(crate::proofs::Joined::both_are, crate::proofs::Joined::too_few))]
fn are_joined(start: &[u8], rest: &[u8], bytes: &[u8]) -> bool
    ensures { result ≡ bytes_eq (start.now ++ rest.now) bytes.now }
{
    if bytes.len() < start.len() {
        return false;
    }
    let (front, back) = bytes.split_at(start.len());
    start == front && rest == back
}

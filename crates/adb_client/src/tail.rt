//! The held input of a client after the first slices.

ghost use Rattle.std.specs.Prelude.{◌≡◌, ◌<◌, ◌≤◌, ◌+◌, ◌^◌, ◌++◌, [], ℕ, List, length, take, drop, min, IfOk, IfSome, OnOk, OnErr};
ghost use Rattle.std.specs.List.{concat};
ghost use Rattle.std.specs.Bool.{◌==◌};
ghost use Rattle.std.specs.VecDeque.{deque_len, deque_capacity};
ghost use Rattle.adb_client.specs.Tail.{Keeps, Goes};

use crate::gathered::Gathered;
use crate::slices::first;
use bytes::Bytes;
use std::alloc::{AllocError, Global};
use std::collections::VecDeque;
use std::marker::Model;

/// Consecutive bytes: slices, each in memory of its own that is freed with it, followed by the
/// bytes that are being gathered. Contracts see the bytes.
#[derive(Drop)]
pub(crate) struct Tail {
    pieces: VecDeque<Bytes>,
    /// The number of bytes of the slices.
    in_pieces: usize,
    gathered: Gathered,
}

impl Model for Tail {
    ghost use Rattle.std.specs.Prelude.{List, ℕ};
    ghost use Rattle.adb_client.specs.Tails.{bytes_of, IsTail};

    ghost Value = { List ℕ };

    ghost view = { bytes_of };

    ghost invariant = { IsTail };
}

impl Tail {
    /// Returns a tail without bytes. Allocates nothing.
    pub(crate) fn new(alloc: Global) -> Tail
        ensures { result ≡ [] }
    {
        Tail {
            pieces: VecDeque::new(alloc),
            in_pieces: 0,
            gathered: Gathered::new(alloc),
        }
    }

    pub(crate) fn len(&self) -> usize
        ensures value { result ≡ length self.now }
        ensures bound { result < 2 ^ 63 }
    {
        self.in_pieces + self.gathered.len()
    }

    pub(crate) fn is_empty(&self) -> bool
        ensures { result ≡ (length self.now == 0) }
    {
        self.len() == 0
    }

    /// Returns the bytes, if they lie in one part.
    pub(crate) fn as_slice(&self) -> Option<&[u8]>
        ensures { IfSome result (λ bytes. bytes.now ≡ self.now) }
    {
        if self.pieces.is_empty() {
            Some(self.gathered.as_slice())
        } else {
            None
        }
    }

    /// Appends a piece, in one buffer with the gathered bytes as long as there is room.
    pub(crate) fn push(&mut self, piece: &[u8]) -> Result<(), AllocError>
        requires { length self.old + length piece.now < 2 ^ 63 }
        ensures ok { OnOk result (self.new ≡ self.old ++ piece.now) }
        ensures err { OnErr result (self.new ≡ self.old) }
    {
        if !self.gathered.has_room(piece.len()) {
            self.end_gathered()?;
        }
        self.gathered.push(piece)
    }

    /// Turns the gathered bytes into a slice.
    fn end_gathered(&mut self) -> Result<(), AllocError>
        ensures { self.new ≡ self.old }
    {
        self.pieces.reserve(1)?;
        let all = self.gathered.freeze()?;
        self.in_pieces += all.len();
        put_last(&mut self.pieces, all);
        Ok(())
    }

    /// Keeps the first `n` bytes. Allocates nothing.
    pub(crate) fn truncate(&mut self, n: usize)
        ensures { self.new ≡ take n self.old }
    {
        self.gathered.truncate(n.saturating_sub(self.in_pieces));
        self.in_pieces = keep_first(&mut self.pieces, self.in_pieces, n);
    }

    /// Removes the first `n` bytes. Allocates nothing.
    pub(crate) fn advance(&mut self, n: usize)
        requires { n ≤ length self.old }
        ensures { self.new ≡ drop n self.old }
    {
        let some = n.min(self.in_pieces);
        pass_over(&mut self.pieces, some);
        self.in_pieces -= some;
        self.gathered.advance(n - some);
    }

    /// Removes and returns the first slice or, if there is none, all gathered bytes as a slice.
    pub(crate) fn take_front(&mut self) -> Result<Bytes, AllocError>
        ensures ok { IfOk result (λ bytes. bytes ++ self.new ≡ self.old) }
        ensures err { OnErr result (self.new ≡ self.old) }
    {
        match self.pieces.pop_front() {
            Some(piece) => {
                self.in_pieces -= piece.len();
                Ok(piece)
            }
            None => self.gathered.freeze(),
        }
    }

    /// Appends a copy of the first `n` bytes to `to`.
    pub(crate) fn copy_to(&self, n: usize, to: &mut Vec<u8>) -> Result<(), AllocError>
        requires { n ≤ length self.now }
        ensures { OnOk result (to.new.items ≡ to.old.items ++ take n self.now) }
    {
        let some = n.min(self.in_pieces);
        copy_first(&self.pieces, some, to)?;
        to.extend_from_slice(first(self.gathered.as_slice(), n - some))
    }
}

/// Appends a piece, in a place that is reserved.
#[tactic(auto, using(crate::proofs::Pieces::concat_last))]
fn put_last(pieces: &mut VecDeque<Bytes>, piece: Bytes)
    requires { deque_len pieces.old < deque_capacity pieces.old }
    ensures { concat pieces.new.items ≡ concat pieces.old.items ++ piece }
{
    pieces.push_back_reserved(piece);
}

/// Keeps the first `n` of the `len` bytes of the pieces. Returns how many bytes are left.
fn keep_first(pieces: &mut VecDeque<Bytes>, len: usize, n: usize) -> usize
    requires { len ≡ length (concat pieces.old.items) }
    ensures kept { concat pieces.new.items ≡ take n (concat pieces.old.items) }
    ensures len { result ≡ min len n }
{
    let mut left = len;
    while left > n {
        left = drop_last(pieces, left, n);
    }
    left
}

/// Removes the last piece, or as much of it that `n` bytes stay. Returns how many bytes stay.
fn drop_last(pieces: &mut VecDeque<Bytes>, len: usize, n: usize) -> usize
    requires counted { len ≡ length (concat pieces.old.items) }
    requires more { n < len }
    ensures kept { Keeps n (concat pieces.old.items) (concat pieces.new.items) result }
    ensures fewer { n < result → deque_len pieces.new < deque_len pieces.old }
    ensures no_more { deque_len pieces.new ≤ deque_len pieces.old }
{
    let Some(piece) = pieces.pop_back() else {
        return len;
    };
    let before = len - piece.len();
    if before < n {
        let mut piece = piece;
        piece.truncate(n - before);
        pieces.push_back_reserved(piece);
        return n;
    }
    before
}

/// Removes the first `n` bytes of the pieces.
fn pass_over(pieces: &mut VecDeque<Bytes>, n: usize)
    requires { n ≤ length (concat pieces.old.items) }
    ensures { concat pieces.new.items ≡ drop n (concat pieces.old.items) }
{
    let mut left = n;
    while left > 0 {
        left = drop_first(pieces, left);
    }
}

/// Removes the first piece, or its first `n` bytes. Returns how many of `n` bytes are still to be
/// removed.
fn drop_first(pieces: &mut VecDeque<Bytes>, n: usize) -> usize
    requires within { n ≤ length (concat pieces.old.items) }
    requires some { 0 < n }
    ensures goes { Goes n (concat pieces.old.items) (concat pieces.new.items) result }
    ensures fewer { 0 < result → deque_len pieces.new < deque_len pieces.old }
    ensures no_more { deque_len pieces.new ≤ deque_len pieces.old }
{
    let Some(piece) = pieces.pop_front() else {
        return n;
    };
    if piece.len() > n {
        let mut piece = piece;
        piece.advance(n);
        pieces.push_front_reserved(piece);
        return 0;
    }
    n - piece.len()
}

/// Appends a copy of the first `n` bytes of the pieces to `to`.
fn copy_first(pieces: &VecDeque<Bytes>, n: usize, to: &mut Vec<u8>) -> Result<(), AllocError>
    requires { n ≤ length (concat pieces.now.items) }
    ensures { OnOk result (to.new.items ≡ to.old.items ++ take n (concat pieces.now.items)) }
{
    let mut left = n;
    for i in 0..pieces.len() {
        let piece = pieces[i].as_slice();
        let some = left.min(piece.len());
        to.extend_from_slice(first(piece, some))?;
        left -= some;
    }
    Ok(())
}

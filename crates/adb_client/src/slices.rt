//! Slices of bytes, and those in an output queue.

ghost use Rattle.std.specs.Prelude.{◌≡◌, ◌<◌, ◌≤◌, ◌+◌, ◌-◌, ◌++◌, List, ℕ, [], length, take, drop, IfOk, IfSome, OnOk};
ghost use Rattle.std.specs.VecDeque.{deque_len, deque_capacity};
ghost use Rattle.adb_client.specs.Slices.{woven, own_before, IsCounted};

use adb_outside::Text;
use bytes::Bytes;
use std::alloc::AllocError;
use std::collections::VecDeque;

/// A queued slice, and the number of own bytes between the slice before it and this one.
#[derive(Drop)]
pub(crate) struct Slice {
    pub(crate) before: usize,
    pub(crate) bytes: Bytes,
}

/// Returns another owner of the same bytes.
pub(crate) fn share(slice: &Bytes) -> Result<Bytes, AllocError>
    ensures { IfOk result (λ shared. shared ≡ slice.now) }
{
    slice.slice(0..slice.len())
}

/// Returns the first `n` bytes.
pub(crate) fn first(bytes: &[u8], n: usize) -> &[u8]
    requires { n ≤ length bytes.now }
    ensures { result.now ≡ take n bytes.now }
{
    &bytes[..n]
}

/// Returns the bytes after the first `n`.
pub(crate) fn behind(bytes: &[u8], n: usize) -> &[u8]
    requires { n ≤ length bytes.now }
    ensures { result.now ≡ drop n bytes.now }
{
    &bytes[n..]
}

/// Puts a slice back at the start, with no own bytes before it, unless it is empty.
pub(crate) fn put_back(slices: &mut VecDeque<Slice>, slice: Slice)
    requires room { deque_len slices.old < deque_capacity slices.old }
    requires none { slice.before ≡ 0 }
    ensures due { (own : List ℕ) → woven slices.new.items own
        ≡ slice.bytes ++ woven slices.old.items own }
    ensures count { (before shared : ℕ) → IsCounted slices.old.items before shared
        → IsCounted slices.new.items before (length slice.bytes + shared) }
    ensures len { deque_len slices.new ≤ deque_len slices.old + 1 }
    ensures capacity { deque_capacity slices.new ≡ deque_capacity slices.old }
{
    if !slice.bytes.is_empty() {
        slices.push_front_reserved(slice);
    }
}

/// Returns the first `n` queued bytes, shared, if the first slice alone contains them. It is `None`
/// also if the allocation for another owner fails.
pub(crate) fn share_front(slices: &VecDeque<Slice>, n: usize) -> Option<Bytes>
    ensures { IfSome result (λ bytes. (own : List ℕ)
        → bytes ≡ take n (woven slices.now.items own)) }
{
    let slice = slices.front()?;
    if slice.before > 0 || n > slice.bytes.len() {
        return None;
    }
    slice.bytes.slice(0..n).ok()
}

/// Fills an empty text up to `max` bytes from own bytes with the slices among them. Looks at no
/// slice after these.
pub(crate) fn fill(
    text: &mut Text,
    slices: &VecDeque<Slice>,
    own: &[u8],
    max: usize,
) -> Result<(), AllocError>
    requires empty { text.old ≡ [] }
    requires within { own_before slices.now.items ≤ length own.now }
    ensures { OnOk result (text.new ≡ take max (woven slices.now.items own.now)) }
{
    let mut left = own;
    for i in 0..slices.len() {
        if text.len() >= max {
            return Ok(());
        }
        let slice = &slices[i];
        fill_up(text, first(left, slice.before), max)?;
        fill_up(text, slice.bytes.as_slice(), max)?;
        left = behind(left, slice.before);
    }
    fill_up(text, left, max)
}

/// Appends the first of some bytes to a text, up to `max` bytes in all.
fn fill_up(text: &mut Text, bytes: &[u8], max: usize) -> Result<(), AllocError>
    ensures { OnOk result (text.new ≡ text.old ++ take (max - length text.old) bytes.now) }
{
    let n = max.saturating_sub(text.len()).min(bytes.len());
    text.push_slice(first(bytes, n))
}

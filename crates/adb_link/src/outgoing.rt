//! One queued packet.

ghost use Rattle.std.specs.Prelude.{◌≡◌, ◌<◌, ◌≤◌, ◌+◌, ◌-◌, ◌++◌, length, take, drop, IfOk, IfSome, OnOk};
ghost use Rattle.adb_wire.specs.Header.{header_bytes};
ghost use Rattle.adb_wire.specs.declared.headers.TheConstants.{MAX_PAYLOAD};

use adb_outside::{HandOut, SplitBytes, Text};
use adb_wire::{HEADER_LEN, Head, header};
use bytes::Bytes;
use std::alloc::AllocError;
use std::marker::Model;

/// The maximum number of bytes of a payload that a packet holds inline.
pub const MAX_SHORT: usize = 8;

/// The number of bytes that a packet holds inline: a header and a short payload.
const START_LEN: usize = HEADER_LEN + MAX_SHORT;

/// States the numbers that definitions take from the code.
pub fn limits_are()
    ensures short { MAX_SHORT ≡ 8 }
    ensures start { START_LEN ≡ 32 }
{}

/// The bytes of a packet that are still queued: those of its start, which is the header and a short
/// payload, and those of its shared payload. Contracts see it as these bytes.
#[derive(Drop)]
pub(crate) struct Outgoing {
    start: [u8; START_LEN],
    /// The start of the range of inline bytes that are still queued,
    from: usize,
    /// and its end.
    to: usize,
    payload: SplitBytes,
}

impl Model for Outgoing {
    ghost use Rattle.std.specs.Prelude.{List, ℕ};
    ghost use Rattle.adb_link.specs.Outgoing.{left_of, IsHeld};

    ghost Value = { List ℕ };

    ghost view = { λ packet. left_of packet.start packet.from packet.to packet.payload };

    ghost invariant = { λ packet. IsHeld packet.start packet.from packet.to packet.payload };
}

/// Overwrites the bytes from a place on.
fn put_at(out: &mut [u8; START_LEN], at: usize, bytes: &[u8])
    requires { at + length bytes.now ≤ START_LEN }
    ensures { out.new ≡ take at out.old ++ bytes.now ++ drop (at + length bytes.now) out.old }
{
    out[at..at + bytes.len()].copy_from_slice(bytes);
}

/// Appends the first of some bytes to a text, up to `max` bytes in all.
fn fill_up(text: &mut Text, bytes: &[u8], max: usize) -> Result<(), AllocError>
    ensures { OnOk result (text.new ≡ text.old ++ take (max - length text.old) bytes.now) }
{
    let n = max.saturating_sub(text.len()).min(bytes.len());
    text.push_slice(&bytes[..n])
}

/// Returns the first bytes, at most `max`.
fn first(bytes: &[u8], max: usize) -> &[u8]
    ensures { result.now ≡ take max bytes.now }
{
    &bytes[..max.min(bytes.len())]
}

/// Returns the first bytes of a payload, at most `max`, shared.
fn share_first(payload: &Bytes, max: usize) -> Result<Bytes, AllocError>
    ensures { IfOk result (λ front. front ≡ take max payload.now) }
{
    let mut front = payload.clone()?;
    front.truncate(max);
    Ok(front)
}

impl Outgoing {
    /// Returns a packet of a header, a short payload and a shared payload. Allocates nothing.
    pub(crate) fn new(head: &Head, short: &[u8], payload: SplitBytes) -> Outgoing
        requires short { length short.now ≤ MAX_SHORT }
        requires size { length payload ≤ MAX_PAYLOAD }
        ensures { result ≡ header_bytes head.now ++ short.now ++ payload }
    {
        let mut words = [0; HEADER_LEN];
        header(head, &mut words);
        let mut start = [0; START_LEN];
        put_at(&mut start, 0, &words);
        put_at(&mut start, HEADER_LEN, short);
        Outgoing {
            start,
            from: 0,
            to: HEADER_LEN + short.len(),
            payload,
        }
    }

    /// Returns how many bytes are still queued.
    pub(crate) fn len(&self) -> usize
        ensures { result ≡ length self.now }
    {
        self.to - self.from + self.payload.len()
    }

    /// Returns how many bytes can be handed out without copying a payload: those up to the end of
    /// the first payload slice that is left.
    pub(crate) fn first_len(&self) -> usize
        ensures { result ≤ length self.now }
    {
        self.to - self.from + self.payload.first().len()
    }

    /// Appends the first queued bytes to a text, up to `max` bytes in all.
    pub(crate) fn fill(&self, text: &mut Text, max: usize) -> Result<(), AllocError>
        ensures { OnOk result (text.new ≡ text.old ++ take (max - length text.old) self.now) }
    {
        fill_up(text, &self.start[self.from..self.to], max)?;
        let payload = self.payload.parts();
        fill_up(text, payload.start, max)?;
        fill_up(text, payload.rest, max)
    }

    /// Returns the first `n` queued bytes if they reach no further than the first slice of the
    /// payload, which is shared.
    pub(crate) fn share(&self, n: usize) -> Result<Option<HandOut>, AllocError>
        ensures { IfOk result (λ shared. IfSome shared
            (λ bytes. (n ≤ length self.now) × (bytes ≡ take n self.now))) }
    {
        let start = &self.start[self.from..self.to];
        let slice = self.payload.first();
        if n > start.len() + slice.len() {
            return Ok(None);
        }
        let start = first(start, n);
        let payload = share_first(slice, n - start.len())?;
        Ok(Some(HandOut::framed(start, payload)))
    }

    /// Removes the first `n` bytes, which were handed out. Allocates nothing.
    pub(crate) fn hand(&mut self, n: usize)
        requires { n ≤ length self.old }
        ensures { self.new ≡ drop n self.old }
    {
        let of_start = n.min(self.to - self.from);
        self.from += of_start;
        self.payload.advance(n - of_start);
    }
}

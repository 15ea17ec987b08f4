//! Cutting bytes into frames, and the remainder after the last whole frame.

ghost use Rattle.std.specs.Prelude.{◌≡◌, ◌<◌, ◌≤◌, ◌++◌, [], length, take, IfOk, None};
ghost use Rattle.adb_outside.specs.Framing.{cut, joined};
ghost use Rattle.adb_outside.specs.Further.{cut_of, further, further_at};

use crate::framer::{Format, Front};
use crate::gather::Gather;
use bytes::Bytes;
use std::alloc::{AllocError, Global};
use std::collections::VecDeque;

/// The remainder after the frames that were cut: how its bytes are read, the bytes, and the fault
/// there, if any.
#[derive(Drop)]
pub(crate) struct Behind<S: Drop, F: Drop> {
    pub(crate) format: S,
    pub(crate) held: Gather,
    pub(crate) fault: Option<F>,
}

/// Cuts the held bytes followed by a piece. The held bytes stay as they are.
pub(crate) fn advance<V: Drop, F: Copy, S: Format<V, F>>(
    alloc: Global,
    format: S,
    held: &mut Gather,
    ready: &mut VecDeque<V>,
    piece: &[u8],
) -> Result<Behind<S, F>, AllocError>
    ensures stays { held.new ≡ held.old }
    ensures cut { IfOk result (λ behind. cut_of ready.new.items behind
        ≡ joined ready.old.items (cut S.find S.item S.after format (held.old ++ piece.now))) }
    ensures ready { take (length ready.old.items) ready.new.items ≡ ready.old.items }
{
    if held.is_empty() {
        return cut(alloc, format, piece, ready);
    }
    let left = piece.len();
    let n = format.missing(held.as_slice()).unwrap_or(left).min(left);
    let all = held.join(&piece[..n])?;
    let behind = cut_gathered(alloc, format, all, ready)?;
    behind.take(alloc, &piece[n..], ready)
}

/// Cuts bytes of which none are gathered yet.
fn cut<V: Drop, F: Copy, S: Format<V, F>>(
    alloc: Global,
    from: S,
    bytes: &[u8],
    ready: &mut VecDeque<V>,
) -> Result<Behind<S, F>, AllocError>
    ensures cut { IfOk result (λ behind. cut_of ready.new.items behind
        ≡ joined ready.old.items (cut S.find S.item S.after from bytes.now)) }
    ensures ready { take (length ready.old.items) ready.new.items ≡ ready.old.items }
{
    let mut format = from;
    let mut at = 0;
    let mut front = format.front(bytes);
    while let Front::Whole(n) = front {
        let frame = &bytes[at..at + n];
        let item = format.read(alloc, frame)?;
        ready.push_back(item)?;
        format = format.past(frame);
        at += n;
        front = format.front(&bytes[at..]);
    }
    let mut held = Gather::new(alloc);
    held.push(&bytes[at..])?;
    Ok(Behind {
        format,
        held,
        fault: front.fault(),
    })
}

/// Cuts gathered bytes. If they are exactly one frame, the frame is not copied.
fn cut_gathered<V: Drop, F: Copy, S: Format<V, F>>(
    alloc: Global,
    format: S,
    all: Bytes,
    ready: &mut VecDeque<V>,
) -> Result<Behind<S, F>, AllocError>
    ensures cut { IfOk result (λ behind. cut_of ready.new.items behind
        ≡ joined ready.old.items (cut S.find S.item S.after format all)) }
    ensures ready { take (length ready.old.items) ready.new.items ≡ ready.old.items }
{
    match format.front(all.as_slice()) {
        Front::Whole(n) if n == all.len() => keep(alloc, format, all, ready),
        Front::Whole(_) => cut(alloc, format, all.as_slice(), ready),
        front => Ok(Behind {
            format,
            held: Gather::of(alloc, all),
            fault: front.fault(),
        }),
    }
}

/// Takes a frame that is gathered.
fn keep<V: Drop, F: Copy, S: Format<V, F>>(
    alloc: Global,
    format: S,
    frame: Bytes,
    ready: &mut VecDeque<V>,
) -> Result<Behind<S, F>, AllocError>
    requires { S.find format frame ≡ Front.Whole (length frame) }
    ensures cut { IfOk result (λ behind. cut_of ready.new.items behind
        ≡ joined ready.old.items (cut S.find S.item S.after format frame)) }
    ensures ready { take (length ready.old.items) ready.new.items ≡ ready.old.items }
{
    let past = format.past(frame.as_slice());
    let item = format.keep(alloc, frame)?;
    ready.push_back(item)?;
    Ok(Behind {
        format: past,
        held: Gather::new(alloc),
        fault: None,
    })
}

impl<S: Drop, F: Copy> Behind<S, F> {
    /// Takes a further piece, part by part.
    fn take<V: Drop>(
        self,
        alloc: Global,
        piece: &[u8],
        ready: &mut VecDeque<V>,
    ) -> Result<Behind<S, F>, AllocError>
    where
        S: Format<V, F>,
        ensures cut { IfOk result (λ behind. cut_of ready.new.items behind
            ≡ further S.find S.item S.after (cut_of ready.old.items self) piece.now) }
        ensures ready { take (length ready.old.items) ready.new.items ≡ ready.old.items }
    {
        let mut behind = self;
        let mut from = 0;
        while from < piece.len() {
            let n = behind.part_len(piece.len() - from);
            behind = behind.take_part(alloc, &piece[from..from + n], ready)?;
            from += n;
        }
        Ok(behind)
    }

    /// Returns how many of `left` bytes are taken at once: as many as are missing to the frame that
    /// is being gathered, if there is one.
    fn part_len<V>(&self, left: usize) -> usize
    where
        S: Format<V, F>,
        requires { 0 < left }
        ensures some { 0 < result }
        ensures most { result ≤ left }
    {
        let missing = self.format.missing(self.held.as_slice());
        match missing {
            Some(n) if !self.held.is_empty() => n.max(1).min(left),
            _ => left,
        }
    }

    /// Takes one part of a piece.
    fn take_part<V: Drop>(
        self,
        alloc: Global,
        part: &[u8],
        ready: &mut VecDeque<V>,
    ) -> Result<Behind<S, F>, AllocError>
    where
        S: Format<V, F>,
        ensures cut { IfOk result (λ behind. cut_of ready.new.items behind
            ≡ further_at S.find S.item S.after (cut_of ready.old.items self) part.now self.fault) }
        ensures ready { take (length ready.old.items) ready.new.items ≡ ready.old.items }
    {
        let Behind {
            format,
            mut held,
            fault,
        } = self;
        if fault.is_some() {
            held.push(part)?;
            return Ok(Behind {
                format,
                held,
                fault,
            });
        }
        if held.is_empty() {
            return cut(alloc, format, part, ready);
        }
        let all = held.join(part)?;
        cut_gathered(alloc, format, all, ready)
    }
}

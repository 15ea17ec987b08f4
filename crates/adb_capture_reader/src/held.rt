//! The bytes that were read from a source and not taken yet.

ghost use Rattle.std.specs.Prelude.{◌≡◌, ◌<◌, ◌≤◌, ◌+◌, ◌-◌, ℕ, List, [], length, take, drop, slice_range, IfOk, OnOk};
ghost use Rattle.adb_outside.specs.Outside.{Counts};
ghost use Rattle.adb_outside.specs.Source.{TellsRead, is_failed_read};
ghost use Rattle.adb_capture.specs.declared.limits.TheConstants.{MAX_READ};
ghost use Rattle.adb_capture_reader.specs.Counting.{KeepsBytes, is_failed};
ghost use Rattle.adb_capture_reader.specs.Awaiting.{BringsOneRead, ReadsMore};

use adb_capture::MAX_READ;
use adb_outside::{Got, Source};
use std::alloc::{AllocError, Global};
use std::marker::Model;

/// The initial size of the buffer in bytes.
const ROOM: usize = 4 * MAX_READ;

/// The bytes that were read and not taken yet, in the buffer into which the source put them.
#[derive(Drop)]
pub(crate) struct Held {
    buffer: Vec<u8>,
    start: usize,
    end: usize,
}

impl Model for Held {
    ghost use Rattle.std.specs.Prelude.{◌≤◌, List, ℕ, length, take, drop};

    ghost Value = { List ℕ };

    ghost view = { λ h. drop h.start (take h.end h.buffer.items) };

    ghost invariant = { λ h. record {
      ordered : h.start ≤ h.end;
      within : h.end ≤ length h.buffer.items;
    } };
}

impl Held {
    /// Returns a buffer without bytes.
    pub(crate) fn new(alloc: Global) -> Result<Held, AllocError>
        ensures { IfOk result (λ h. h ≡ []) }
    {
        Ok(Held {
            buffer: vec![in alloc; 0; ROOM]?,
            start: 0,
            end: 0,
        })
    }

    pub(crate) fn as_slice(&self) -> &[u8]
        ensures { result.now ≡ self.now }
    {
        &self.buffer[self.start..self.end]
    }

    /// Removes the first bytes.
    pub(crate) fn skip(&mut self, count: usize)
        requires { count ≤ length self.old }
        ensures { self.new ≡ drop count self.old }
    {
        self.start += count;
    }

    /// Reads more from the source. If an allocation fails, nothing was read.
    pub(crate) fn fill<S: Source>(&mut self, source: &mut S) -> Result<Got, AllocError>
        ensures bytes { KeepsBytes self.old (S.left source.old) self.new (S.left source.new) }
        ensures more { ReadsMore self.old (S.left source.old) self.new result }
        ensures counts { Counts S.steady S.faults source.old source.new (is_failed result) }
    {
        let len = self.end - self.start;
        self.start = make_way(&mut self.buffer, self.start, self.end);
        self.end = self.start + len;
        grow(&mut self.buffer, self.end)?;
        let got = read_behind(&mut self.buffer, self.end, source);
        if let Got::Bytes(count) = got {
            self.end += count;
        }
        Ok(got)
    }
}

/// Moves the bytes between `start` and `end` to the start of the buffer if there are none, or if no
/// read has room after them. Returns where they start afterwards.
fn make_way(buffer: &mut Vec<u8>, start: usize, end: usize) -> usize
    requires ordered { start ≤ end }
    requires within { end ≤ length buffer.old.items }
    ensures len { length buffer.new.items ≡ length buffer.old.items }
    ensures start { result ≤ start }
    ensures same { drop result (take (result + (end - start)) buffer.new.items)
        ≡ drop start (take end buffer.old.items) }
{
    if start < end && buffer.len() - end >= MAX_READ {
        return start;
    }
    buffer.copy_within(start..end, 0);
    0
}

/// Makes room for a read after the first `end` bytes.
fn grow(buffer: &mut Vec<u8>, end: usize) -> Result<(), AllocError>
    requires { end ≤ length buffer.old.items }
    ensures len { length buffer.old.items ≤ length buffer.new.items }
    ensures room { OnOk result (end + MAX_READ ≤ length buffer.new.items) }
    ensures same { take end buffer.new.items ≡ take end buffer.old.items }
{
    if buffer.len() - end >= MAX_READ {
        return Ok(());
    }
    let twice = 2 * buffer.len();
    buffer.resize(twice.max(end + MAX_READ), 0)
}

/// Reads into the space after the first `end` bytes.
fn read_behind<S: Source>(buffer: &mut Vec<u8>, end: usize, source: &mut S) -> Got
    requires { end + MAX_READ ≤ length buffer.old.items }
    ensures len { length buffer.new.items ≡ length buffer.old.items }
    ensures same { take end buffer.new.items ≡ take end buffer.old.items }
    ensures fits { BringsOneRead result }
    ensures told { TellsRead (S.left source.old) (S.left source.new)
        (slice_range buffer.new.items end (end + MAX_READ)) result }
    ensures counts { Counts S.steady S.faults source.old source.new (is_failed_read result) }
{
    source.read(&mut buffer.as_mut_slice()[end..end + MAX_READ])
}

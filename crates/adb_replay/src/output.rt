//! The output buffer of a replay, which is written in large pieces.

ghost use Rattle.std.specs.Prelude.{◌≡◌, ◌++◌, ℕ, List, [], IfOk, OnErr};
ghost use Rattle.adb_outside.specs.Outside.{Counts};
ghost use Rattle.adb_capture.specs.Records.{HasRecord, magic};
ghost use Rattle.adb_replay.specs.Keeping.{Keeps, KeepsBytes, KeepsEntry, KeepsMore, WritesOut, IsLoss};
ghost use Rattle.adb_replay.specs.Keeping.{IsWriteEnd, is_write_fault};

use crate::stop::Stop;
use adb_capture::{Entry, LARGE, append_magic, append_start};
use adb_capture_reader::Record;
use adb_outside::{ByteQueue, Sink, Wrote};
use std::alloc::{AllocError, Global};
use std::marker::Model;

/// The least number of bytes of a piece that is written before the end.
const PIECE: usize = 4 * LARGE;

/// The output buffer for a sink. It holds the suffix of the kept bytes that was not written yet.
#[derive(Drop)]
pub struct Output {
    gathered: ByteQueue,
}

impl Model for Output {
    ghost use Rattle.std.specs.Prelude.{List, ℕ};

    ghost Value = { List ℕ };

    ghost view = { λ output. output.gathered.bytes };
}

impl Output {
    /// Returns a buffer that holds the magic. Fails if an allocation fails.
    pub fn new(alloc: Global) -> Result<Output, AllocError>
        ensures { IfOk result (λ output. output ≡ magic) }
    {
        let mut gathered = ByteQueue::new(alloc);
        gathered.reserve(2 * PIECE)?;
        append_magic(&mut gathered)?;
        Ok(Output { gathered })
    }

    /// Returns a buffer that holds no bytes and has room for two pieces. Fails if an allocation
    /// fails.
    pub fn empty(alloc: Global) -> Result<Output, AllocError>
        ensures { IfOk result (λ output. output ≡ []) }
    {
        let mut gathered = ByteQueue::new(alloc);
        gathered.reserve(2 * PIECE)?;
        Ok(Output { gathered })
    }

    /// Appends the record of an entry. If the end of the record is large, it is written directly,
    /// after the buffer is flushed; otherwise the buffer is flushed once it holds a piece. The
    /// errors are those of `keep_bytes`.
    pub fn keep<K: Sink>(&mut self, sink: &mut K, entry: &Entry) -> Result<(), Stop>
        requires { HasRecord entry.now }
        ensures kept { KeepsEntry result entry.now
            (K.written sink.old, self.old) (K.written sink.new, self.new) }
        ensures loss { IsLoss result }
        ensures counts { Counts K.steady K.faults sink.old sink.new (is_write_fault result) }
    {
        let end = append_start(&mut self.gathered, entry)?;
        self.keep_end(sink, end)
    }

    /// Appends a record that was read. If the record is large, it is written directly, after the
    /// buffer is flushed; otherwise the buffer is flushed once it holds a piece. The errors are
    /// those of `keep_bytes`.
    pub fn keep_record<K: Sink>(&mut self, sink: &mut K, read: &Record<'_>) -> Result<(), Stop>
        ensures kept { KeepsEntry result read.now.1
            (K.written sink.old, self.old) (K.written sink.new, self.new) }
        ensures loss { IsLoss result }
        ensures counts { Counts K.steady K.faults sink.old sink.new (is_write_fault result) }
    {
        let end = self.gather(read.bytes())?;
        self.keep_end(sink, end)
    }

    /// Keeps bytes for the sink. At least `LARGE` bytes are written directly, after the buffer is
    /// flushed; fewer are appended to the buffer, which is flushed once it holds a piece.
    ///
    /// - `WriteFault`: the sink failed. A prefix of all that was kept is written, and the buffer is
    ///   empty.
    /// - `OutOfMemory`: the bytes are not kept, and all else is unchanged.
    pub fn keep_bytes<K: Sink>(&mut self, sink: &mut K, bytes: &[u8]) -> Result<(), Stop>
        ensures kept { KeepsBytes result bytes.now
            (K.written sink.old, self.old) (K.written sink.new, self.new) }
        ensures loss { IsLoss result }
        ensures counts { Counts K.steady K.faults sink.old sink.new (is_write_fault result) }
    {
        let end = self.gather(bytes)?;
        self.keep_end(sink, end)
    }

    /// Appends bytes to the buffer, or returns them if they are many: the caller writes them
    /// directly, after the buffer. If an allocation fails, nothing is appended.
    fn gather<'a>(&mut self, bytes: &'a [u8]) -> Result<&'a [u8], AllocError>
        ensures ok { IfOk result (λ end. self.new ++ end.now ≡ self.old ++ bytes.entry.now) }
        ensures err { OnErr result (self.new ≡ self.old) }
    {
        if bytes.len() >= LARGE {
            return Ok(bytes);
        }
        self.gathered.push(bytes)?;
        Ok(&[])
    }

    /// Keeps the end of a record that starts in the buffer: it is written directly, after the
    /// buffer is flushed. If the end is empty, the buffer is flushed once it holds a piece.
    fn keep_end<K: Sink>(&mut self, sink: &mut K, end: &[u8]) -> Result<(), Stop>
        ensures kept { (had text piece : List ℕ)
            → Keeps had (text ++ piece) (K.written sink.old, self.old ++ end.now)
            → KeepsMore result had text piece (K.written sink.new, self.new) }
        ensures fault { IsWriteEnd result }
        ensures counts { Counts K.steady K.faults sink.old sink.new (is_write_fault result) }
    {
        if end.is_empty() && self.gathered.len() < PIECE {
            return Ok(());
        }
        self.write_out(sink)?;
        write_piece(sink, end)
    }

    /// Writes the buffered bytes. The buffer is empty afterwards. If the sink fails, a prefix of
    /// the bytes is written.
    pub fn write_out<K: Sink>(&mut self, sink: &mut K) -> Result<(), Stop>
        ensures out { (had text : List ℕ) → Keeps had text (K.written sink.old, self.old)
            → WritesOut result had text (K.written sink.new) }
        ensures nothing { self.old ≡ [] → sink.new ≡ sink.old }
        ensures empty { self.new ≡ [] }
        ensures fault { IsWriteEnd result }
        ensures counts { Counts K.steady K.faults sink.old sink.new (is_write_fault result) }
    {
        let wrote = write_piece(sink, self.gathered.as_slice());
        self.gathered.clear();
        wrote
    }
}

/// Writes a piece, unless it is empty.
fn write_piece<K: Sink>(sink: &mut K, piece: &[u8]) -> Result<(), Stop>
    ensures out { (had text : List ℕ) → Keeps had text (K.written sink.old, piece.now)
        → WritesOut result had text (K.written sink.new) }
    ensures nothing { piece.now ≡ [] → sink.new ≡ sink.old }
    ensures fault { IsWriteEnd result }
    ensures counts { Counts K.steady K.faults sink.old sink.new (is_write_fault result) }
{
    if piece.is_empty() {
        return Ok(());
    }
    match sink.write(piece) {
        Wrote::All => Ok(()),
        Wrote::Failed { taken: _ } => Err(Stop::WriteFault),
    }
}

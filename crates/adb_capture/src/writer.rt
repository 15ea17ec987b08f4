//! Writing captures.

ghost use Rattle.std.specs.Prelude.{◌≡◌, ◌<◌, ◌≤◌, ◌+◌, ◌++◌, ◌^◌, ℕ, IfOk, OnOk, OnErr, length, take};
ghost use Rattle.adb_outside.specs.declared.hand_out.TheConstants.{MAX_START};
ghost use Rattle.adb_outside.specs.Outside.{Counts};
ghost use Rattle.adb_outside.specs.Sink.{FitsPiece, TellsWrite, is_failed_write};
ghost use Rattle.adb_capture.specs.declared.limits.TheConstants.{RECORD_HEADER_LEN, MAX_DATA};
ghost use Rattle.adb_capture.specs.declared.writer.TheConstants.{MAX_HEAD};
ghost use Rattle.adb_capture.specs.Records.{magic, kind_of, record_of, cause_byte, plug_letter, came_from, HasRecord};
ghost use Rattle.adb_capture.specs.Pieces.{text_of, word_of};

use crate::entry::{Entry, Owner};
use crate::limits::RECORD_HEADER_LEN;
use adb_outside::{ByteQueue, Cause, Kind, MAX_START, Parts, Sink, Wrote};
use byteorder::{ByteOrder, LittleEndian};
use std::alloc::AllocError;
use std::marker::Model;

/// The eight bytes that a capture begins with.
pub const MAGIC: [u8; 8] = *b"ADBHUB1\n";

/// Writes the eight bytes that a capture begins with. Allocates nothing.
pub fn write_magic<K: Sink>(sink: &mut K) -> Wrote
    ensures fits { FitsPiece magic result }
    ensures told { TellsWrite (K.written sink.old) (K.written sink.new) magic result }
    ensures counts { Counts K.steady K.faults sink.old sink.new (is_failed_write result) }
{
    sink.write(&MAGIC)
}

/// Writes the record of an entry, which has at most 2,097,152 bytes of data. `Failed` holds the
/// number of bytes of the record that went out. Allocates nothing.
pub fn write_entry<K: Sink>(sink: &mut K, entry: &Entry) -> Wrote
    requires { HasRecord entry.now }
    ensures fits { FitsPiece (record_of entry.now) result }
    ensures told { TellsWrite (K.written sink.old) (K.written sink.new)
        (record_of entry.now) result }
    ensures counts { Counts K.steady K.faults sink.old sink.new (is_failed_write result) }
{
    let Spelled { head, rest } = Spelled::of(entry);
    write_both(sink, head.as_slice(), rest)
}

/// Appends the eight bytes that a capture begins with. If an allocation fails, the bytes are
/// unchanged.
pub fn append_magic(bytes: &mut ByteQueue) -> Result<(), AllocError>
    ensures ok { OnOk result (bytes.new.bytes ≡ bytes.old.bytes ++ magic) }
    ensures err { OnErr result (bytes.new.bytes ≡ bytes.old.bytes) }
{
    bytes.push(&MAGIC)
}

/// Appends the record of an entry, which has at most 2,097,152 bytes of data. If an allocation
/// fails, the bytes are unchanged.
pub fn append_entry(bytes: &mut ByteQueue, entry: &Entry) -> Result<(), AllocError>
    requires { HasRecord entry.now }
    ensures ok { OnOk result (bytes.new.bytes ≡ bytes.old.bytes ++ record_of entry.now) }
    ensures err { OnErr result (bytes.new.bytes ≡ bytes.old.bytes) }
{
    let Spelled { head, rest } = Spelled::of(entry);
    append_parts(bytes, head.as_slice(), rest)
}

/// The least length of a record's end that is written directly instead of being copied after its
/// start. From this length on a separate write costs less than the copy.
pub const LARGE: usize = 16 * 1024;

/// Appends the record of an entry, which has at most 2,097,152 bytes of data. If the end of the
/// record is large, the function returns it instead of appending it, and the caller writes it after
/// the bytes. If an allocation fails, the bytes are unchanged.
pub fn append_start<'a>(bytes: &mut ByteQueue, entry: &'a Entry) -> Result<&'a [u8], AllocError>
    requires { HasRecord entry.now }
    ensures ok { IfOk result (λ end. bytes.new.bytes ++ end.now
        ≡ bytes.old.bytes ++ record_of entry.entry.now) }
    ensures err { OnErr result (bytes.new.bytes ≡ bytes.old.bytes) }
{
    let Spelled { head, rest } = Spelled::of(entry);
    if rest.len() < LARGE {
        append_parts(bytes, head.as_slice(), rest)?;
        return Ok(&[]);
    }
    bytes.push(head.as_slice())?;
    Ok(rest)
}

/// Appends bytes in two parts. If an allocation fails, the bytes are unchanged.
fn append_parts(bytes: &mut ByteQueue, start: &[u8], rest: &[u8]) -> Result<(), AllocError>
    requires { length start.now + length rest.now < 2 ^ 63 }
    ensures ok { OnOk result (bytes.new.bytes ≡ bytes.old.bytes ++ (start.now ++ rest.now)) }
    ensures err { OnErr result (bytes.new.bytes ≡ bytes.old.bytes) }
{
    bytes.reserve(start.len() + rest.len())?;
    bytes.push_spare(start);
    bytes.push_spare(rest);
    Ok(())
}

/// Writes `first`, which is not empty, and then `last`, which may be. `Failed` holds the number of
/// bytes of both that went out. Allocates nothing.
pub fn write_both<K: Sink>(sink: &mut K, first: &[u8], last: &[u8]) -> Wrote
    requires some { 0 < length first.now }
    requires small { length first.now + length last.now < 2 ^ 63 }
    ensures fits { FitsPiece (first.now ++ last.now) result }
    ensures told { TellsWrite (K.written sink.old) (K.written sink.new)
        (first.now ++ last.now) result }
    ensures counts { Counts K.steady K.faults sink.old sink.new (is_failed_write result) }
{
    match sink.write(first) {
        Wrote::Failed { taken } => Wrote::Failed { taken },
        Wrote::All if last.is_empty() => Wrote::All,
        Wrote::All => match sink.write(last) {
            Wrote::All => Wrote::All,
            Wrote::Failed { taken } => Wrote::Failed {
                taken: first.len() + taken,
            },
        },
    }
}

/// The maximum number of bytes of a head: those before a text, and the start of one.
const MAX_HEAD: usize = RECORD_HEADER_LEN + 2 + MAX_START;

/// The bytes of a record before its text: the kind, the number, the length of the data, the data
/// that are no text, and possibly the start of the text.
#[derive(Drop)]
pub struct Head {
    bytes: [u8; MAX_HEAD],
    len: usize,
}

impl Model for Head {
    ghost use Rattle.std.specs.Prelude.{◌≤◌, List, ℕ, take};
    ghost use Rattle.adb_capture.specs.declared.limits.TheConstants.{RECORD_HEADER_LEN};
    ghost use Rattle.adb_capture.specs.declared.writer.TheConstants.{MAX_HEAD};

    ghost Value = { List ℕ };

    ghost view = { λ head. take head.len head.bytes };

    ghost invariant = { λ head. (RECORD_HEADER_LEN ≤ head.len) × (head.len ≤ MAX_HEAD) };
}

impl Head {
    /// Returns the head of an entry's record, without any of its text.
    pub fn of(entry: &Entry) -> Head
        requires { HasRecord entry.now }
        ensures is { result ++ text_of entry.now ≡ record_of entry.now }
        ensures len { (RECORD_HEADER_LEN ≤ length result) × (length result ≤ 11) }
    {
        let word = Word::of(entry);
        let size = word.len + text_len(entry);
        let mut bytes = [0; MAX_HEAD];
        bytes[0] = letter(entry);
        LittleEndian::write_u32(&mut bytes[1..5], entry.owner().number());
        LittleEndian::write_u32(&mut bytes[5..9], size as u32);
        bytes[9] = word.bytes[0];
        bytes[10] = word.bytes[1];
        Head {
            bytes,
            len: RECORD_HEADER_LEN + word.len,
        }
    }

    /// Returns the head of the record of a piece that came from a client or a device.
    pub fn of_piece(from: Owner, piece: &[u8]) -> Head
        requires { length piece.now ≤ MAX_DATA }
        ensures is { result ++ piece.now ≡ record_of (came_from from piece.now) }
        ensures len { length result ≡ RECORD_HEADER_LEN }
    {
        let mut bytes = [0; MAX_HEAD];
        bytes[0] = match from {
            Owner::Client(_) => b'R',
            Owner::Link(_) => b'V',
        };
        LittleEndian::write_u32(&mut bytes[1..5], from.number());
        LittleEndian::write_u32(&mut bytes[5..9], piece.len() as u32);
        Head {
            bytes,
            len: RECORD_HEADER_LEN,
        }
    }

    /// Returns the bytes of the head.
    pub fn as_slice(&self) -> &[u8]
        ensures { result.now ≡ self.now }
    {
        &self.bytes[..self.len]
    }

    fn push(&mut self, bytes: &[u8])
        requires { length self.old + length bytes.now ≤ MAX_HEAD }
        ensures { self.new ≡ self.old ++ bytes.now }
    {
        let len = self.len + bytes.len();
        self.bytes[self.len..len].copy_from_slice(bytes);
        self.len = len;
    }
}

/// The record of an entry in the two parts in which it is written.
#[derive(Drop)]
pub struct Spelled<'a> {
    /// The head, with the start of the text.
    pub head: Head,
    /// The rest of the text, borrowed from the entry.
    pub rest: &'a [u8],
}

impl<'a> Spelled<'a> {
    /// Splits the record of an entry, which has at most 2,097,152 bytes of data.
    pub fn of(entry: &'a Entry) -> Spelled<'a>
        requires { HasRecord entry.now }
        ensures is { result.head ++ result.rest.now ≡ record_of entry.now }
        ensures len { (RECORD_HEADER_LEN ≤ length result.head) × (length result.head ≤ MAX_HEAD) }
        ensures size { length result.rest.now ≤ MAX_DATA }
    {
        let mut head = Head::of(entry);
        let Parts { start, rest } = parts(entry);
        head.push(start);
        Spelled { head, rest }
    }
}

/// The data of a record that are not part of its text.
#[derive(Drop)]
struct Word {
    bytes: [u8; 2],
    len: usize,
}

impl Word {
    fn of(entry: &Entry) -> Word
        ensures is { take result.len result.bytes ≡ word_of entry.now }
        ensures len { (result.len ≤ 2) × (result.len ≡ length (word_of entry.now)) }
    {
        match entry {
            Entry::Enter { port, .. } | Entry::Bound { port, .. } => Word {
                bytes: port.to_le_bytes(),
                len: 2,
            },
            Entry::End { cause, .. } | Entry::Detach { cause, .. } => Word {
                bytes: [cause_code(*cause), 0],
                len: 1,
            },
            Entry::Attach { kind, .. } => Word {
                bytes: [plug_code(*kind), 0],
                len: 1,
            },
            _ => Word {
                bytes: [0, 0],
                len: 0,
            },
        }
    }
}

/// Returns the parts of an entry's text. The first part is short.
fn parts(entry: &Entry) -> Parts<'_>
    ensures is { result.start.now ++ result.rest.now ≡ text_of entry.now }
    ensures short { length result.start.now ≤ MAX_START }
    ensures part { length result.rest.now ≤ length (text_of entry.now) }
{
    match entry {
        Entry::Read { bytes, .. } | Entry::Recv { bytes, .. } => whole(bytes.as_slice()),
        Entry::Put { bytes, .. } | Entry::Send { bytes, .. } => bytes.parts(),
        Entry::Attach { serial, .. } => whole(serial.as_slice()),
        _ => whole(&[]),
    }
}

/// Returns bytes that lie in one part.
fn whole(rest: &[u8]) -> Parts<'_>
    ensures is { result.start.now ++ result.rest.now ≡ rest.now }
    ensures short { length result.start.now ≤ MAX_START }
    ensures part { length result.rest.now ≤ length rest.now }
{
    Parts { start: &[], rest }
}

fn text_len(entry: &Entry) -> usize
    ensures { result ≡ length (text_of entry.now) }
{
    let Parts { start, rest } = parts(entry);
    start.len() + rest.len()
}

fn letter(entry: &Entry) -> u8
    ensures { result ≡ kind_of entry.now }
{
    match entry {
        Entry::Join { .. } => b'J',
        Entry::Enter { .. } => b'N',
        Entry::Read { .. } => b'R',
        Entry::End { .. } => b'E',
        Entry::Bound { .. } => b'B',
        Entry::Attach { .. } => b'A',
        Entry::Recv { .. } => b'V',
        Entry::Detach { .. } => b'D',
        Entry::Put { .. } => b'P',
        Entry::Send { .. } => b'S',
    }
}

fn cause_code(cause: Cause) -> u8
    ensures { result ≡ cause_byte cause }
{
    match cause {
        Cause::Eof => 0,
        Cause::Fault => 1,
        Cause::Starved => 2,
        Cause::NoThread => 3,
    }
}

fn plug_code(kind: Kind) -> u8
    ensures { result ≡ plug_letter kind }
{
    match kind {
        Kind::Usb => b'u',
        Kind::Local => b'l',
    }
}

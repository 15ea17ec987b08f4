//! Records: at the start of some bytes, and borrowed.

ghost use Rattle.std.specs.Prelude.{◌≡◌, ◌≤◌, ℕ, IfOk, length, take};
ghost use Rattle.adb_capture.specs.declared.limits.TheConstants.{RECORD_HEADER_LEN};
ghost use Rattle.adb_capture.specs.Lent.{entry_lent};
ghost use Rattle.adb_capture.specs.Records.{record_at, record_of, entry_in, is_kind, owner_in, size_in, HasRecord};
ghost use Rattle.adb_capture_reader.specs.Forms.{entry_by};

use crate::form::Form;
use adb_capture::{Entry, FormFault, Lent, MAX_CAPTURE, MAX_DATA, RECORD_HEADER_LEN, Why};
use adb_outside::Front;
use byteorder::{ByteOrder, LittleEndian};
use std::alloc::{AllocError, Global};
use std::marker::Model;

/// Returns what the bytes at an offset of a capture begin with: a record, or its first fault.
#[tactic(auto, unfolding(adb_capture::specs::Records::record_at))]
pub(crate) fn front(offset: u64, bytes: &[u8]) -> Front<FormFault>
    requires { offset ≤ MAX_CAPTURE }
    ensures { result ≡ record_at offset bytes.now }
{
    if bytes.len() < RECORD_HEADER_LEN {
        return Front::More;
    }
    if !has_kind(bytes[0]) {
        return bad(offset, Why::UnknownKind);
    }
    let size = data_len(bytes) as usize;
    if size > MAX_DATA {
        return bad(offset, Why::TooLarge);
    }
    if offset + RECORD_HEADER_LEN as u64 + size as u64 > MAX_CAPTURE {
        return Front::Bad(FormFault::TooLong { offset });
    }
    let end = RECORD_HEADER_LEN + size;
    if bytes.len() < end {
        return Front::More;
    }
    match Form::of(bytes[0], &bytes[RECORD_HEADER_LEN..end]) {
        None => bad(offset, Why::BadForm),
        Some(_) => Front::Whole(end),
    }
}

/// A record borrowed from the buffer into which it was read. Contracts see the offset of its first
/// byte and its entry.
#[derive(Drop)]
pub struct Record<'a> {
    offset: u64,
    bytes: &'a [u8],
}

impl<'a> Model for Record<'a> {
    ghost use Rattle.std.specs.Prelude.{◌≡◌, ℕ, length};
    ghost use Rattle.adb_outside.specs.declared.framer.Front.TheVariants.{Whole};
    ghost use Rattle.adb_capture.specs.declared.entry.Entry.{Entry};
    ghost use Rattle.adb_capture.specs.Records.{record_at, entry_in};

    ghost Value = { ℕ × Entry };

    ghost view = { λ r. entry_in r.offset r.bytes.now };

    ghost invariant = { λ r.
        record_at r.offset r.bytes.now ≡ Whole (length r.bytes.now) };
}

impl<'a> Record<'a> {
    /// Returns the record that the bytes are.
    pub(crate) fn new(offset: u64, bytes: &'a [u8]) -> Record<'a>
        requires { record_at offset bytes.now ≡ Front.Whole (length bytes.now) }
        ensures { result ≡ entry_in offset bytes.now }
    {
        Record { offset, bytes }
    }

    /// Returns the offset of the record's first byte in the capture.
    pub fn offset(&self) -> u64
        ensures { result ≡ self.now.0 }
    {
        self.offset
    }

    /// Returns the record's bytes, which are the encoding of its entry.
    pub fn bytes(&self) -> &[u8]
        ensures { result.now ≡ record_of self.now.1 }
    {
        is_spelled(self.offset, self.bytes);
        self.bytes
    }

    /// Returns the record's entry, with the bytes of its text borrowed.
    pub fn entry(&self) -> Lent<'_>
        ensures is { entry_lent result ≡ self.now.1 }
        ensures form { HasRecord self.now.1 }
    {
        is_spelled(self.offset, self.bytes);
        let said = read(self.offset, self.bytes);
        said.form.lent(said.owner, said.content)
    }

    /// Returns the record's entry, with a copy of the bytes of its text. Fails if an allocation
    /// fails.
    pub fn copy(&self, alloc: Global) -> Result<Entry, AllocError>
        ensures is { IfOk result (λ e. e ≡ self.now.1) }
        ensures form { HasRecord self.now.1 }
    {
        is_spelled(self.offset, self.bytes);
        let said = read(self.offset, self.bytes);
        said.form.entry(alloc, said.owner, said.content)
    }
}

/// The content of a record: its number, its data, and their form.
#[derive(Drop)]
struct Said<'a> {
    form: Form,
    owner: u32,
    content: &'a [u8],
}

/// Returns the content of a whole record.
fn read(offset: u64, bytes: &[u8]) -> Said<'_>
    requires { record_at offset bytes.now ≡ Front.Whole (length bytes.now) }
    ensures { (offset, entry_by result.form result.owner result.content.now)
        ≡ entry_in offset bytes.now }
{
    let content = &bytes[RECORD_HEADER_LEN..];
    match Form::of(bytes[0], content) {
        Some(form) => Said {
            form,
            owner: owner(bytes),
            content,
        },
        None => unreachable!(),
    }
}

/// States that a record that is read has this encoding and no other: a law, as a function that does
/// nothing.
fn is_spelled(offset: u64, bytes: &[u8])
    requires { record_at offset bytes.now ≡ Front.Whole (length bytes.now) }
    ensures spelled { bytes.now ≡ record_of (entry_in offset bytes.now).1 }
    ensures form { HasRecord (entry_in offset bytes.now).1 }
{}

/// States that the entry of each whole record at the start of some bytes has a record: a law, as a
/// function that does nothing.
pub(crate) fn fronts_have_form(bytes: &[u8])
    ensures { (offset n : ℕ) → record_at offset bytes.now ≡ Front.Whole n
        → HasRecord (entry_in offset (take n bytes.now)).1 }
{}

fn bad(offset: u64, why: Why) -> Front<FormFault>
    ensures { result ≡ Front.Bad (FormFault.BadRecord offset why) }
{
    Front::Bad(FormFault::BadRecord { offset, why })
}

/// Returns whether some record is of that kind.
fn has_kind(letter: u8) -> bool
    ensures { result ≡ is_kind letter }
{
    matches!(
        letter,
        b'J' | b'N' | b'R' | b'E' | b'B' | b'A' | b'V' | b'D' | b'P' | b'S'
    )
}

/// Returns the number of the client or link.
fn owner(bytes: &[u8]) -> u32
    requires { RECORD_HEADER_LEN ≤ length bytes.now }
    ensures { result ≡ owner_in bytes.now }
{
    LittleEndian::read_u32(&bytes[1..])
}

fn data_len(bytes: &[u8]) -> u32
    requires { RECORD_HEADER_LEN ≤ length bytes.now }
    ensures { result ≡ size_in bytes.now }
{
    LittleEndian::read_u32(&bytes[5..])
}

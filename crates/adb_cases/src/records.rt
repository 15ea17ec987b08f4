//! Entries of each kind, and their records byte for byte.

ghost use Rattle.adb_capture.specs.Records.{HasRecord};

use adb_capture::{Entry, append_entry, append_magic, write_entry, write_magic};
use adb_outside::{ByteQueue, Cause, HandOut, Kind, MemorySink, Text, Wrote};
use std::alloc::{AllocError, Global};

/// The kind of an entry without a text.
#[derive(Clone, Copy, Drop)]
enum Plain {
    Join,
    Enter,
    End,
    Bound,
    Detach,
}

/// Returns whether an entry of that kind has the expected record.
fn is_plain_spelled(alloc: Global, kind: Plain) -> Result<bool, AllocError> {
    match kind {
        Plain::Join => {
            let entry = Entry::Join {
                client: 0x0403_0201,
            };
            is_spelled(alloc, entry, b"J\x01\x02\x03\x04\0\0\0\0")
        }
        Plain::Enter => {
            let entry = Entry::Enter {
                client: 2,
                port: 12345,
            };
            is_spelled(alloc, entry, b"N\x02\0\0\0\x02\0\0\0\x39\x30")
        }
        Plain::End => {
            let entry = Entry::End {
                client: 4,
                cause: Cause::NoThread,
            };
            is_spelled(alloc, entry, b"E\x04\0\0\0\x01\0\0\0\x03")
        }
        Plain::Bound => {
            let entry = Entry::Bound { client: 5, port: 0 };
            is_spelled(alloc, entry, b"B\x05\0\0\0\x02\0\0\0\0\0")
        }
        Plain::Detach => {
            let entry = Entry::Detach {
                link: 8,
                cause: Cause::Starved,
            };
            is_spelled(alloc, entry, b"D\x08\0\0\0\x01\0\0\0\x02")
        }
    }
}

/// The kind of an entry with a text.
#[derive(Clone, Copy, Drop)]
enum WithText {
    Read,
    Attach,
    Recv,
    Put,
    Send,
}

/// Returns whether an entry of that kind has the expected record.
fn is_text_spelled(alloc: Global, kind: WithText) -> Result<bool, AllocError> {
    match kind {
        WithText::Read => {
            let bytes = Text::from_slice(alloc, b"hi")?;
            let entry = Entry::Read { client: 3, bytes };
            is_spelled(alloc, entry, b"R\x03\0\0\0\x02\0\0\0hi")
        }
        WithText::Attach => {
            let serial = Text::from_slice(alloc, b"abc")?;
            let entry = Entry::Attach {
                link: 6,
                kind: Kind::Local,
                serial,
            };
            is_spelled(alloc, entry, b"A\x06\0\0\0\x04\0\0\0labc")
        }
        WithText::Recv => {
            let bytes = Text::from_slice(alloc, b"\0\xff\n")?;
            let entry = Entry::Recv { link: 7, bytes };
            is_spelled(alloc, entry, b"V\x07\0\0\0\x03\0\0\0\0\xff\n")
        }
        WithText::Put => {
            let bytes = HandOut::own(Text::new(alloc));
            let entry = Entry::Put { client: 9, bytes };
            is_spelled(alloc, entry, b"P\x09\0\0\0\0\0\0\0")
        }
        WithText::Send => {
            let bytes = HandOut::own(Text::from_slice(alloc, b"s")?);
            let entry = Entry::Send { link: 10, bytes };
            is_spelled(alloc, entry, b"S\x0a\0\0\0\x01\0\0\0s")
        }
    }
}

const PLAIN: &[Plain] = &[
    Plain::Join,
    Plain::Enter,
    Plain::End,
    Plain::Bound,
    Plain::Detach,
];

const WITH_TEXT: &[WithText] = &[
    WithText::Read,
    WithText::Attach,
    WithText::Recv,
    WithText::Put,
    WithText::Send,
];

/// Returns the index of the first row that does not hold, with the rows without a text first.
pub fn first_fault(alloc: Global) -> Result<Option<usize>, AllocError> {
    for (at, &kind) in PLAIN.iter().enumerate() {
        if !is_plain_spelled(alloc, kind)? {
            return Ok(Some(at));
        }
    }
    for (at, &kind) in WITH_TEXT.iter().enumerate() {
        if !is_text_spelled(alloc, kind)? {
            return Ok(Some(at));
        }
    }
    Ok(None)
}

/// Returns whether this is the record of an entry, both written and appended.
fn is_spelled(alloc: Global, entry: Entry, record: &[u8]) -> Result<bool, AllocError>
    requires { HasRecord entry }
{
    Ok(is_written(alloc, &entry, record) && is_added(alloc, &entry, record)?)
}

fn is_written(alloc: Global, entry: &Entry, record: &[u8]) -> bool
    requires { HasRecord entry.now }
{
    let mut sink = MemorySink::new(alloc, Vec::new(alloc));
    writes(&mut sink, entry, record)
}

fn writes(sink: &mut MemorySink, entry: &Entry, record: &[u8]) -> bool
    requires { HasRecord entry.now }
{
    write_magic(sink) == Wrote::All
        && write_entry(sink, entry) == Wrote::All
        && are_magic_and(sink.bytes(), record)
}

fn is_added(alloc: Global, entry: &Entry, record: &[u8]) -> Result<bool, AllocError>
    requires { HasRecord entry.now }
{
    let mut queue = ByteQueue::new(alloc);
    adds(&mut queue, entry, record)
}

fn adds(queue: &mut ByteQueue, entry: &Entry, record: &[u8]) -> Result<bool, AllocError>
    requires { HasRecord entry.now }
{
    append_magic(queue)?;
    append_entry(queue, entry)?;
    Ok(are_magic_and(queue.as_slice(), record))
}

fn are_magic_and(bytes: &[u8], record: &[u8]) -> bool {
    bytes.strip_prefix(b"ADBHUB1\n") == Some(record)
}

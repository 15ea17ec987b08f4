//! A history as lines of text.

use adb_capture::Entry;
use adb_outside::{Cause, Text};
use itoa::Buffer;
use std::alloc::{AllocError, Global};

/// Returns a line for each entry: its kind, the number of its client or link, and the number of
/// bytes that it moved, the port that it names, or the cause of the end. Examples: `Read 1 16` and
/// `End 1 Fault`.
pub fn lines_of(alloc: Global, entries: &[Entry]) -> Result<Text, AllocError> {
    let mut lines = Text::new(alloc);
    for entry in entries {
        push_line(&mut lines, entry)?;
    }
    Ok(lines)
}

fn push_line(lines: &mut Text, entry: &Entry) -> Result<(), AllocError> {
    lines.push_slice(kind_of(entry))?;
    push_number(lines, u64::from(entry.owner().number()))?;
    match entry {
        Entry::Join { .. } | Entry::Attach { .. } => {}
        Entry::Enter { port, .. } | Entry::Bound { port, .. } => {
            push_number(lines, u64::from(*port))?;
        }
        Entry::Read { bytes, .. } | Entry::Recv { bytes, .. } => {
            push_number(lines, bytes.len() as u64)?;
        }
        Entry::Put { bytes, .. } | Entry::Send { bytes, .. } => {
            push_number(lines, bytes.len() as u64)?;
        }
        Entry::End { cause, .. } | Entry::Detach { cause, .. } => {
            lines.push_slice(cause_of(*cause))?;
        }
    }
    lines.push_slice(b"\n")
}

fn push_number(lines: &mut Text, number: u64) -> Result<(), AllocError> {
    let mut digits = Buffer::new();
    lines.push_slice(b" ")?;
    lines.push_slice(digits.format(number).as_bytes())
}

/// Returns the kind of an entry.
fn kind_of(entry: &Entry) -> &'static [u8] {
    match entry {
        Entry::Join { .. } => b"Join",
        Entry::Enter { .. } => b"Enter",
        Entry::Read { .. } => b"Read",
        Entry::End { .. } => b"End",
        Entry::Bound { .. } => b"Bound",
        Entry::Attach { .. } => b"Attach",
        Entry::Recv { .. } => b"Recv",
        Entry::Detach { .. } => b"Detach",
        Entry::Put { .. } => b"Put",
        Entry::Send { .. } => b"Send",
    }
}

fn cause_of(cause: Cause) -> &'static [u8] {
    match cause {
        Cause::Eof => b" Eof",
        Cause::Fault => b" Fault",
        Cause::Starved => b" Starved",
        Cause::NoThread => b" NoThread",
    }
}

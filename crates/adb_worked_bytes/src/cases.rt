//! The cases of a text. Each has bytes to play, and the expected lines.

use crate::kind::Kind;
use adb_outside::{Text, read_number};
use bstr::{ByteSlice, ByteVec};
use std::alloc::{AllocError, Global};

/// The bytes with which each case begins.
const BEGIN: &[u8] = b"\n\"";

/// The maximum sizes of the pieces in which each case is played.
const SIZES: [usize; 9] = [1, 2, 5, 23, 24, 25, 47, 200, 65_536];

/// Returns how many cases of a text play as expected before one that does not, and how many bytes
/// are left from that case on: none if all play as expected.
pub fn play(alloc: Global, kind: Kind, text: &[u8]) -> Result<(usize, usize), AllocError> {
    let (_, mut rest) = cut(text, BEGIN);
    let mut count = 0usize;
    for _ in text {
        let (case, more) = cut(rest, BEGIN);
        if case.is_empty() || !goes_as_told(alloc, kind, case)? {
            break;
        }
        rest = more;
        count = count.saturating_add(1);
    }
    Ok((count, rest.len()))
}

/// Splits a text at a mark. Without the mark, the first part is the whole text.
pub fn cut<'a>(text: &'a [u8], mark: &[u8]) -> (&'a [u8], &'a [u8]) {
    text.split_once_str(mark).unwrap_or((text, b""))
}

fn goes_as_told(alloc: Global, kind: Kind, case: &[u8]) -> Result<bool, AllocError> {
    let mut bytes = Text::new(alloc);
    let mut want = Text::new(alloc);
    read(alloc, case, &mut bytes, &mut want)?;
    goes(alloc, kind, bytes.as_slice(), want.as_slice())
}

fn goes(alloc: Global, kind: Kind, bytes: &[u8], want: &[u8]) -> Result<bool, AllocError> {
    for size in SIZES {
        let mut told = Text::new(alloc);
        kind.play(alloc, bytes, size, &mut told)?;
        if told.as_slice() != want {
            return Ok(false);
        }
    }
    Ok(true)
}

/// Adds the bytes of a case, and its expected lines, each after a line end.
fn read(alloc: Global, case: &[u8], bytes: &mut Text, want: &mut Text) -> Result<(), AllocError> {
    for line in case.lines() {
        add_line(alloc, line, bytes, want)?;
    }
    Ok(())
}

fn add_line(
    alloc: Global,
    line: &[u8],
    bytes: &mut Text,
    want: &mut Text,
) -> Result<(), AllocError> {
    let (front, told) = cut(line, b"-> ");
    for _ in 0..times_of(front) {
        add(alloc, b"", quoted_in(front), bytes)?;
        add(alloc, if told.is_empty() { b"" } else { b"\n" }, told, want)?;
    }
    Ok(())
}

/// Returns the text between the last two quotes, or before the last quote if there is only one.
fn quoted_in(line: &[u8]) -> &[u8] {
    let (front, _) = line.rsplit_once_str(b"\"").unwrap_or((b"", line));
    match front.rsplit_once_str(b"\"") {
        Some((_, quoted)) => quoted,
        None => front,
    }
}

/// Returns how many times a line is repeated: once, or the number after its quotes.
fn times_of(line: &[u8]) -> u128 {
    match line.rsplit_once_str(b"\"*") {
        Some((_, digits)) => read_number(digits.trim(), 6).unwrap_or(0),
        None => 1,
    }
}

/// Appends bytes, and then the bytes that an escaped text spells.
fn add(alloc: Global, front: &[u8], escaped: &[u8], to: &mut Text) -> Result<(), AllocError> {
    let bytes = Vec::unescape_bytes(alloc, str::from_utf8(escaped).unwrap_or("?"))?;
    to.push_slice(front)?;
    to.push_slice(bytes.as_slice())
}

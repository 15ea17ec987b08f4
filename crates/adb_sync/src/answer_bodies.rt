//! Decoding the bytes after an answer's id.

ghost use Rattle.std.specs.Prelude.{◌≡◌, ◌≤◌, ◌+◌, drop, length, IfOk};
ghost use Rattle.adb_sync.specs.Messages.{number_at};

use crate::answer::SyncAnswer;
use crate::layout::WORD_BYTES;
use adb_outside::Text;
use byteorder::{ByteOrder, LittleEndian};
use std::alloc::{AllocError, Global};

/// Decodes the numbers of a STAT.
pub fn stat_of(rest: &[u8]) -> SyncAnswer
    requires { 12 ≤ length rest.now }
    ensures { result
        ≡ SyncAnswer.Stat (number_at 0 rest.now) (number_at 4 rest.now) (number_at 8 rest.now) }
{
    SyncAnswer::Stat {
        mode: number_from(rest, 0),
        size: number_from(rest, WORD_BYTES),
        mtime: number_from(rest, 2 * WORD_BYTES),
    }
}

/// Decodes the numbers and the name of a DENT.
pub fn dent_of(alloc: Global, rest: &[u8]) -> Result<SyncAnswer, AllocError>
    requires { 16 ≤ length rest.now }
    ensures { IfOk result (λ answer. answer
        ≡ SyncAnswer.Dent (number_at 0 rest.now) (number_at 4 rest.now) (number_at 8 rest.now)
        (drop 16 rest.now)) }
{
    let (_, name) = rest.split_at(4 * WORD_BYTES);
    Ok(SyncAnswer::Dent {
        mode: number_from(rest, 0),
        size: number_from(rest, WORD_BYTES),
        mtime: number_from(rest, 2 * WORD_BYTES),
        name: Text::from_slice(alloc, name)?,
    })
}

/// Copies the bytes after the number.
pub fn text_of(alloc: Global, rest: &[u8]) -> Result<Text, AllocError>
    requires { 4 ≤ length rest.now }
    ensures { IfOk result (λ text. text ≡ drop 4 rest.now) }
{
    let (_, text) = rest.split_at(WORD_BYTES);
    Text::from_slice(alloc, text)
}

/// Returns the number at a place.
fn number_from(bytes: &[u8], place: usize) -> u32
    requires { place + 4 ≤ length bytes.now }
    ensures { result ≡ number_at place bytes.now }
{
    let (_, number) = bytes.split_at(place);
    LittleEndian::read_u32(number)
}

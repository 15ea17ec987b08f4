//! The text of a push.

ghost use Rattle.std.specs.Prelude.{◌≡◌, ◌++◌, ◌≤◌, decimal, length, IfOk, OnOk};
ghost use Rattle.adb_script.specs.Pattern.{pattern};
ghost use Rattle.adb_sync.specs.Asks.{ask_bytes};
ghost use Rattle.adb_sync.specs.Chunk.{chunk_bytes};
ghost use Rattle.adb_sync_client.specs.Texts.{push_text};
ghost use Rattle.adb_sync_client.specs.declared.request.TheConstants.{MAX_ASKED_PATH};

use crate::counting::push_number;
use crate::sent::pattern;
use adb_outside::Text;
use adb_sync::{MAX_CHUNK, SyncAnswer, SyncAsk, write_answer, write_ask};
use std::alloc::{AllocError, Global};

/// The smallest mode that a device keeps unchanged. `MIN_MODE` to `MAX_MODE` are the modes of a
/// regular file, with all of its nine bits.
pub const MIN_MODE: u32 = 32_768;

pub const MAX_MODE: u32 = 33_279;

/// The length of the header of a chunk.
const HEADER: usize = 8;

/// The maximum length of a SEND, of the header of a last chunk, and of a DONE together.
const AROUND: usize = 1_048;

/// Returns the bytes of a session that pushes a file of these bytes to a path, with its mode and
/// its time. The bytes are copied once.
pub fn push_text(
    alloc: Global,
    path: &[u8],
    mode: u32,
    mtime: u32,
    bytes: &[u8],
) -> Result<Text, AllocError>
    requires { length path.now ≤ MAX_ASKED_PATH }
    ensures { IfOk result (λ text. text ≡ push_text path.now mode mtime bytes.now) }
{
    let mut text = send_text(alloc, path, mode, bytes.len())?;
    push_chunks(alloc, bytes, &mut text)?;
    write_ask(alloc, &SyncAsk::Finish { mtime }, &mut text)?;
    Ok(text)
}

/// Returns the bytes of a session that pushes a file of `size` bytes of the pattern, which are made
/// a chunk at a time.
pub fn pattern_text(
    alloc: Global,
    path: &[u8],
    mode: u32,
    mtime: u32,
    size: u32,
) -> Result<Text, AllocError>
    requires { length path.now ≤ MAX_ASKED_PATH }
    ensures { IfOk result (λ text. text ≡ push_text path.now mode mtime (pattern 0 size)) }
{
    let mut text = send_text(alloc, path, mode, size as usize)?;
    push_pattern(alloc, size, &mut text)?;
    write_ask(alloc, &SyncAsk::Finish { mtime }, &mut text)?;
    Ok(text)
}

/// Returns the bytes of a SEND, with capacity for a file of `size` bytes after them.
fn send_text(alloc: Global, path: &[u8], mode: u32, size: usize) -> Result<Text, AllocError>
    requires { length path.now ≤ MAX_ASKED_PATH }
    ensures { IfOk result (λ text. text ≡ ask_bytes (SyncAsk.Send path.now (decimal mode))) }
{
    let path = Text::from_slice(alloc, path)?;
    let mode = decimal_of(alloc, mode)?;
    let mut text = Text::from_vec(Vec::with_capacity(alloc, room_for(size))?);
    write_ask(alloc, &SyncAsk::Send { path, mode }, &mut text)?;
    Ok(text)
}

/// Returns the maximum length of the push of a file of `size` bytes.
fn room_for(size: usize) -> usize {
    let headers = size / MAX_CHUNK as usize * HEADER;
    size.saturating_add(headers + AROUND)
}

/// Returns the decimal digits of a number.
fn decimal_of(alloc: Global, number: u32) -> Result<Text, AllocError>
    ensures { IfOk result (λ text. text ≡ decimal number) }
{
    let mut text = Text::new(alloc);
    push_number(&mut text, u128::from(number))?;
    Ok(text)
}

/// Appends bytes in chunks.
fn push_chunks(alloc: Global, bytes: &[u8], text: &mut Text) -> Result<(), AllocError>
    ensures { OnOk result (text.new ≡ text.old ++ chunk_bytes bytes.now) }
{
    let mut rest = bytes;
    while !rest.is_empty() {
        let (chunk, more) = rest.split_at((MAX_CHUNK as usize).min(rest.len()));
        let chunk = Text::from_slice(alloc, chunk)?;
        write_answer(alloc, &SyncAnswer::Chunk(chunk), text)?;
        rest = more;
    }
    Ok(())
}

/// Appends `size` bytes of the pattern in chunks.
fn push_pattern(alloc: Global, size: u32, text: &mut Text) -> Result<(), AllocError>
    ensures { OnOk result (text.new ≡ text.old ++ chunk_bytes (pattern 0 size)) }
{
    let mut done = 0;
    while done < size {
        let n = MAX_CHUNK.min(size - done);
        let chunk = pattern(alloc, done, n)?;
        write_answer(alloc, &SyncAnswer::Chunk(chunk), text)?;
        done += n;
    }
    Ok(())
}

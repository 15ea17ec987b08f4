//! Encoding requests and answers.

ghost use Rattle.std.specs.Prelude.{◌≡◌, ◌<◌, ◌^◌, ◌++◌, List, ℕ, length, OnOk, OnErr, IfOk};
ghost use Rattle.byteorder.specs.Endian.{little_bytes};
ghost use Rattle.adb_sync.specs.Messages.{message};
ghost use Rattle.adb_sync.specs.Asks.{IsAsk, ask_bytes};
ghost use Rattle.adb_sync.specs.Answers.{IsAnswer, answer_bytes};

use crate::answer::SyncAnswer;
use crate::ask::SyncAsk;
use crate::layout::{MAX_CHUNK, WORD_BYTES};
use adb_outside::Text;
use byteorder::{ByteOrder, LittleEndian};
use std::alloc::{AllocError, Global};

/// Appends the bytes of a request. If an allocation fails, `out` is unchanged.
pub fn write_ask(alloc: Global, ask: &SyncAsk, out: &mut Text) -> Result<(), AllocError>
    requires { IsAsk ask.now }
    ensures ok { OnOk result (out.new ≡ out.old ++ ask_bytes ask.now) }
    ensures err { OnErr result (out.new ≡ out.old) }
{
    let request = match ask {
        SyncAsk::Stat(path) => counted(alloc, b"STAT", path.as_slice())?,
        SyncAsk::List(path) => counted(alloc, b"LIST", path.as_slice())?,
        SyncAsk::Recv(path) => counted(alloc, b"RECV", path.as_slice())?,
        SyncAsk::Send { path, mode } => {
            let mut text = path.copy()?;
            text.push_slice(b",")?;
            text.push_slice(mode.as_slice())?;
            counted(alloc, b"SEND", text.as_slice())?
        }
        SyncAsk::Chunk(bytes) => counted(alloc, b"DATA", bytes.as_slice())?,
        SyncAsk::Finish { mtime } => numbered(alloc, b"DONE", *mtime)?,
        SyncAsk::Quit => numbered(alloc, b"QUIT", 0)?,
    };
    out.push_slice(request.as_slice())
}

/// Appends the bytes of an answer. If an allocation fails, `out` is unchanged.
pub fn write_answer(alloc: Global, answer: &SyncAnswer, out: &mut Text) -> Result<(), AllocError>
    requires { IsAnswer answer.now }
    ensures ok { OnOk result (out.new ≡ out.old ++ answer_bytes answer.now) }
    ensures err { OnErr result (out.new ≡ out.old) }
{
    let answer = match answer {
        SyncAnswer::Stat { mode, size, mtime } => stat(alloc, b"STAT", *mode, *size, *mtime)?,
        SyncAnswer::Dent {
            mode,
            size,
            mtime,
            name,
        } => {
            let mut entry = stat(alloc, b"DENT", *mode, *size, *mtime)?;
            push_number(&mut entry, name.len() as u32)?;
            entry.push_slice(name.as_slice())?;
            entry
        }
        SyncAnswer::ListEnd => { Text::from_slice(alloc, b"DONE\0\0\0\0\0\0\0\0\0\0\0\0\0\0\0\0")? }
        SyncAnswer::Chunk(bytes) => counted(alloc, b"DATA", bytes.as_slice())?,
        SyncAnswer::ChunkEnd => numbered(alloc, b"DONE", 0)?,
        SyncAnswer::Okay => numbered(alloc, b"OKAY", 0)?,
        SyncAnswer::Fail(text) => counted(alloc, b"FAIL", text.as_slice())?,
    };
    out.push_slice(answer.as_slice())
}

/// The number of bytes before those of a chunk.
pub const CHUNK_HEADER_BYTES: usize = 8;

/// The length of the longest chunk including its header.
pub const WHOLE_CHUNK: usize = CHUNK_HEADER_BYTES + MAX_CHUNK as usize;

/// Returns the header of a chunk of this many bytes, for a caller that hands a chunk out of its own
/// buffer: `write_answer` writes the header and the bytes together. Allocates nothing.
pub fn chunk_header(size: u32) -> [u8; CHUNK_HEADER_BYTES]
    ensures { (bytes : List ℕ) → length bytes ≡ size
        → result ++ bytes ≡ answer_bytes (SyncAnswer.Chunk bytes) }
{
    let mut header = *b"DATA\0\0\0\0";
    LittleEndian::write_u32(&mut header[4..], size);
    header
}

/// Returns an id, a length, and that many bytes.
fn counted(alloc: Global, id: &[u8], body: &[u8]) -> Result<Text, AllocError>
    requires { length body.now < 2 ^ 32 }
    ensures { IfOk result (λ bytes. bytes ≡ message id.now (length body.now) body.now) }
{
    let mut bytes = numbered(alloc, id, body.len() as u32)?;
    bytes.push_slice(body)?;
    Ok(bytes)
}

/// Returns an id and a number.
fn numbered(alloc: Global, id: &[u8], number: u32) -> Result<Text, AllocError>
    ensures { IfOk result (λ bytes. bytes ≡ id.now ++ little_bytes 4 number) }
{
    let mut bytes = Text::from_slice(alloc, id)?;
    push_number(&mut bytes, number)?;
    Ok(bytes)
}

/// Returns an id and the numbers of a STAT.
fn stat(alloc: Global, id: &[u8], mode: u32, size: u32, mtime: u32) -> Result<Text, AllocError>
    ensures { IfOk result (λ bytes. bytes
        ≡ id.now ++ little_bytes 4 mode ++ little_bytes 4 size ++ little_bytes 4 mtime) }
{
    let mut bytes = numbered(alloc, id, mode)?;
    push_number(&mut bytes, size)?;
    push_number(&mut bytes, mtime)?;
    Ok(bytes)
}

/// Appends a number.
fn push_number(bytes: &mut Text, number: u32) -> Result<(), AllocError>
    ensures { OnOk result (bytes.new ≡ bytes.old ++ little_bytes 4 number) }
{
    let mut word = [0; WORD_BYTES];
    LittleEndian::write_u32(&mut word, number);
    bytes.push_slice(&word)
}

//! Writing of a push: the request for a file, its bytes in chunks, and its end.

ghost use Rattle.std.specs.Prelude.{◌≡◌, ◌≢◌, ◌≤◌, ◌<◌, ◌++◌, [], decimal, drop, length, IfOk, OnOk};
ghost use Rattle.adb_sync.specs.Asks.{IsAsk, ask_bytes};
ghost use Rattle.adb_sync.specs.Chunk.{HasFront, IsWithin, chunk_bytes, left_from};
ghost use Rattle.adb_sync_client.specs.Texts.{push_text};
ghost use Rattle.adb_remote.specs.Sending.{Sends, SendsSome, seen};

use crate::sending::{SendError, send};
use adb_connections::PortOut;
use adb_outside::Text;
use adb_remote_words::{FILE_MODE, MAX_WORD};
use adb_sync::{Chunk, SyncAsk, write_ask};
use itoa::Buffer;
use std::alloc::{AllocError, Global};

/// The number of gathered bytes at which they are written: four chunks without their headers.
const GATHERED: usize = 262_144;

/// Writes all the bytes of a push. The bytes of the file are gathered a few chunks at a time.
pub fn send_push<O: PortOut>(
    alloc: Global,
    path: &[u8],
    mtime: u32,
    bytes: &[u8],
    output: &mut O,
) -> Result<(), SendError>
    requires { length path.now ≤ MAX_WORD }
    ensures { Sends O.steady (seen O.faults O.written O.closed)
        (push_text path.now FILE_MODE mtime bytes.now) output.old output.new result }
{
    let held = begun(alloc, path)?;
    let end = ended(alloc, mtime)?;
    send_around(bytes, held, end.as_slice(), output)
}

/// Returns the request for a file at a path.
fn begun(alloc: Global, path: &[u8]) -> Result<Text, AllocError>
    requires { length path.now ≤ MAX_WORD }
    ensures { IfOk result (λ text. text ≡ ask_bytes (SyncAsk.Send path.now (decimal FILE_MODE))) }
{
    let mode = decimal_mode(alloc)?;
    let path = Text::from_slice(alloc, path)?;
    spelled(alloc, &SyncAsk::Send { path, mode })
}

/// Returns the decimal digits of the mode of a file.
fn decimal_mode(alloc: Global) -> Result<Text, AllocError>
    ensures { IfOk result (λ text. text ≡ decimal FILE_MODE) }
{
    let mut digits = Buffer::new();
    Text::from_slice(alloc, digits.format(FILE_MODE).as_bytes())
}

/// Returns the end of a file that has this time.
fn ended(alloc: Global, mtime: u32) -> Result<Text, AllocError>
    ensures { IfOk result (λ text. text ≡ ask_bytes (SyncAsk.Finish mtime)) }
{
    spelled(alloc, &SyncAsk::Finish { mtime })
}

/// Returns the bytes of a request.
fn spelled(alloc: Global, ask: &SyncAsk) -> Result<Text, AllocError>
    requires { IsAsk ask.now }
    ensures { IfOk result (λ text. text ≡ ask_bytes ask.now) }
{
    let mut text = Text::new(alloc);
    write_ask(alloc, ask, &mut text)?;
    Ok(text)
}

/// Writes the bytes that are held, then bytes in chunks, then the end.
fn send_around<O: PortOut>(
    bytes: &[u8],
    held: Text,
    end: &[u8],
    output: &mut O,
) -> Result<(), SendError>
    ensures { Sends O.steady (seen O.faults O.written O.closed)
        (held ++ (chunk_bytes bytes.now ++ end.now)) output.old output.new result }
{
    let mut held = held;
    if let Err(error) = send_chunks(bytes, &mut held, output) {
        return Err(error);
    }
    send_both(held, end, output)
}

/// Writes the bytes that are held and the end with one write.
fn send_both<O: PortOut>(held: Text, end: &[u8], output: &mut O) -> Result<(), SendError>
    ensures { Sends O.steady (seen O.faults O.written O.closed) (held ++ end.now) output.old
        output.new result }
{
    let mut held = held;
    held.push_slice(end)?;
    send(output, held.as_slice())
}

/// Writes the bytes that are held, then bytes in chunks. The last chunks may still be held
/// afterwards.
fn send_chunks<O: PortOut>(bytes: &[u8], held: &mut Text, output: &mut O) -> Result<(), SendError>
    ensures { SendsSome O.steady (seen O.faults O.written O.closed)
        (held.old ++ chunk_bytes bytes.now) held.new output.old output.new result }
{
    let mut chunk = Chunk::begin(bytes, 0);
    while !chunk.front(bytes).is_empty() {
        if let Err(error) = send_front(&mut chunk, bytes, held, output) {
            return Err(error);
        }
    }
    Ok(())
}

/// Writes the bytes that are held if they are at least `GATHERED`, and gathers the next bytes in
/// chunks.
fn send_front<O: PortOut>(
    chunk: &mut Chunk,
    bytes: &[u8],
    held: &mut Text,
    output: &mut O,
) -> Result<(), SendError>
    requires within { IsWithin chunk.old bytes.now }
    requires front { HasFront chunk.old bytes.now }
    ensures within { IsWithin chunk.new bytes.now }
    ensures front { HasFront chunk.new bytes.now }
    ensures less { OnOk result (left_from chunk.old bytes.now ≢ []
        → length (left_from chunk.new bytes.now) < length (left_from chunk.old bytes.now)) }
    ensures sends { SendsSome O.steady (seen O.faults O.written O.closed)
        (held.old ++ left_from chunk.old bytes.now) (held.new ++ left_from chunk.new bytes.now)
        output.old output.new result }
{
    if let Err(error) = send_full(held, output) {
        return Err(error);
    }
    gather(chunk, bytes, held)?;
    Ok(())
}

/// Writes the bytes that are held if they are at least `GATHERED`.
fn send_full<O: PortOut>(held: &mut Text, output: &mut O) -> Result<(), SendError>
    ensures { SendsSome O.steady (seen O.faults O.written O.closed) held.old held.new output.old
        output.new result }
{
    if held.len() < GATHERED {
        return Ok(());
    }
    match send(output, held.as_slice()) {
        Ok(()) => {
            held.truncate(0);
            Ok(())
        }
        Err(error) => Err(error),
    }
}

/// Gathers the next bytes in chunks.
fn gather(chunk: &mut Chunk, bytes: &[u8], held: &mut Text) -> Result<(), AllocError>
    requires within { IsWithin chunk.old bytes.now }
    requires front { HasFront chunk.old bytes.now }
    ensures within { IsWithin chunk.new bytes.now }
    ensures front { HasFront chunk.new bytes.now }
    ensures same { OnOk result (held.new ++ left_from chunk.new bytes.now
        ≡ held.old ++ left_from chunk.old bytes.now) }
    ensures less { OnOk result (left_from chunk.old bytes.now ≢ []
        → length (left_from chunk.new bytes.now) < length (left_from chunk.old bytes.now)) }
{
    let front = chunk.front(bytes);
    let size = front.len();
    held.push_slice(front)?;
    pass(chunk, bytes, size);
    Ok(())
}

/// Advances by `n` bytes of the remaining bytes in chunks.
fn pass(chunk: &mut Chunk, bytes: &[u8], n: usize)
    requires within { IsWithin chunk.old bytes.now }
    requires front { HasFront chunk.old bytes.now }
    requires here { n ≤ length (left_from chunk.old bytes.now) }
    ensures within { IsWithin chunk.new bytes.now }
    ensures front { HasFront chunk.new bytes.now }
    ensures left { left_from chunk.new bytes.now ≡ drop n (left_from chunk.old bytes.now) }
{
    let mut left = n;
    while left > 0 {
        left -= chunk.take_front(bytes, left);
    }
}

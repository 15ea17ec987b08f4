//! An exchange between a host and a model device.

ghost use Rattle.std.specs.Prelude.{◌≤◌, length};

use adb_daemon::{Daemon, DaemonError};
use adb_files::Files;
use adb_outside::Text;
use byteorder::{ByteOrder, LittleEndian};
use std::alloc::{AllocError, Global};

/// The maximum payload that the device accepts.
const SMALL_MAXDATA: u32 = 4_096;

/// The length of a header, and the offset of the payload's length in it.
const HEADER: usize = 24;

const LENGTH: usize = 12;

/// Sends a host's bytes to a model device, each packet in pieces of at most `piece` bytes. The
/// device uses credit in bytes if the exchange's name begins with `credit`.
///
/// Returns everything that went over the link, in order: the bytes that the device owes first, and
/// then, for each packet, the packet, the error of the device if it refuses the packet, and the
/// bytes that it owes then. At the end follow the paths of its files, one a line.
pub fn told(alloc: Global, name: &str, host: &[u8], piece: usize) -> Result<Text, AllocError>
    requires { 1 ≤ piece }
{
    let mut daemon = device(alloc, name.starts_with("credit"))?;
    play(alloc, &mut daemon, host, piece)
}

/// Makes a device without files.
fn device(alloc: Global, credit: bool) -> Result<Daemon, AllocError> {
    let files = Files::new(alloc);
    if credit {
        return Daemon::new(alloc, files, SMALL_MAXDATA);
    }
    Daemon::plain(alloc, files, SMALL_MAXDATA)
}

fn play(alloc: Global, daemon: &mut Daemon, host: &[u8], piece: usize) -> Result<Text, AllocError>
    requires { 1 ≤ piece }
{
    let mut told = Text::new(alloc);
    hear(daemon, &mut told)?;
    let mut rest = host;
    for _ in 0..host.len() {
        if rest.is_empty() {
            break;
        }
        let (packet, more) = rest.split_at(packet_len(rest));
        told.push_slice(packet)?;
        say(alloc, send(daemon, packet, piece), &mut told)?;
        hear(daemon, &mut told)?;
        rest = more;
    }
    list(daemon.files(), &mut told)?;
    Ok(told)
}

/// Returns the length of the first packet.
fn packet_len(bytes: &[u8]) -> usize
    ensures { result ≤ length bytes.now }
{
    if bytes.len() < HEADER {
        return bytes.len();
    }
    let length = LittleEndian::read_u32(&bytes[LENGTH..]) as usize;
    bytes.len().min(HEADER.saturating_add(length))
}

/// Sends a packet. Returns the answer to its last piece.
fn send(daemon: &mut Daemon, packet: &[u8], piece: usize) -> Result<(), DaemonError>
    requires { 1 ≤ piece }
{
    let mut answer = Ok(());
    for piece in packet.chunks(piece) {
        answer = daemon.feed(piece);
    }
    answer
}

/// Appends the error of the device if it refuses a packet.
fn say(alloc: Global, answer: Result<(), DaemonError>, told: &mut Text) -> Result<(), AllocError> {
    match answer {
        Ok(()) => Ok(()),
        Err(DaemonError::OutOfMemory) => Err(AllocError),
        Err(error) => {
            let text = format!(in alloc; "{error:?}\n")?;
            told.push_slice(text.as_bytes())
        }
    }
}

/// Takes the bytes that the device owes.
fn hear(daemon: &mut Daemon, told: &mut Text) -> Result<(), AllocError> {
    told.push_slice(daemon.out())?;
    let n = daemon.out().len();
    daemon.taken(n);
    Ok(())
}

/// Appends the paths of files, in order.
fn list(files: &Files, told: &mut Text) -> Result<(), AllocError> {
    let mut path: &[u8] = b"";
    for _ in 0..1_000 {
        let Some(next) = files.next_path(path) else {
            break;
        };
        told.push_slice(next)?;
        told.push_slice(b"\n")?;
        path = next;
    }
    Ok(())
}

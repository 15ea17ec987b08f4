//! System calls on sockets.

ghost use Rattle.std.specs.Prelude.{◌≡◌, ◌<◌, ◌≤◌, ◌++◌, length, drop};
ghost use Rattle.std.specs.Io.Slices.{io_slices_bytes};
ghost use Rattle.adb_outside.specs.Source.{FitsBuffer};
ghost use Rattle.adb_outside.specs.Sink.{FitsPiece};

use crate::ending::Ending;
use adb_outside::{Got, Wrote};
use std::io;
use std::io::{ErrorKind, IoSlice, Read};
use std::net::{TcpListener, TcpStream};
use std::os::fd::OwnedFd;
use std::time::Duration;

/// The number of milliseconds that a write waits for a peer that does not read, before it checks
/// whether the server ends. A stuck write delays the end by no more.
const PATIENCE: u64 = 250;

/// Sets up a listener, and with it the connections that it accepts: the system copies the options
/// of a listener to each connection. Fails if the system refuses an option or a descriptor.
pub fn set_up_listener(listener: &TcpListener) -> io::Result<()> {
    set_up(&TcpStream::from(OwnedFd::from(listener.try_clone()?)))
}

/// Turns Nagle's algorithm off, and sets how long a write waits.
pub fn set_up(stream: &TcpStream) -> io::Result<()> {
    stream.set_nodelay(true)?;
    stream.set_write_timeout(Some(Duration::from_millis(PATIENCE)))
}

/// Waits for bytes and reads them. An interrupted read is repeated, and so is one during which the
/// lookout peeked at the stream, which doesn't block then.
pub fn receive(stream: &TcpStream, into: &mut [u8]) -> Got
    requires { 0 < length into.old }
    ensures { FitsBuffer into.old result }
{
    let mut stream = stream;
    for _ in 0..u64::MAX {
        match stream.read(into) {
            Ok(0) => return Got::End,
            Ok(count) => return Got::Bytes(count),
            Err(error) if is_passing(error.kind()) => {}
            Err(_) => break,
        }
    }
    Got::Failed
}

/// Sends a piece in two parts, the first before the second, with one system call if that call takes
/// it whole. Waits for a peer that does not read until the server ends.
pub fn send(stream: &TcpStream, ending: &Ending, start: &[u8], rest: &[u8]) -> Wrote
    requires { 0 < length (start.now ++ rest.now) }
    ensures { FitsPiece (start.now ++ rest.now) result }
{
    let len = start.len() + rest.len();
    let mut taken = 0;
    for _ in 0..u64::MAX {
        match stream.write_vectored(&left(start, rest, taken)) {
            Ok(0) => break,
            Ok(count) => taken += count,
            Err(error) if goes_on(error.kind(), ending) => {}
            Err(_) => break,
        }
        if taken == len {
            return Wrote::All;
        }
    }
    Wrote::Failed { taken }
}

/// Returns the two parts without the first `taken` bytes of both together.
fn left<'a>(start: &'a [u8], rest: &'a [u8], taken: usize) -> [IoSlice<'a>; 2]
    requires { taken ≤ length (start.now ++ rest.now) }
    ensures { io_slices_bytes result ≡ drop taken (start.now ++ rest.now) }
{
    [
        IoSlice::new(&start[taken.min(start.len())..]),
        IoSlice::new(&rest[taken.saturating_sub(start.len())..]),
    ]
}

/// Returns whether a read that failed with this error is repeated.
fn is_passing(kind: ErrorKind) -> bool {
    matches!(kind, ErrorKind::Interrupted | ErrorKind::WouldBlock)
}

/// Returns whether a write that failed with this error is repeated.
fn goes_on(kind: ErrorKind, ending: &Ending) -> bool {
    match kind {
        ErrorKind::Interrupted => true,
        ErrorKind::WouldBlock => !ending.is_set(),
        _ => false,
    }
}

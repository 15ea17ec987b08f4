//! The dialer of a device, which connects to its port again whenever its link has ended.

use crate::deliveries::Deliveries;
use adb_connections::Device;
use adb_os_sockets::{Line, connected_device};
use adb_outside::{Kind, Text};
use std::alloc::Global;
use std::io;
use std::net::{Ipv4Addr, Net, SocketAddr, TcpListener, TcpStream};
use std::sync::{Arc, Wait};
use std::thread::Parker;
use std::time::Duration;

/// The delay in milliseconds before the first dial after a link. A device that restarts is away for
/// about this long.
const FIRST_DELAY: u64 = 100;

/// The longest delay in milliseconds. A dial that is refused costs about 20 µs, so a port at which
/// nobody listens costs nearly nothing.
const MOST_DELAY: u64 = 2_000;

/// A delay grows by one part in this number. So a device that was away is dialled again within
/// about a quarter of the time for which it was away.
const GROWTH: u64 = 4;

/// The number of milliseconds that a connect waits for a device with a full queue of connections,
/// and after which a dialer that waits checks whether the server ends.
const PATIENCE: u64 = 1_000;

/// Dials the device at a port of this machine, delivers it to the door, and dials again after a
/// delay when its link has ended, until the server ends. Nothing is dialled before the door is
/// open.
///
/// The delay grows after each dial that fails and after each link on which the device sent nothing.
/// An allocation failure counts as a dial that fails.
pub fn dial<W: Net<Listener = TcpListener, Stream = TcpStream> + Wait>(
    rt: &W,
    alloc: Global,
    port: u16,
    serial: &Text,
    deliveries: &Deliveries,
) {
    let mut delay = FIRST_DELAY;
    if !deliveries.wait_open(rt) {
        return;
    }
    for _ in rt.forever() {
        let served = match deliver(rt, alloc, port, serial, deliveries) {
            Ok(line) => spoke(rt, &line, deliveries),
            Err(_) => false,
        };
        if deliveries.ending().is_set() {
            return;
        }
        delay = if served { FIRST_DELAY } else { grown(delay) };
        Parker::new().park_timeout(rt, Duration::from_millis(delay));
    }
}

/// Returns the delay after this one, if the dial failed again.
fn grown(delay: u64) -> u64 {
    delay.saturating_add(delay / GROWTH).min(MOST_DELAY)
}

/// Dials the device once and delivers it. Returns its line.
///
/// Fails if the device cannot be reached within a second, if the system refuses an option, or if an
/// allocation fails.
fn deliver<W: Net<Listener = TcpListener, Stream = TcpStream> + Wait>(
    rt: &W,
    alloc: Global,
    port: u16,
    serial: &Text,
    deliveries: &Deliveries,
) -> io::Result<Arc<Line, Global>> {
    let stream = connect(rt, port)?;
    let line = Line::new(alloc)?;
    let (input, output) = connected_device(alloc, stream, &line, deliveries.ending())?;
    let device = Device {
        kind: Kind::Local,
        serial: serial.copy()?,
        input,
        output,
    };
    deliveries.deliver(rt, device);
    Ok(line)
}

/// Connects to a port of this machine.
///
/// Fails if the device cannot be reached within a second. It also fails if the system has connected
/// the stream to itself, which can happen at a port where nobody listens.
fn connect<W: Net<Listener = TcpListener, Stream = TcpStream>>(
    rt: &W,
    port: u16,
) -> io::Result<TcpStream> {
    let address = SocketAddr::from((Ipv4Addr::LOCALHOST, port));
    let stream = TcpStream::connect_timeout(rt, &address, Duration::from_millis(PATIENCE))?;
    if stream.local_addr()? == address {
        return Err(io::Error::from(io::ErrorKind::ConnectionRefused));
    }
    Ok(stream)
}

/// Waits until the link of a delivered device has ended or the server ends. Returns whether the
/// device has sent bytes.
fn spoke<W: Wait>(rt: &W, line: &Arc<Line, Global>, deliveries: &Deliveries) -> bool {
    let second = Duration::from_millis(PATIENCE);
    for _ in rt.forever() {
        if is_over(line) || deliveries.ending().is_set() {
            break;
        }
        line.wait(rt, second);
    }
    line.has_spoken()
}

/// Returns whether a line has ended, or its device was dropped without a link.
fn is_over(line: &Arc<Line, Global>) -> bool {
    line.has_ended() || Arc::strong_count(line) == 1
}

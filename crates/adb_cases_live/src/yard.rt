//! A yard over sockets of this machine.

use adb_binder::{Binder, Binding};
use adb_connections::{Bell, Came, Door, PortIn, PortOut};
use adb_outside::{Got, Wrote};
use adb_ports::{Ending, RealYard};
use adb_server_yard::{Dialled, Listening, PoolKind, Yard};
use std::alloc::{AllocError, Global};
use std::marker::Brand;
use std::net::{Net, TcpListener, TcpStream};
use std::sync::Wait;
use std::thread::{Threads, sleep};
use std::time::{Clock, Duration};

/// Returns whether two bytes that are written at one end are read at the other.
fn carries(output: &mut impl PortOut, input: &mut impl PortIn) -> bool {
    let mut into = [0u8; 2];
    output.write(b"ok") == Wrote::All && input.read(&mut into) == Got::Bytes(2) && into == *b"ok"
}

/// Dials a door's own port, and accepts the next connection there. The dialled connection is closed
/// afterwards. Because it waits in the queue, `accept` does not wait.
fn next<Y: Yard>(
    yard: &mut Y,
    door: &mut Y::Door,
    port: u16,
) -> Came<
    <Y::Door as Door>::In,
    <Y::Door as Door>::Out,
    <Y::Door as Door>::DeviceIn,
    <Y::Door as Door>::DeviceOut,
> {
    if port == 0 {
        return Came::Failed;
    }
    match yard.dial(port) {
        Dialled::Here(_input, _output) => door.accept(),
        Dialled::Failed => Came::Failed,
    }
}

/// Returns whether a client that dials a port comes in at a door and the bytes that it writes are
/// read there. If `port` is not 0, the client dials the port of a forward. The connection of a
/// forward takes a while, and is closed if an allocation fails, so the call waits at most 5 s for
/// it.
fn meets<W: Wait + Clock, Y: Yard>(
    rt: &W,
    yard: &mut Y,
    door: &mut Y::Door,
    port: u16,
    forward: u16,
) -> bool {
    let dialled = if forward == 0 { port } else { forward };
    if dialled == 0 {
        return false;
    }
    let Dialled::Here(_input, mut output) = yard.dial(dialled) else {
        return false;
    };
    for _ in 0..50u32 {
        match next(yard, door, port) {
            Came::Forward(by, mut input, _) => {
                return by == forward && carries(&mut output, &mut input);
            }
            Came::Port(mut input, _) if forward == 0 => return carries(&mut output, &mut input),
            Came::Port(..) => sleep(rt, Duration::from_millis(100)),
            Came::Device(..) | Came::Closed | Came::Failed => return false,
        }
    }
    false
}

/// Returns whether a yard's door at a port accepts the clients that dial it and a forward, and
/// listening on the port a second time fails.
fn lets_in<W: Wait + Clock, Y: Yard>(rt: &W, yard: &mut Y, door: &mut Y::Door, port: u16) -> bool {
    let Binding::Bound(forward) = yard.ports().bind(0) else {
        return false;
    };
    forward != 0
        && meets(rt, yard, door, port, 0)
        && meets(rt, yard, door, port, forward)
        && matches!(yard.listen(port), Listening::Failed)
}

/// Returns whether a door closes when its bell rings.
fn closes(door: &mut impl Door, bell: &impl Bell) -> bool {
    bell.ring();
    matches!(door.accept(), Came::Closed)
}

/// Returns whether a yard's door accepts the clients that it should, and closes.
fn opens<W: Wait + Clock, Y: Yard>(rt: &W, yard: &mut Y) -> bool {
    match yard.listen(0) {
        Listening::Here(mut door, bell, port) => {
            let met = lets_in(rt, yard, &mut door, port);
            closes(&mut door, &bell) && met
        }
        Listening::Failed => false,
    }
}

/// Returns whether a yard opens a door, and has its own threads.
fn gives<
    W: Net<Listener = TcpListener, Stream = TcpStream>
        + Threads
        + Wait
        + Clock
        + Copy
        + Send
        + Sync
        + Drop
        + 'static,
>(rt: &W, yard: &mut RealYard<W, Brand>) -> bool {
    opens(rt, yard) && matches!(yard.pool_kind(), PoolKind::Threads)
}

pub fn a_yard_gives_what_it_is_asked<
    W: Net<Listener = TcpListener, Stream = TcpStream>
        + Threads
        + Wait
        + Clock
        + Copy
        + Send
        + Sync
        + Drop
        + 'static,
>(rt: W, alloc: Global) -> Result<bool, AllocError> {
    let mut yard = RealYard::<W, Brand>::new(rt, alloc, Ending::new(alloc)?, None, None);
    Ok(gives(&rt, &mut yard))
}

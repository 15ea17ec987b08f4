//! Three clients of one server, and the bytes that each port holds at the end.

use crate::clients::{ASK_VERSION, KILL, KILLED, VERSION, serve_clients};
use adb_fakes::{FakeYard, Kept};
use adb_outside::MemorySink;
use adb_server::Served;
use std::alloc::{AllocError, Global};
use std::sync::Wait;
use std::thread::Threads;

/// The bytes that each client sends, in order, and the bytes that it is sent.
const PORTS: &[(&[u8], &[u8])] = &[
    (ASK_VERSION, VERSION),
    (ASK_VERSION, VERSION),
    (KILL, KILLED),
];

/// Returns whether a server answers its clients in order and ends after the kill, and each port
/// then holds its client's answer and is closed.
pub fn ports_are_served_in_order<W: Threads + Wait + Copy + Send + Sync + Drop + 'static>(
    rt: W,
    alloc: Global,
) -> Result<bool, AllocError> {
    let kept = Kept::new(rt, alloc, Vec::new(alloc))?;
    let mut yard = FakeYard::new(rt, alloc, kept)?;
    let mut ports = Vec::new(alloc);
    for &(sends, _) in PORTS {
        ports.push(yard.call(sends, Vec::new(alloc), Vec::new(alloc))?)?;
    }
    let mut note = MemorySink::new(alloc, Vec::new(alloc));
    let ended = serve_clients(rt, alloc, yard, true, &mut note);
    let answered = ports.iter().zip(PORTS).all(|(port, (_, answer))| port.holds(answer)
        && port.is_closed());
    Ok(ended.served == Served::Done && answered)
}

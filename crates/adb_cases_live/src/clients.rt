//! A server without devices.

use adb_outside::MemorySink;
use adb_server::{Ended, serve};
use adb_server_yard::{Yard, YardDevice};
use std::alloc::Global;
use std::sync::Wait;
use std::thread::Threads;

/// The request for the version of the server, and its answer.
pub(crate) const ASK_VERSION: &[u8] = b"000Chost:version";

pub(crate) const VERSION: &[u8] = b"OKAY00040029";

/// The request that ends a server, and its answer.
pub(crate) const KILL: &[u8] = b"0009host:kill";

pub(crate) const KILLED: &[u8] = b"OKAY";

/// Serves the clients of a yard on port 5037, as `serve` does.
pub(crate) fn serve_clients<
    W: Threads + Wait + Copy + Send + Sync + Drop + 'static,
    Y: Yard + 'static,
>(rt: W, alloc: Global, yard: Y, wanted: bool, note: &mut MemorySink) -> Ended<Y::Keeper>
    requires { Y.records yard wanted }
{
    let devices: Vec<YardDevice<Y>> = Vec::new(alloc);
    serve(rt, alloc, yard, devices, 5037, wanted, note)
}

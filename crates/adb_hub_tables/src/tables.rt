//! The tables of the server.

use crate::ports::Port;
use crate::touched_map::TouchedMap;
use adb_client::Client;
use adb_forward::Forwards;
use adb_registry::Registry;
use adb_stream::Streams;
use std::alloc::Global;
use std::collections::BTreeSet;

/// The tables of the server: the live clients, links and streams, the devices and the forwards.
#[derive(Drop)]
pub struct Tables {
    pub alloc: Global,
    /// The number of client numbers that were drawn.
    pub joined: u32,
    pub clients: TouchedMap<Client>,
    /// The clients that track the list of the devices, and possibly some that did.
    pub trackers: BTreeSet<u32>,
    pub links: TouchedMap<Port>,
    pub streams: Streams,
    pub devices: Registry,
    pub forwards: Forwards,
    /// Whether a kill was requested.
    pub stopped: bool,
}

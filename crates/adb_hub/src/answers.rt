//! The answers of the hub's calls.

use adb_outside::HandOut;

/// Whether the client or link of a call is still alive after it.
#[derive(Clone, Copy, Debug, PartialEq, Eq, Drop)]
pub enum Life {
    Live,
    Gone,
}

/// The output that is handed out to a client or on a link.
#[derive(Drop)]
pub enum Handed {
    /// Some of the first bytes of the output queue, at least one.
    Bytes(HandOut),
    /// The output queue is empty.
    Nothing,
    /// The client or link is gone, and nothing will be queued for it.
    Done,
}

/// The number of bytes that a client may still send.
#[derive(Clone, Copy, Debug, PartialEq, Eq, Drop)]
pub enum Room {
    /// This many bytes.
    Bytes(usize),
    /// None until some of the held bytes were sent.
    Later,
    /// None: the client's input ended, or the server no longer reads it.
    Shut,
}

/// The counts of a hub: the live clients, links and streams, and whether a kill was requested.
#[derive(Clone, Copy, Debug, PartialEq, Eq, Drop)]
pub struct Summary {
    pub clients: u32,
    pub links: u32,
    pub streams: u32,
    pub stopped: bool,
}

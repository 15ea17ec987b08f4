//! A stream: its two ends, and its mutable part.

use crate::flow::Flow;

/// The mutable part of a stream.
#[derive(Clone, Copy, Drop)]
pub struct Part {
    /// The device's id of the stream, 0 until it is known.
    pub remote: u32,
    /// Whether the client left before the device's id was known.
    pub orphan: bool,
    /// The flow control of the two ends.
    pub flow: Flow,
}

/// A live stream (protocol.txt, OPEN).
#[derive(Clone, Copy, Drop)]
pub struct Stream {
    /// The server's id of the stream, at least 1.
    pub id: u32,
    /// The number of its client.
    pub client: u32,
    /// The transport id of the device on its link.
    pub link: u32,
    pub part: Part,
}

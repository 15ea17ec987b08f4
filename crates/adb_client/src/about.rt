//! The plain fields of a client.

use crate::phase::Phase;
use adb_outside::Text;

/// A forward that a client asked for, with a port that is still to be bound.
#[derive(Drop)]
pub struct Want {
    /// The transport id of the device to which it leads.
    pub transport: u32,
    /// The port that was asked for, 0 for any port.
    pub local: u16,
    /// The service that is opened on the device for each connection.
    pub remote: Text,
}

/// The plain fields of a client, on which no buffer depends.
#[derive(Drop)]
pub struct About {
    /// The client's number, at least 1.
    pub number: u32,
    /// Whether the client came through a forward.
    pub forwarded: bool,
    pub phase: Phase,
    /// The transport id that the client selected.
    pub selected: Option<u32>,
    /// Whether the client's input ended.
    pub ended: bool,
    /// Whether the list that the client tracks changed since it was last queued for the client.
    pub mark: bool,
    /// Whether the client tracks the long list.
    pub long: bool,
    /// The forward that the client asked for, while its port is being bound.
    pub want: Option<Want>,
}

//! The totals of a hub's traffic.

/// The totals of a hub's traffic. A number that exceeds 64 bits saturates.
#[derive(Clone, Copy, Debug, PartialEq, Eq, Drop)]
pub struct Totals {
    /// The number of payload bytes of the writes that were sent to devices.
    pub up: u64,
    /// The number of bytes that came from devices and were put to clients.
    pub down: u64,
    /// The number of entries of the history: those that came, and the hand-outs.
    pub entries: u64,
}

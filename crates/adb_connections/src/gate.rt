//! Gates at which a test can hold a worker.

/// The place at which a worker passes a gate. The gate is passed its number.
#[derive(Clone, Copy, Debug, PartialEq, Eq, Drop)]
pub enum Place {
    /// A client's reader, before it hands in a piece.
    ClientReader = 1,
    /// A client's writer, before it writes.
    ClientWriter = 2,
    /// A device's reader, before it hands in a piece.
    DeviceReader = 3,
    /// A device's writer, before it writes.
    DeviceWriter = 4,
}

/// A gate that may hold a worker.
pub trait Gate {
    /// Passes at the place of this number, for the client or link of this number.
    fn pass(&self, place: u8, number: u32);
}

/// A gate that is always open.
#[derive(Clone, Copy, Drop)]
pub struct OpenGate {}

impl OpenGate {
    /// Returns a gate. Allocates nothing.
    pub fn new() -> OpenGate {
        OpenGate {}
    }
}

impl Gate for OpenGate {
    fn pass(&self, _place: u8, _number: u32) {}
}

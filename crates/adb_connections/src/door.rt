//! The door where clients and devices come in, and the bell that closes it.

use crate::device::{Device, DeviceIn, DeviceOut};
use crate::port::{PortIn, PortOut};

/// The answer of a door.
#[derive(Drop)]
pub enum Came<I: Drop, O: Drop, X: DeviceIn, Z: DeviceOut> {
    /// A client, by the two halves of its connection.
    Port(I, O),
    /// A connection to the port of a forward, which is not 0.
    Forward(u16, I, O),
    /// A device.
    Device(Device<X, Z>),
    /// No more connections come.
    Closed,
    /// The connection failed.
    Failed,
}

/// The kind of a door's answer.
#[derive(Clone, Copy, Debug, PartialEq, Eq, Drop)]
pub enum Arrival {
    Port,
    Forward(u16),
    Device,
    Closed,
    Failed,
}

/// A door where clients and devices come in.
pub trait Door: Drop {
    ghost use Rattle.std.specs.Prelude.{ℕ, List, Option};
    ghost use Rattle.adb_outside.specs.Outside.{Counts, TellsOneMore};
    ghost use Rattle.adb_connections.specs.Door.{FitsCame, Lasts, arrival, is_closed, is_failed_came};
    ghost use Rattle.adb_connections.specs.declared.door.Arrival.{Arrival};

    type In: PortIn + Send + Drop + 'static;

    type Out: PortOut + Send + Drop + 'static;

    type DeviceIn: DeviceIn + Send + 'static;

    type DeviceOut: DeviceOut + Send + 'static;

    /// The number of calls that failed. A count at its largest value counts as having risen.
    ghost faults: { Self → ℕ };

    /// The kinds of the answers in order, if the door shows them.
    ghost came: { Self → Option (List Arrival) };

    /// The door never answers `Closed`.
    ghost lasting: { Self → Type 0 };

    /// No call fails.
    ghost steady: { Self → Type 0 };

    /// Waits for the next client or device. Returns `Closed` after the bell of this door was rung,
    /// or if a door in memory has no more of them; no clause ties a bell to its door. The count of
    /// faults rises at `Failed` and is unchanged at every other answer.
    fn accept(&mut self) -> Came<Self::In, Self::Out, Self::DeviceIn, Self::DeviceOut>
        ensures fits { FitsCame result }
        ensures told { TellsOneMore (came self.old) (arrival result) (came self.new) }
        ensures lasts { Lasts (lasting self.old) (lasting self.new) (is_closed result) }
        ensures counts { Counts steady faults self.old self.new (is_failed_came result) };
}

/// A handle that asks a door to admit no more connections. Any thread may ring it.
pub trait Bell: Send + Sync + Drop + 'static {
    fn ring(&self);
}

/// The bell of a door that closes by itself. Ringing it has no effect.
#[derive(Clone, Copy, Drop)]
pub struct SilentBell {}

impl SilentBell {
    /// Returns a bell. Allocates nothing.
    pub fn new() -> SilentBell {
        SilentBell {}
    }
}

impl Bell for SilentBell {
    fn ring(&self) {}
}

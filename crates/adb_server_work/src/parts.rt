//! The types that a server is generic over.

use crate::context::Ringing;
use adb_binder::Binder;
use adb_connections::{Device, DeviceIn, DeviceOut, Gate, PortIn, PortOut};
use adb_recorder::Recorder;
use adb_server_locked_hall::LockedHall;
use adb_server_log::Marks;
use std::sync::Wait;
use std::sync::ledger::Ledger;

/// The types that a server is generic over, as one type parameter.
///
/// No associated type is bound by `Send` or `Sync`. The checker refuses a function that starts a
/// thread with a type which is `Send` by the bound of an associated type alone. So the functions
/// that start threads have a type parameter for each of these types, and every other function has a
/// parameter `P: Parts`.
pub trait Parts {
    /// Records the entries of the history.
    type Recorder: Recorder;

    /// The ledger of the count of entries.
    type Entries: Ledger;

    /// The ledger of the count of moved bytes.
    type Moved: Ledger;

    /// The ledger of the marks.
    type Marks: Marks;

    /// The half of a client's connection from which its reader reads.
    type ClientIn: PortIn + Drop + 'static;

    /// The half of a client's connection to which its writer writes.
    type ClientOut: PortOut + Drop + 'static;

    /// Binds the ports of a client's forwards.
    type Binder: Binder + Drop + 'static;

    /// The half of a device's link from which its reader reads.
    type DeviceIn: DeviceIn + 'static;

    /// The half of a device's link to which its writer writes.
    type DeviceOut: DeviceOut + 'static;

    /// Holds a worker before each of its steps.
    type Gate: Gate + Drop + 'static;

    /// A handle of the bell of the door.
    type Bell: Ringing;
}

/// A handle of the hall of a server.
pub type HallOf<W: Wait + Copy + Drop, P: Parts> = LockedHall<
    <P as Parts>::Recorder,
    <P as Parts>::Entries,
    <P as Parts>::Moved,
    <P as Parts>::Marks,
    W,
>;

/// A device of a server.
pub type DeviceOf<P: Parts> = Device<<P as Parts>::DeviceIn, <P as Parts>::DeviceOut>;

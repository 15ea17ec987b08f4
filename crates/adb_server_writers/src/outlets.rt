//! The output halves of clients and devices, behind one interface for the writer.

use adb_connections::{DeviceOut, PortOut};
use adb_outside::Wrote;

/// The calls of a writer on the output half of a connection.
pub(crate) trait Outlets<O> {
    ghost use Rattle.std.specs.Prelude.{◌≡◌, ◌<◌, ◌++◌, ℕ, List, Option, Bool, true, false, length};
    ghost use Rattle.adb_outside.specs.Outside.{Counts};
    ghost use Rattle.adb_outside.specs.Sink.{FitsPiece, TellsWrite, is_failed_write};

    /// The number of failed writes.
    ghost faults: { O → ℕ };

    /// The bytes that were written, if the port shows them to contracts.
    ghost written: { O → Option (List ℕ) };

    /// Whether the port is closed.
    ghost closed: { O → Bool };

    /// The port never fails.
    ghost steady: { O → Type 0 };

    /// Writes a piece in two parts, of which either may be empty.
    fn write(&self, port: &mut O, start: &[u8], rest: &[u8]) -> Wrote
        requires { 0 < length (start.now ++ rest.now) }
        ensures fits { FitsPiece (start.now ++ rest.now) result }
        ensures told { TellsWrite (written port.old) (written port.new) (start.now ++ rest.now)
            result }
        ensures counts { Counts steady faults port.old port.new (is_failed_write result) }
        ensures closed { closed port.new ≡ closed port.old };

    /// Closes the port.
    fn close(&self, port: &mut O)
        ensures closed { closed port.new ≡ true }
        ensures told { written port.new ≡ written port.old }
        ensures counts { Counts steady faults port.old port.new false };
}

/// The output halves of clients. `close` closes the port.
#[derive(Clone, Copy, Drop)]
pub(crate) struct Clients {}

impl<O: PortOut> Outlets<O> for Clients {
    ghost faults = { O.faults };

    ghost written = { O.written };

    ghost closed = { O.closed };

    ghost steady = { O.steady };

    fn write(&self, port: &mut O, start: &[u8], rest: &[u8]) -> Wrote {
        port.write_both(start, rest)
    }

    fn close(&self, port: &mut O) {
        port.close();
    }
}

/// The output halves of devices. `close` unplugs the device.
#[derive(Clone, Copy, Drop)]
pub(crate) struct Devices {}

impl<O: DeviceOut> Outlets<O> for Devices {
    ghost faults = { O.faults };

    ghost written = { O.written };

    ghost closed = { O.closed };

    ghost steady = { O.steady };

    fn write(&self, port: &mut O, start: &[u8], rest: &[u8]) -> Wrote {
        port.write_both(start, rest)
    }

    fn close(&self, port: &mut O) {
        port.unplug();
    }
}

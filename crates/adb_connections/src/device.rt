//! A device, and the two halves of its link.

use adb_outside::{Got, Kind, Text, Wrote};

/// Whether a device is plugged in.
#[derive(Clone, Copy, Debug, PartialEq, Eq, Drop)]
pub enum Plug {
    /// The device is plugged in: bytes can be read.
    Here,
    /// The device will not come.
    Never,
    /// The call failed to find out.
    Failed,
}

/// The reading half of a device's link.
pub trait DeviceIn: Drop {
    ghost use Rattle.std.specs.Prelude.{◌≡◌, ◌<◌, ℕ, List, Option, length};
    ghost use Rattle.adb_outside.specs.Outside.{Counts, TellsOneMore};
    ghost use Rattle.adb_outside.specs.Source.{FitsBuffer, TellsRead, is_failed_read};
    ghost use Rattle.adb_connections.specs.Device.{is_failed_plug};
    ghost use Rattle.adb_connections.specs.declared.device.Plug.{Plug};

    /// The number of calls that failed. A count at its largest value counts as having risen.
    ghost faults: { Self → ℕ };

    /// The bytes that are still to come, if the device shows them.
    ghost left: { Self → Option (List ℕ) };

    /// The answers of `plug` in order, if the device shows them.
    ghost plugs: { Self → Option (List Plug) };

    /// No call fails.
    ghost steady: { Self → Type 0 };

    /// Waits until the device is plugged in, or is known never to come. The count of faults rises
    /// at `Failed` and is unchanged at every other answer.
    fn plug(&mut self) -> Plug
        ensures plugs { TellsOneMore (plugs self.old) result (plugs self.new) }
        ensures told { left self.new ≡ left self.old }
        ensures counts { Counts steady faults self.old self.new (is_failed_plug result) };

    /// Reads as a `Source` does.
    fn read(&mut self, into: &mut [u8]) -> Got
        requires { 0 < length into.old }
        ensures fits { FitsBuffer into.old result }
        ensures told { TellsRead (left self.old) (left self.new) into.new result }
        ensures counts { Counts steady faults self.old self.new (is_failed_read result) }
        ensures plugs { plugs self.new ≡ plugs self.old };
}

/// The writing half of a device's link.
pub trait DeviceOut: Drop {
    ghost use Rattle.std.specs.Prelude.{◌≡◌, ◌<◌, ◌++◌, ℕ, List, Option, Bool, true, false, length};
    ghost use Rattle.adb_outside.specs.Outside.{Counts};
    ghost use Rattle.adb_outside.specs.Sink.{FitsPiece, TellsWrite, is_failed_write};

    /// The number of writes that failed. A count at its largest value counts as having risen.
    ghost faults: { Self → ℕ };

    /// The bytes that went out, if the device shows them.
    ghost written: { Self → Option (List ℕ) };

    /// Whether the device was unplugged.
    ghost closed: { Self → Bool };

    /// No write fails.
    ghost steady: { Self → Type 0 };

    /// Writes as a `Sink` does.
    fn write(&mut self, piece: &[u8]) -> Wrote
        requires { 0 < length piece.now }
        ensures fits { FitsPiece piece.now result }
        ensures told { TellsWrite (written self.old) (written self.new) piece.now result }
        ensures counts { Counts steady faults self.old self.new (is_failed_write result) }
        ensures closed { closed self.new ≡ closed self.old };

    /// Writes a piece that consists of two consecutive parts, of which either may be empty. The
    /// default body makes one write for each part that is not empty.
    fn write_both(&mut self, start: &[u8], rest: &[u8]) -> Wrote
        requires { 0 < length (start.now ++ rest.now) }
        ensures fits { FitsPiece (start.now ++ rest.now) result }
        ensures told { TellsWrite (written self.old) (written self.new) (start.now ++ rest.now)
            result }
        ensures counts { Counts steady faults self.old self.new (is_failed_write result) }
        ensures closed { closed self.new ≡ closed self.old }
    {
        if start.is_empty() {
            return self.write(rest);
        }
        match self.write(start) {
            Wrote::Failed { taken } => Wrote::Failed { taken },
            Wrote::All if rest.is_empty() => Wrote::All,
            Wrote::All => match self.write(rest) {
                Wrote::All => Wrote::All,
                Wrote::Failed { taken } => Wrote::Failed {
                    taken: start.len() + taken,
                },
            },
        }
    }

    /// Ends the link to the device.
    fn unplug(&mut self)
        ensures closed { closed self.new ≡ true }
        ensures told { written self.new ≡ written self.old }
        ensures counts { Counts steady faults self.old self.new false };
}

/// A device: its kind, its serial, and the two halves of its link.
#[derive(Drop)]
pub struct Device<I: DeviceIn, O: DeviceOut> {
    pub kind: Kind,
    pub serial: Text,
    pub input: I,
    pub output: O,
}

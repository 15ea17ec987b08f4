//! The two halves of a client's connection.

use adb_outside::{Got, Wrote};

/// The reading half of a client's connection.
pub trait PortIn {
    ghost use Rattle.std.specs.Prelude.{◌<◌, ℕ, List, Option, length};
    ghost use Rattle.adb_outside.specs.Outside.{Counts};
    ghost use Rattle.adb_outside.specs.Source.{FitsBuffer, TellsRead, is_failed_read};

    /// The number of reads that failed. A count at its largest value counts as having risen.
    ghost faults: { Self → ℕ };

    /// The bytes that are still to come, if the port shows them.
    ghost left: { Self → Option (List ℕ) };

    /// No read fails.
    ghost steady: { Self → Type 0 };

    /// Reads as a `Source` does.
    fn read(&mut self, into: &mut [u8]) -> Got
        requires { 0 < length into.old }
        ensures fits { FitsBuffer into.old result }
        ensures told { TellsRead (left self.old) (left self.new) into.new result }
        ensures counts { Counts steady faults self.old self.new (is_failed_read result) };
}

/// The writing half of a client's connection.
pub trait PortOut {
    ghost use Rattle.std.specs.Prelude.{◌≡◌, ◌<◌, ◌++◌, ℕ, List, Option, Bool, true, false, length};
    ghost use Rattle.adb_outside.specs.Outside.{Counts};
    ghost use Rattle.adb_outside.specs.Sink.{FitsPiece, TellsWrite, is_failed_write};

    /// The number of writes that failed. A count at its largest value counts as having risen.
    ghost faults: { Self → ℕ };

    /// The bytes that went out, if the port shows them.
    ghost written: { Self → Option (List ℕ) };

    /// Whether the connection was closed.
    ghost closed: { Self → Bool };

    /// No write fails.
    ghost steady: { Self → Type 0 };

    /// Writes as a `Sink` does.
    fn write(&mut self, piece: &[u8]) -> Wrote
        requires { 0 < length piece.now }
        ensures fits { FitsPiece piece.now result }
        ensures told { TellsWrite (written self.old) (written self.new) piece.now result }
        ensures counts { Counts steady faults self.old self.new (is_failed_write result) }
        ensures closed { closed self.new ≡ closed self.old };

    /// Writes a piece that consists of two consecutive parts, of which either may be empty. The
    /// default body makes one write for each part that is not empty.
    fn write_both(&mut self, start: &[u8], rest: &[u8]) -> Wrote
        requires { 0 < length (start.now ++ rest.now) }
        ensures fits { FitsPiece (start.now ++ rest.now) result }
        ensures told { TellsWrite (written self.old) (written self.new) (start.now ++ rest.now)
            result }
        ensures counts { Counts steady faults self.old self.new (is_failed_write result) }
        ensures closed { closed self.new ≡ closed self.old }
    {
        if start.is_empty() {
            return self.write(rest);
        }
        match self.write(start) {
            Wrote::Failed { taken } => Wrote::Failed { taken },
            Wrote::All if rest.is_empty() => Wrote::All,
            Wrote::All => match self.write(rest) {
                Wrote::All => Wrote::All,
                Wrote::Failed { taken } => Wrote::Failed {
                    taken: start.len() + taken,
                },
            },
        }
    }

    /// Closes the connection. The reading half is expected to answer `End` or `Failed` from then
    /// on, but no clause says so.
    fn close(&mut self)
        ensures closed { closed self.new ≡ true }
        ensures told { written self.new ≡ written self.old }
        ensures counts { Counts steady faults self.old self.new false };
}

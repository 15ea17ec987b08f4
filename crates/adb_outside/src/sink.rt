//! Sinks of bytes.

/// The result of a write.
#[derive(Clone, Copy, Debug, PartialEq, Eq, Drop)]
pub enum Wrote {
    /// The whole piece went out.
    All,
    /// The write failed after that many bytes of the piece.
    Failed { taken: usize },
}

/// A sink of bytes outside the program.
pub trait Sink {
    ghost use Rattle.std.specs.Prelude.{◌<◌, ℕ, List, Option, length};
    ghost use Rattle.adb_outside.specs.Outside.{Counts};
    ghost use Rattle.adb_outside.specs.Sink.{FitsPiece, TellsWrite, is_failed_write};

    /// The number of writes that failed. A count at its largest value counts as having risen.
    ghost faults: { Self → ℕ };

    /// The bytes that went out, if the sink shows them.
    ghost written: { Self → Option (List ℕ) };

    /// No write fails.
    ghost steady: { Self → Type 0 };

    /// Writes a piece, which holds at least one byte. At `Failed` the count of faults rises, and
    /// the first `taken` bytes of the piece went out. At `All` the count is unchanged.
    fn write(&mut self, piece: &[u8]) -> Wrote
        requires { 0 < length piece.now }
        ensures fits { FitsPiece piece.now result }
        ensures told { TellsWrite (written self.old) (written self.new) piece.now result }
        ensures counts { Counts steady faults self.old self.new (is_failed_write result) };
}

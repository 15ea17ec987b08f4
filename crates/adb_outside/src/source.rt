//! Sources of bytes.

/// The result of a read.
#[derive(Clone, Copy, Debug, PartialEq, Eq, Drop)]
pub enum Got {
    /// That many bytes, at least one, are at the start of the buffer.
    Bytes(usize),
    /// No more bytes come.
    End,
    /// The read failed. No byte was taken.
    Failed,
}

/// A source of bytes outside the program.
pub trait Source {
    ghost use Rattle.std.specs.Prelude.{◌<◌, ℕ, List, Option, length};
    ghost use Rattle.adb_outside.specs.Outside.{Counts};
    ghost use Rattle.adb_outside.specs.Source.{FitsBuffer, TellsRead, is_failed_read};

    /// The number of reads that failed. A count at its largest value counts as having risen.
    ghost faults: { Self → ℕ };

    /// The bytes that are still to come, if the source shows them.
    ghost left: { Self → Option (List ℕ) };

    /// No read fails.
    ghost steady: { Self → Type 0 };

    /// Reads some of the bytes that are still to come into the start of the buffer, which holds at
    /// least one byte. If the source shows its bytes, it returns `End` exactly when none are left.
    /// The count of faults rises at `Failed` and is unchanged at every other answer.
    fn read(&mut self, into: &mut [u8]) -> Got
        requires { 0 < length into.old }
        ensures fits { FitsBuffer into.old result }
        ensures told { TellsRead (left self.old) (left self.new) into.new result }
        ensures counts { Counts steady faults self.old self.new (is_failed_read result) };
}

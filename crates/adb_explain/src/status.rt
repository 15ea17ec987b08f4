//! The status of a run, and its exit code.

ghost use Rattle.std.specs.Prelude.{◌≡◌};
ghost use Rattle.adb_explain.specs.Notes.{code_of};

/// The status of a run.
#[derive(Clone, Copy, Debug, PartialEq, Eq, Drop)]
pub enum Status {
    /// The history is legal, and all its lines are written.
    Done,
    /// The words are wrong. Nothing was read.
    Usage,
    /// The source failed.
    ReadFault,
    /// The sink or the note failed.
    WriteFault,
    /// The capture is refused for its form.
    BadCapture,
    /// An allocation failed.
    OutOfMemory,
    /// An entry is illegal. Its line is the last one.
    Illegal,
}

impl Status {
    /// Returns the exit code of a program that ends with this status. `adbhub` has the same codes.
    pub fn code(self) -> u8
        ensures { result ≡ code_of self }
    {
        match self {
            Status::Done => 0,
            Status::Usage => 2,
            Status::ReadFault => 3,
            Status::WriteFault => 4,
            Status::BadCapture => 5,
            Status::OutOfMemory => 6,
            Status::Illegal => 14,
        }
    }
}

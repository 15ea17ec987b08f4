//! The status of a run, and its exit code.

ghost use Rattle.std.specs.Prelude.{◌≡◌};
ghost use Rattle.adb_top.specs.Notes.{code_of};

/// The status of a run: of a command that neither serves nor dials, a server, or a client tool.
#[derive(Clone, Copy, Debug, PartialEq, Eq, Drop)]
pub enum Status {
    /// The run is complete.
    Done,
    /// The words are no command. Nothing was read.
    Usage,
    /// The source failed.
    ReadFault,
    /// The sink or the note failed.
    WriteFault,
    /// The capture is refused.
    BadCapture,
    /// An allocation failed.
    OutOfMemory,
    /// The recorder of a server failed.
    RecordFault,
    /// Listening on the port of a server failed, or its door failed.
    DoorFault,
    /// A line of the script is refused.
    BadScript,
    /// The server refused the request of a client tool.
    Refused,
    /// The server's answer is not valid for the request.
    BadAnswer,
    /// The server could not be dialled, or the connection to it failed.
    PortFault,
    /// The input of a push is larger than a client tool sends.
    TooLarge,
    /// The history that was judged is not legal.
    Illegal,
}

impl Status {
    /// Returns the exit code of a program that ends with this status.
    pub fn code(&self) -> u8
        ensures { result ≡ code_of self.now }
    {
        match self {
            Status::Done => 0,
            Status::Usage => 2,
            Status::ReadFault => 3,
            Status::WriteFault => 4,
            Status::BadCapture => 5,
            Status::OutOfMemory => 6,
            Status::RecordFault => 7,
            Status::DoorFault => 8,
            Status::BadScript => 9,
            Status::Refused => 11,
            Status::BadAnswer => 12,
            Status::PortFault => 13,
            Status::Illegal => 14,
            Status::TooLarge => 15,
        }
    }
}

//! The decision of a reader after a piece.

ghost use Rattle.std.specs.Prelude.{◌≡◌};
ghost use Rattle.adb_server_device_reader.specs.Handing.{goes_on};

/// The decision of a reader after a piece.
#[derive(Clone, Copy, Debug, PartialEq, Eq, Drop)]
pub(crate) enum Next {
    /// The reader continues.
    Go,
    /// The reader continues when the device has room again.
    Pause,
    /// The reader stops.
    Stop,
}

impl Next {
    /// Returns whether the reader continues, at once or later.
    pub(crate) fn goes_on(self) -> bool
        ensures { result ≡ goes_on self }
    {
        match self {
            Next::Go | Next::Pause => true,
            Next::Stop => false,
        }
    }
}

//! The decision of a reader after a turn.

ghost use Rattle.std.specs.Prelude.{◌≡◌};
ghost use Rattle.adb_server_client_reader.specs.declared.next.Next.TheVariants.{Stop};

/// The decision of a reader after a turn.
#[derive(Clone, Copy, Debug, PartialEq, Eq, Drop)]
pub(crate) enum Next {
    /// The reader continues. There is room for this number of bytes, if the number is known.
    Go(Option<usize>),
    /// The reader returns its pass.
    Stop,
}

/// The result of a turn.
#[derive(Clone, Copy, Debug, PartialEq, Eq, Drop)]
pub(crate) struct Fed {
    pub(crate) next: Next,
    /// Whether the read filled the buffer.
    pub(crate) filled: bool,
}

impl Fed {
    /// Returns the result of a turn after which the reader stops.
    pub(crate) fn stop() -> Fed
        ensures { result.next ≡ Stop }
    {
        Fed {
            next: Next::Stop,
            filled: false,
        }
    }
}

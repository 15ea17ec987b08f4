//! The actions of the clients and the devices of a load.

ghost use Rattle.std.specs.Prelude.{◌≡◌, ◌∷◌};
ghost use Rattle.adb_load.specs.Acts.{acts_due, acts_from};

/// The meaning of one entry of a load. Streams are numbered from 0, and links from 1.
#[derive(Clone, Copy, Drop)]
pub(crate) enum Act {
    /// A device is plugged in.
    Plug {
        link: u16,
    },
    /// The device sends its identity.
    Greet {
        link: u16,
    },
    /// A stream's client comes.
    Come {
        stream: u16,
    },
    /// The client selects its device and asks for the service.
    Ask {
        stream: u16,
    },
    /// The device opens the stream.
    Accept {
        stream: u16,
    },
    /// The client writes `count` bytes, from its byte `from` on.
    Write {
        stream: u16,
        from: u16,
        count: u16,
    },
    /// The device acknowledges them.
    Acknowledge {
        stream: u16,
    },
    /// The device writes `count` bytes, from its byte `from` on: the whole packet, or a piece of
    /// it.
    Answer {
        stream: u16,
        from: u16,
        count: u16,
        piece: Piece,
    },
    /// The client leaves.
    Leave {
        stream: u16,
    },
    /// The device closes the stream.
    Close {
        stream: u16,
    },
}

/// The part of a packet that comes at once.
#[derive(Clone, Copy, Drop)]
pub(crate) enum Piece {
    Whole,
    /// The packet's first bytes, fewer than a header has.
    Head,
    /// The bytes after them.
    Tail,
}

impl Act {
    /// Returns the act that follows immediately, whatever is drawn.
    pub(crate) fn follower(self) -> Option<Act>
        ensures { acts_from self ≡ self ∷ acts_due result }
    {
        match self {
            Act::Plug { link } => Some(Act::Greet { link }),
            Act::Come { stream } => Some(Act::Ask { stream }),
            Act::Ask { stream } => Some(Act::Accept { stream }),
            Act::Write { stream, .. } => Some(Act::Acknowledge { stream }),
            Act::Answer {
                stream,
                from,
                count,
                piece: Piece::Head,
            } => Some(Act::Answer {
                stream,
                from,
                count,
                piece: Piece::Tail,
            }),
            _ => None,
        }
    }
}

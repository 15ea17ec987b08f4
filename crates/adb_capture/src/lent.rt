//! Entries with borrowed bytes.

ghost use Rattle.std.specs.Prelude.{◌≡◌};
ghost use Rattle.adb_capture.specs.Lent.{entry_lent};

use crate::entry::Entry;
use adb_outside::{Cause, Kind, Parts};

/// An entry that borrows its bytes from where they are stored.
#[derive(Clone, Copy, Drop)]
pub enum Lent<'a> {
    Join {
        client: u32,
    },
    Enter {
        client: u32,
        port: u16,
    },
    Read {
        client: u32,
        bytes: &'a [u8],
    },
    End {
        client: u32,
        cause: Cause,
    },
    Bound {
        client: u32,
        port: u16,
    },
    Attach {
        link: u32,
        kind: Kind,
        serial: &'a [u8],
    },
    Recv {
        link: u32,
        bytes: &'a [u8],
    },
    Detach {
        link: u32,
        cause: Cause,
    },
    Put {
        client: u32,
        bytes: Parts<'a>,
    },
    Send {
        link: u32,
        bytes: Parts<'a>,
    },
}

impl Entry {
    /// Returns the entry with its bytes borrowed.
    pub fn lend(&self) -> Lent<'_>
        ensures { entry_lent result ≡ self.now }
    {
        match self {
            Entry::Join { client } => Lent::Join { client: *client },
            Entry::Enter { client, port } => Lent::Enter {
                client: *client,
                port: *port,
            },
            Entry::Read { client, bytes } => Lent::Read {
                client: *client,
                bytes: bytes.as_slice(),
            },
            Entry::End { client, cause } => Lent::End {
                client: *client,
                cause: *cause,
            },
            Entry::Bound { client, port } => Lent::Bound {
                client: *client,
                port: *port,
            },
            Entry::Attach { link, kind, serial } => Lent::Attach {
                link: *link,
                kind: *kind,
                serial: serial.as_slice(),
            },
            Entry::Recv { link, bytes } => Lent::Recv {
                link: *link,
                bytes: bytes.as_slice(),
            },
            Entry::Detach { link, cause } => Lent::Detach {
                link: *link,
                cause: *cause,
            },
            Entry::Put { client, bytes } => Lent::Put {
                client: *client,
                bytes: bytes.parts(),
            },
            Entry::Send { link, bytes } => Lent::Send {
                link: *link,
                bytes: bytes.parts(),
            },
        }
    }
}

//! The entries of a history: one for each event of the server.

use adb_outside::{Cause, HandOut, Kind, Text};
use std::alloc::AllocError;

/// One event of the server. Clients, links and ports are named by their numbers.
#[derive(Drop)]
pub enum Entry {
    /// A client came.
    Join { client: u32 },
    /// A client came through the forward of a local port, which is not 0.
    Enter { client: u32, port: u16 },
    /// Bytes came from a client.
    Read { client: u32, bytes: Text },
    /// A client's input ended.
    End { client: u32, cause: Cause },
    /// The listener that a client waits for is bound to a port; 0 means that none could be made.
    Bound { client: u32, port: u16 },
    /// A device was plugged in.
    Attach { link: u32, kind: Kind, serial: Text },
    /// Bytes came from a device.
    Recv { link: u32, bytes: Text },
    /// A device's input ended.
    Detach { link: u32, cause: Cause },
    /// Bytes were handed out to a client.
    Put { client: u32, bytes: HandOut },
    /// Bytes were handed out to a device.
    Send { link: u32, bytes: HandOut },
}

/// The client or link that an entry names, by its number.
#[derive(Clone, Copy, Debug, PartialEq, Eq, Drop)]
pub enum Owner {
    Client(u32),
    Link(u32),
}

impl Owner {
    ghost use Rattle.std.specs.Prelude.{◌≡◌};
    ghost use Rattle.adb_capture.specs.Records.{number_in};

    /// Returns the number of the client or link.
    pub fn number(self) -> u32
        ensures { result ≡ number_in self }
    {
        match self {
            Owner::Client(client) => client,
            Owner::Link(link) => link,
        }
    }
}

impl Entry {
    ghost use Rattle.std.specs.Prelude.{◌≡◌, IfOk};
    ghost use Rattle.adb_capture.specs.Records.{came_from, owner_of};

    /// Returns the entry for a piece that came from a client or a device.
    pub fn came_from(from: Owner, piece: Text) -> Entry
        ensures { result ≡ came_from from piece }
    {
        match from {
            Owner::Client(client) => Entry::Read {
                client,
                bytes: piece,
            },
            Owner::Link(link) => Entry::Recv { link, bytes: piece },
        }
    }

    /// Returns the client or link that the entry names.
    pub fn owner(&self) -> Owner
        ensures { result ≡ owner_of self.now }
    {
        match self {
            Entry::Join { client }
            | Entry::Enter { client, .. }
            | Entry::Read { client, .. }
            | Entry::End { client, .. }
            | Entry::Bound { client, .. }
            | Entry::Put { client, .. } => Owner::Client(*client),
            Entry::Attach { link, .. }
            | Entry::Recv { link, .. }
            | Entry::Detach { link, .. }
            | Entry::Send { link, .. } => Owner::Link(*link),
        }
    }

    /// Returns the same entry, in memory of its own. Fails if an allocation fails.
    pub fn copy(&self) -> Result<Entry, AllocError>
        ensures { IfOk result (λ e. e ≡ self.now) }
    {
        Ok(match self {
            Entry::Join { client } => Entry::Join { client: *client },
            Entry::Enter { client, port } => Entry::Enter {
                client: *client,
                port: *port,
            },
            Entry::Read { client, bytes } => Entry::Read {
                client: *client,
                bytes: bytes.copy()?,
            },
            Entry::End { client, cause } => Entry::End {
                client: *client,
                cause: *cause,
            },
            Entry::Bound { client, port } => Entry::Bound {
                client: *client,
                port: *port,
            },
            Entry::Attach { link, kind, serial } => Entry::Attach {
                link: *link,
                kind: *kind,
                serial: serial.copy()?,
            },
            Entry::Recv { link, bytes } => Entry::Recv {
                link: *link,
                bytes: bytes.copy()?,
            },
            Entry::Detach { link, cause } => Entry::Detach {
                link: *link,
                cause: *cause,
            },
            Entry::Put { client, bytes } => Entry::Put {
                client: *client,
                bytes: bytes.copy()?,
            },
            Entry::Send { link, bytes } => Entry::Send {
                link: *link,
                bytes: bytes.copy()?,
            },
        })
    }
}

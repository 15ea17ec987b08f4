//! The calls of a server's environment that fail, and the end of the server after each.

use adb_connections::Plug;
use adb_server::Served;

/// A row: a server with a device, and with one client, if `comes`, that asks for the version. At
/// the end of each row the device is unplugged and the client's connection is closed.
#[derive(Clone, Copy, Drop)]
pub(crate) struct Row {
    pub(crate) name: &'static str,
    /// The call of each kind that fails, counted from 1, 0 for none.
    pub(crate) read: u64,
    pub(crate) write: u64,
    pub(crate) accept: u64,
    pub(crate) spawn: u64,
    pub(crate) keep: u64,
    pub(crate) plug: Plug,
    pub(crate) serial: &'static [u8],
    /// Whether a client comes.
    pub(crate) comes: bool,
    pub(crate) told: &'static [u8],
    pub(crate) served: Served,
}

/// Nothing fails. The device never comes.
const CLIENT: Row = Row {
    name: "client",
    read: 0,
    write: 0,
    accept: 0,
    spawn: 0,
    keep: 0,
    plug: Plug::Never,
    serial: b"emu1",
    comes: true,
    told: b"Join 1\nRead 1 16\nPut 1 12\n",
    served: Served::Done,
};

/// Nothing fails. The device comes, and no client does.
const DEVICE: Row = Row {
    name: "device",
    plug: Plug::Here,
    comes: false,
    told: b"Attach 1\nRecv 1 32\nRecv 1 23\nDetach 1 Eof\n",
    ..CLIENT
};

pub(crate) const CLIENTS: &[Row] = &[
    CLIENT,
    Row {
        name: "first read",
        read: 1,
        told: b"Join 1\nEnd 1 Fault\n",
        ..CLIENT
    },
    Row {
        name: "first write",
        write: 1,
        told: b"Join 1\nRead 1 16\nPut 1 12\nEnd 1 Fault\n",
        ..CLIENT
    },
    Row {
        name: "first accept",
        accept: 1,
        told: b"",
        served: Served::DoorFault,
        ..CLIENT
    },
    Row {
        name: "first spawn",
        spawn: 1,
        told: b"Join 1\nEnd 1 NoThread\n",
        ..CLIENT
    },
    Row {
        name: "second spawn",
        spawn: 2,
        told: b"Join 1\nRead 1 16\nEnd 1 NoThread\n",
        ..CLIENT
    },
    Row {
        name: "first keep",
        keep: 1,
        told: b"",
        served: Served::RecordFault,
        ..CLIENT
    },
    Row {
        name: "second keep",
        keep: 2,
        told: b"Join 1\n",
        served: Served::RecordFault,
        ..CLIENT
    },
];

pub(crate) const DEVICES: &[Row] = &[
    DEVICE,
    Row {
        name: "failed device",
        plug: Plug::Failed,
        told: b"",
        ..DEVICE
    },
    Row {
        name: "device that never comes",
        plug: Plug::Never,
        told: b"",
        ..DEVICE
    },
    Row {
        name: "device without a serial",
        serial: b"emu 1",
        told: b"",
        ..DEVICE
    },
    Row {
        name: "first spawn of a device",
        spawn: 1,
        told: b"Attach 1\nDetach 1 NoThread\n",
        ..DEVICE
    },
];

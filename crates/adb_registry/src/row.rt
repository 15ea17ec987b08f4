//! The record of one device.

ghost use Rattle.std.specs.Prelude.{◌≡◌, IfOk};
ghost use Rattle.adb_registry.specs.Row.{new_row, online_row};

use adb_outside::{Identity, Kind, State, Text, state_of};
use std::alloc::{AllocError, Global};

/// A device that is plugged in (OVERVIEW.TXT, "Transports").
#[derive(Drop)]
pub struct Row {
    /// The transport id, at least 1.
    pub id: u32,
    pub kind: Kind,
    /// 1 to 64 bytes of 0x21 to 0x7e. Another row may have the same.
    pub serial: Text,
    pub state: State,
    /// The identity in the device's last CNXN.
    pub identity: Option<Identity>,
    /// The version of the device's last CNXN, 0 before the first one.
    pub version: u32,
    /// The maximum payload that the device accepts in one packet, 0 before its first CNXN.
    pub maxdata: u32,
}

impl Row {
    /// Returns the row of a device that was just plugged in.
    pub(crate) fn new(alloc: Global, id: u32, kind: Kind, serial: &[u8]) -> Result<Row, AllocError>
        ensures { IfOk result (λ row. row ≡ new_row id kind serial.now) }
    {
        Ok(Row {
            id,
            kind,
            serial: Text::from_slice(alloc, serial)?,
            state: State::Offline,
            identity: None,
            version: 0,
            maxdata: 0,
        })
    }

    /// Sets the row of a device that sent its identity.
    pub(crate) fn go_online(&mut self, identity: Identity, version: u32, maxdata: u32)
        ensures { self.new ≡ online_row identity version maxdata self.old }
    {
        self.state = state_of(&identity);
        self.identity = Some(identity);
        self.version = version;
        self.maxdata = maxdata;
    }
}

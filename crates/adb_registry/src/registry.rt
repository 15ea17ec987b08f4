//! The registry: the devices that are plugged in, by their transport ids.

ghost use Rattle.std.specs.Prelude.{◌≡◌, ◌≤◌, ◌<◌, ◌+◌, ◌^◌, [], true, length, is_some, option_map, option_copied, IsSome, IsSomeAnd, MatchOption, IfOk, IfSome, OnOk, OnErr, IsOkUnless};
ghost use Rattle.std.specs.Bool.{OnFalse};
ghost use Rattle.std.specs.Map.{values_of};
ghost use Rattle.adb_outside.specs.Tables.{at, Puts};
ghost use Rattle.adb_registry.specs.Row.{new_row, online_row, unauthorized_row};
ghost use Rattle.adb_registry.specs.Registry.{IsRowAt, IsSound, attach_refusal, attached, changed, detached};
ghost use Rattle.adb_registry.specs.Choice.{is_meant, choice};
ghost use Rattle.adb_registry.specs.Lists.{short_list, long_list};
ghost use Rattle.adb_registry.specs.declared.lists.TheConstants.{SERIAL_WIDTH, MAX_VALUE};
ghost use Rattle.adb_registry.specs.declared.registry.AttachError.TheVariants.{OutOfMemory};

use crate::choice::{self, Refusal};
use crate::lists;
use crate::row::Row;
use adb_outside::{Identity, Kind, Selector, State, Text, is_serial};
use std::alloc::{AllocError, AllocFailed, Global};
use std::collections::BTreeMap;
use std::marker::Model;

/// The maximum number of devices at one time.
pub(crate) const MAX_DEVICES: usize = 128;

/// The maximum number of bytes of a device's features.
pub const MAX_FEATURES: usize = 32768;

/// States the numbers that definitions take from the code.
pub fn limits_are()
    ensures devices { MAX_DEVICES ≡ 128 }
    ensures features { MAX_FEATURES ≡ 32768 }
    ensures width { SERIAL_WIDTH ≡ 22 }
    ensures value { MAX_VALUE ≡ 64 }
{}

/// The reason why a device was not attached.
#[derive(Clone, Copy, Debug, PartialEq, Eq, Drop)]
pub enum AttachError {
    /// All ids were used.
    Numbers,
    /// 128 devices are already plugged in.
    Full,
    /// The serial is not 1 to 64 bytes of 0x21 to 0x7e.
    BadSerial,
    OutOfMemory,
}

/// The devices that are plugged in, by their transport ids, which are drawn 1, 2, 3 and so on and
/// never used again. Contracts see how many ids were drawn, and the rows in rising id.
#[derive(Drop)]
pub struct Registry {
    alloc: Global,
    drawn: u32,
    rows: BTreeMap<u32, Row>,
}

impl From<AllocError> for AttachError {
    ghost from_gives = { λ _ e. e ≡ OutOfMemory };

    fn from(_error: AllocError) -> AttachError {
        AttachError::OutOfMemory
    }
}

impl<T: Drop> From<AllocFailed<T>> for AttachError {
    ghost from_gives = { λ _ e. e ≡ OutOfMemory };

    fn from(_error: AllocFailed<T>) -> AttachError {
        AttachError::OutOfMemory
    }
}

impl Model for Registry {
    ghost use Rattle.adb_registry.specs.Registry.{DeviceTable, IsSound};

    ghost Value = { DeviceTable };

    ghost view = { λ r. record { drawn = r.drawn; rows = r.rows.entries } };

    ghost invariant = { λ r. IsSound (record { drawn = r.drawn; rows = r.rows.entries }) };
}

impl Registry {
    /// Returns a registry without devices. Allocates nothing.
    pub fn new(alloc: Global) -> Registry
        ensures drawn { result.drawn ≡ 0 }
        ensures rows { result.rows ≡ [] }
    {
        Registry {
            alloc,
            drawn: 0,
            rows: BTreeMap::new(alloc),
        }
    }

    /// Returns how many ids were drawn.
    pub fn drawn(&self) -> u32
        ensures drawn { result ≡ self.now.drawn }
        ensures sound { IsSound self.now }
    {
        self.drawn
    }

    /// Returns the reason why a device of this serial would not be attached, if there is one: the
    /// first in the order of `AttachError`. Allocates nothing.
    pub fn refusal(&self, serial: &[u8]) -> Option<AttachError>
        ensures { result ≡ attach_refusal self.now serial.now }
    {
        if self.drawn == u32::MAX {
            return Some(AttachError::Numbers);
        }
        if self.rows.len() == MAX_DEVICES {
            return Some(AttachError::Full);
        }
        if !is_serial(serial) {
            return Some(AttachError::BadSerial);
        }
        None
    }

    /// Attaches a device that was plugged in, offline, under the next id, and returns the id. Other
    /// devices may have the same serial. After an error the registry is unchanged.
    ///
    /// `Numbers`: returned exactly if 2^32 - 1 ids were drawn. `Full`: otherwise, exactly if 128
    /// devices are plugged in. `BadSerial`: otherwise, exactly if the serial is not 1 to 64 bytes
    /// of 0x21 to 0x7e.
    pub fn attach(&mut self, kind: Kind, serial: &[u8]) -> Result<u32, AttachError>
        ensures refused { MatchOption (attach_refusal self.old serial.now)
            (IsOkUnless result AttachError.OutOfMemory) (λ refusal. result ≡ Err refusal) }
        ensures id { IfOk result (λ id. id ≡ self.old.drawn + 1) }
        ensures devices { OnOk result (self.new ≡ attached kind serial.now self.old) }
        ensures row { IfOk result (λ id.
            Puts id (Some (new_row id kind serial.now)) self.old.rows self.new.rows) }
        ensures err { OnErr result (self.new ≡ self.old) }
        ensures sound { IsSound self.new }
    {
        if let Some(refusal) = self.refusal(serial) {
            return Err(refusal);
        }
        let id = self.drawn + 1;
        let row = Row::new(self.alloc, id, kind, serial)?;
        self.rows.insert(id, row)?;
        self.drawn = id;
        Ok(id)
    }

    /// Sets the state, identity, version and maxdata of a live device that sent its identity. The
    /// features have at most 32,768 bytes. Allocates nothing.
    pub fn online(&mut self, id: u32, identity: Identity, version: u32, maxdata: u32)
        requires live { IsSome (at id self.old.rows) }
        requires features { length identity.features ≤ MAX_FEATURES }
        ensures devices { self.new ≡ changed id (online_row identity version maxdata) self.old }
        ensures row { Puts id
            (option_map (online_row identity version maxdata) (at id self.old.rows))
            self.old.rows self.new.rows }
        ensures sound { IsSound self.new }
    {
        let row = self.rows.get_mut(&id).unwrap();
        row.go_online(identity, version, maxdata);
    }

    /// Marks a live device as unauthorized: it asked for something that this server does not
    /// support. Allocates nothing.
    pub fn unauthorized(&mut self, id: u32)
        requires { IsSome (at id self.old.rows) }
        ensures devices { self.new ≡ changed id unauthorized_row self.old }
        ensures row { Puts id (option_map unauthorized_row (at id self.old.rows))
            self.old.rows self.new.rows }
        ensures sound { IsSound self.new }
    {
        let row = self.rows.get_mut(&id).unwrap();
        row.state = State::Unauthorized;
    }

    /// Removes the device of this id. Returns whether there was one. Allocates nothing.
    pub fn detach(&mut self, id: u32) -> bool
        ensures found { result ≡ is_some (at id self.old.rows) }
        ensures devices { self.new ≡ detached id self.old }
        ensures row { Puts id None self.old.rows self.new.rows }
        ensures absent { OnFalse result (self.new ≡ self.old) }
        ensures sound { IsSound self.new }
    {
        self.rows.remove(&id).is_some()
    }

    /// Removes all devices. The ids that were drawn are not reused. Allocates nothing.
    pub fn clear(&mut self)
        ensures devices { self.new ≡ record self.old { rows = [] } }
        ensures sound { IsSound self.new }
    {
        self.rows.clear();
    }

    /// Returns the device of this id, if there is one: its serial has at most 64 bytes, its
    /// features at most 32,768.
    pub fn row(&self, id: u32) -> Option<&Row>
        ensures row { option_copied result ≡ at id self.now.rows }
        ensures kept { IfSome result (λ row. IsRowAt self.now.drawn id row.now) }
        ensures sound { IsSound self.now }
    {
        self.rows.get(&id)
    }

    /// Returns the id of the one device that the selector means, whatever its state. If `ready` is
    /// set, a device that is offline or unauthorized is refused with that reason. If the selector
    /// means no device or several, the refusal is the one for that selector. Allocates nothing.
    pub fn choose(&self, by: &Selector, ready: bool) -> Result<u32, Refusal>
        ensures choice { result ≡ choice (values_of self.now.rows) by.now ready }
        ensures meant { IfOk result (λ id.
            IsSomeAnd (at id self.now.rows) (λ row. is_meant by.now row ≡ true)) }
    {
        choice::choose(&self.rows, by, ready)
    }

    /// Returns the list of `host:devices` (SERVICES.TXT): a line for each device, in rising id.
    /// Fails if an allocation fails.
    pub fn short_list(&self) -> Result<Text, AllocError>
        ensures lines { IfOk result (λ list. list ≡ short_list (values_of self.now.rows)) }
        ensures fits { IfOk result (λ list. length list < 2 ^ 16) }
    {
        lists::short(self.alloc, &self.rows)
    }

    /// Returns the list of `host:devices-l` (SERVICES.TXT): a line for each device, in rising id.
    /// Fails if an allocation fails.
    pub fn long_list(&self) -> Result<Text, AllocError>
        ensures lines { IfOk result (λ list. list ≡ long_list (values_of self.now.rows)) }
        ensures fits { IfOk result (λ list. length list < 2 ^ 16) }
    {
        lists::long(self.alloc, &self.rows)
    }
}

//! The live streams, by the ids of both ends.

ghost use Rattle.std.specs.Prelude.{◌≡◌, [], Some, None, is_some, OnOk};
ghost use Rattle.adb_outside.specs.Tables.{at, Puts};
ghost use Rattle.adb_daemon.specs.Held.{host_at, is_named};

use adb_device_streams::Stream;
use std::alloc::{AllocError, Global};
use std::collections::BTreeMap;

/// The live streams. No call looks at streams other than those it is about.
#[derive(Drop)]
pub struct Table {
    /// The number of the device's ids that were drawn.
    pub drawn: u32,
    /// The streams, by the device's ids.
    pub rows: BTreeMap<u32, Stream>,
    /// The device's ids, by the host's.
    pub hosts: BTreeMap<u32, u32>,
}

impl Table {
    /// Returns a table without streams, before any id is drawn. Allocates nothing.
    pub fn new(alloc: Global) -> Table
        ensures drawn { result.drawn ≡ 0 }
        ensures rows { result.rows.entries ≡ [] }
        ensures hosts { result.hosts.entries ≡ [] }
    {
        Table {
            drawn: 0,
            rows: BTreeMap::new(alloc),
            hosts: BTreeMap::new(alloc),
        }
    }

    /// Returns whether the host's id is that of a live stream.
    pub fn is_taken(&self, host: u32) -> bool
        ensures { result ≡ is_some (at host self.now.hosts.entries) }
    {
        self.hosts.contains_key(&host)
    }

    /// Returns the host's id of the stream of the device's id, if it lives.
    pub fn host_of(&self, own: u32) -> Option<u32>
        ensures { result ≡ host_at own self.now.rows.entries }
    {
        match self.rows.get(&own) {
            Some(stream) => Some(stream.host),
            None => None,
        }
    }

    /// Returns whether a live stream has both ids.
    pub fn has(&self, own: u32, host: u32) -> bool
        ensures { result ≡ is_named host (host_at own self.now.rows.entries) }
    {
        match self.host_of(own) {
            Some(found) => found == host,
            None => false,
        }
    }

    /// Adds a stream under the next id. If an allocation fails, it may be in one of the two indices
    /// only.
    pub fn add(&mut self, own: u32, stream: Stream) -> Result<(), AllocError>
        ensures drawn { OnOk result (self.new.drawn ≡ own) }
        ensures row { OnOk result
            (Puts own (Some stream) self.old.rows.entries self.new.rows.entries) }
        ensures host { OnOk result
            (Puts stream.host (Some own) self.old.hosts.entries self.new.hosts.entries) }
    {
        self.hosts.insert(stream.host, own)?;
        self.rows.insert(own, stream)?;
        self.drawn = own;
        Ok(())
    }

    /// Removes the stream of both ids. It takes no memory.
    pub fn remove(&mut self, own: u32, host: u32)
        ensures drawn { self.new.drawn ≡ self.old.drawn }
        ensures row { Puts own None self.old.rows.entries self.new.rows.entries }
        ensures host { Puts host None self.old.hosts.entries self.new.hosts.entries }
    {
        self.rows.remove(&own);
        self.hosts.remove(&host);
    }

    /// Removes every stream. It takes no memory.
    pub fn clear(&mut self)
        ensures drawn { self.new.drawn ≡ self.old.drawn }
        ensures rows { self.new.rows.entries ≡ [] }
        ensures hosts { self.new.hosts.entries ≡ [] }
    {
        self.rows.clear();
        self.hosts.clear();
    }
}

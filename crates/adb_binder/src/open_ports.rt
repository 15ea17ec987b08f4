//! The ports that are bound.

ghost use Rattle.std.specs.Prelude.{◌≡◌, ◌==◌, ◌||◌, ℕ, false, [], OnOk, OnErr};
ghost use Rattle.adb_binder.specs.OpenPorts.{is_open};

use std::alloc::{AllocError, Global};
use std::collections::BTreeSet;
use std::marker::Model;

/// A set of ports. Contracts see it as a list of them.
#[derive(Drop)]
pub struct OpenPorts {
    ports: BTreeSet<u16>,
}

impl Model for OpenPorts {
    ghost use Rattle.std.specs.Prelude.{List, ℕ};

    ghost Value = { List ℕ };

    ghost view = { λ set. set.ports.keys };
}

impl OpenPorts {
    /// Returns a set in which no port is open. Allocates nothing.
    pub fn new(alloc: Global) -> OpenPorts
        ensures { result ≡ [] }
    {
        OpenPorts {
            ports: BTreeSet::new(alloc),
        }
    }

    /// Returns whether a port was opened.
    pub fn opened(&self, port: u16) -> bool
        ensures { result ≡ is_open self.now port }
    {
        self.ports.contains(&port)
    }

    /// Adds a port. If an allocation fails, the set is unchanged, and the port was not in it.
    pub fn add(&mut self, port: u16) -> Result<(), AllocError>
        ensures ok { OnOk result ((other : ℕ)
            → is_open self.new other ≡ (other == port || is_open self.old other)) }
        ensures err { OnErr result (self.new ≡ self.old) }
        ensures absent { OnErr result (is_open self.old port ≡ false) }
    {
        self.ports.insert(port)?;
        Ok(())
    }
}

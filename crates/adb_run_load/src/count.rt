//! Counting the entries of a history.

ghost use Rattle.std.specs.Prelude.{◌≡◌, ◌∷◌, [], OnOk};
ghost use Rattle.adb_history.specs.Machine.{History, IsLegal};
ghost use Rattle.adb_run_load.specs.Counted.{IsCount};

use crate::down::Down;
use crate::totals::Totals;
use crate::up::Up;
use adb_capture::Entry;
use std::alloc::{AllocError, Global};

/// The counts of a history so far.
#[derive(Drop)]
pub(crate) struct Count {
    entries: u64,
    up: Up,
    down: Down,
}

impl Count {
    /// Returns the counts before the first entry. Allocates nothing.
    pub(crate) fn new(alloc: Global) -> Count
        ensures { IsCount [] result }
    {
        Count {
            entries: 0,
            up: Up::new(alloc),
            down: Down::new(alloc),
        }
    }

    /// Returns the totals of the entries so far.
    pub(crate) fn totals(&self) -> Totals
        ensures { result ≡ record {
          up = self.now.up.total;
          down = self.now.down.total;
          entries = self.now.entries;
        } }
    {
        Totals {
            up: self.up.total,
            down: self.down.total,
            entries: self.entries,
        }
    }

    /// Counts the next entry.
    pub(crate) fn add(&mut self, entry: &Entry) -> Result<(), AllocError>
        ensures { OnOk result ((h : History) → IsLegal (entry.now ∷ h) → IsCount h self.old
            → IsCount (entry.now ∷ h) self.new) }
    {
        self.up.add(entry)?;
        self.down.add(entry)?;
        self.entries = self.entries.saturating_add(1);
        Ok(())
    }
}

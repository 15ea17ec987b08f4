//! The streams that end, recorded for a caller that asks for them.

ghost use Rattle.std.specs.Prelude.{◌≡◌, ◌≤◌, [], OnErr, OnOk, nat_lt};
ghost use Rattle.adb_hub_tables.specs.Endings.{add_if_place, add_unless};

use adb_history::Ending;
use std::alloc::{AllocError, Global};
use std::marker::Model;

/// A stream that ended, with its client, its link and the cause.
#[derive(Clone, Copy, Debug, PartialEq, Eq, Drop)]
pub struct Ended {
    pub stream: u32,
    pub client: u32,
    pub link: u32,
    pub ending: Ending,
}

/// The streams that ended, in order, and spare places for more. Only `reserve` allocates. A log
/// without a spare place records nothing, so a caller that needs no endings passes a new one.
/// Contracts see the endings and the number of spare places.
#[derive(Drop)]
pub struct Endings {
    list: Vec<Ended>,
    spare: usize,
}

impl Model for Endings {
    ghost use Rattle.adb_hub_tables.specs.Endings.{Log, HasSpare};
    ghost use Rattle.std.specs.Prelude.{vec_len, vec_capacity};

    ghost Value = { Log };

    ghost view = { λ e. record { list = e.list.items; spare = e.spare } };

    ghost invariant = { λ e. HasSpare e.spare (vec_len e.list) (vec_capacity e.list) };
}

impl Endings {
    /// Returns an empty log without spare places. It allocates nothing.
    pub fn new(alloc: Global) -> Endings
        ensures { result ≡ record { list = []; spare = 0 } }
    {
        Endings {
            list: Vec::new(alloc),
            spare: 0,
        }
    }

    /// Makes `n` places spare. If an allocation fails, the log is unchanged.
    pub fn reserve(&mut self, n: usize) -> Result<(), AllocError>
        ensures list { self.new.list ≡ self.old.list }
        ensures ok { OnOk result (n ≤ self.new.spare) }
        ensures err { OnErr result (self.new ≡ self.old) }
    {
        self.list.reserve(n)?;
        self.spare = n;
        Ok(())
    }

    /// Returns whether a place is spare.
    pub fn has_spare(&self) -> bool
        ensures { result ≡ nat_lt 0 self.now.spare }
    {
        self.spare > 0
    }

    /// Records a stream that ended, if a place is spare.
    pub fn push(&mut self, ended: Ended)
        ensures { self.new ≡ add_if_place ended self.old }
    {
        if self.spare == 0 {
            return;
        }
        self.list.push_reserved(ended);
        self.spare -= 1;
    }

    /// Records a stream that ended, unless it was an orphan: the end of an orphan was recorded when
    /// its client failed.
    pub fn push_unless(&mut self, orphan: bool, ended: Ended)
        ensures { self.new ≡ add_unless orphan ended self.old }
    {
        if !orphan {
            self.push(ended);
        }
    }

    /// Returns the streams that ended, the first one first.
    pub fn as_slice(&self) -> &[Ended]
        ensures { result.now ≡ self.now.list }
    {
        self.list.as_slice()
    }

    /// Removes all endings. The memory stays.
    pub fn clear(&mut self)
        ensures { self.new ≡ record { list = []; spare = 0 } }
    {
        self.list.clear();
        self.spare = 0;
    }
}

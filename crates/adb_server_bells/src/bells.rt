//! Condition variables of workers: one for each pass that may wait.

use crate::rings::Rings;
use adb_hub::Owner;
use std::alloc::{AllocError, Global};
use std::collections::BTreeMap;
use std::sync::{Arc, Condvar};

/// The pass of a number that waits: its reader's or its writer's.
#[derive(Clone, Copy, Debug, PartialEq, Eq, Drop)]
pub enum Side {
    /// The pass of its reader.
    Reader,
    /// The pass of its writer.
    Writer,
}

/// The condition variable of a worker, and whether the worker sleeps on it.
#[derive(Drop)]
struct Bell {
    condvar: Arc<Condvar, Global>,
    sleeps: bool,
}

impl Bell {
    fn new(alloc: Global) -> Result<Bell, AllocError> {
        Ok(Bell {
            condvar: Arc::new(alloc, Condvar::new())?,
            sleeps: false,
        })
    }
}

/// The condition variables of the two passes of a client or of a link.
#[derive(Drop)]
pub struct Pair {
    reader: Bell,
    writer: Bell,
    /// The number of the two passes that are out.
    out: u8,
}

impl Pair {
    /// Makes the pair of a number with both passes out, and neither asleep. Fails if an allocation
    /// fails.
    pub fn new(alloc: Global) -> Result<Pair, AllocError> {
        Ok(Pair {
            reader: Bell::new(alloc)?,
            writer: Bell::new(alloc)?,
            out: 2,
        })
    }

    /// Adds the condition variables of both passes, if they sleep.
    fn ring(&mut self, rings: &mut Rings) {
        ring(&mut self.reader, rings);
        ring(&mut self.writer, rings);
    }

    fn bell(&mut self, side: Side) -> &mut Bell {
        match side {
            Side::Reader => &mut self.reader,
            Side::Writer => &mut self.writer,
        }
    }
}

/// The condition variables of all passes that are out. If the allocation for a number failed, its
/// passes use one that is shared by all such passes.
#[derive(Drop)]
pub struct Bells {
    alloc: Global,
    clients: BTreeMap<u32, Pair>,
    links: BTreeMap<u32, Pair>,
    /// Whether a worker sleeps on the shared condition variable.
    strays: bool,
}

impl Bells {
    /// Makes a table without numbers.
    pub fn new(alloc: Global) -> Bells {
        Bells {
            alloc,
            clients: BTreeMap::new(alloc),
            links: BTreeMap::new(alloc),
            strays: false,
        }
    }

    /// Adds the pair of a number that was drawn.
    pub fn put_up(&mut self, owner: Owner, pair: Pair) {
        let bells = self.of(owner);
        let _ = bells.insert(number_of(owner), pair);
    }

    /// Notes that a pass of this number is back. Removes the pair after the second one.
    pub fn pass_back(&mut self, owner: Owner) {
        let bells = self.of(owner);
        let number = number_of(owner);
        let is_last = match bells.get_mut(&number) {
            Some(pair) => {
                pair.out = pair.out.saturating_sub(1);
                pair.out == 0
            }
            None => false,
        };
        if is_last {
            bells.remove(&number);
        }
    }

    /// Notes that a worker goes to sleep. Returns the condition variable on which it must sleep, or
    /// `None` for the shared one.
    pub fn sleep(&mut self, owner: Owner, side: Side) -> Option<Arc<Condvar, Global>> {
        let own = match self.of(owner).get_mut(&number_of(owner)) {
            Some(pair) => {
                let bell = pair.bell(side);
                bell.sleeps = true;
                Arc::try_clone(&bell.condvar).ok()
            }
            None => None,
        };
        self.strays = self.strays || own.is_none();
        own
    }

    /// Returns a list that notifies the workers which sleep on the shared condition variable.
    pub fn ring_strays(&mut self) -> Rings {
        let rings = Rings::new(self.alloc, self.strays);
        self.strays = false;
        rings
    }

    /// Adds a worker's own condition variable to the list, if the worker sleeps on it.
    pub fn ring(&mut self, owner: Owner, side: Side, rings: &mut Rings) {
        if let Some(pair) = self.of(owner).get_mut(&number_of(owner)) {
            ring(pair.bell(side), rings);
        }
    }

    /// Adds the condition variables of all workers that sleep on their own.
    pub fn ring_all(&mut self, rings: &mut Rings) {
        for (_, pair) in self.clients.iter_mut() {
            pair.ring(rings);
        }
        for (_, pair) in self.links.iter_mut() {
            pair.ring(rings);
        }
    }

    fn of(&mut self, owner: Owner) -> &mut BTreeMap<u32, Pair> {
        match owner {
            Owner::Client(_) => &mut self.clients,
            Owner::Link(_) => &mut self.links,
        }
    }
}

fn ring(bell: &mut Bell, rings: &mut Rings) {
    if bell.sleeps {
        bell.sleeps = false;
        rings.ring(&bell.condvar);
    }
}

fn number_of(owner: Owner) -> u32 {
    match owner {
        Owner::Client(number) | Owner::Link(number) => number,
    }
}

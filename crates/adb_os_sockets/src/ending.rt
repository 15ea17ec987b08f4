//! The flags that say whether a server ends, or is asked to end.

use crate::lookout::Lookout;
use std::alloc::{AllocError, Global};
use std::sync::atomic::{AtomicBool, Ordering};
use std::sync::{Arc, Wait};

/// The state that the adapters of one server share.
#[derive(Drop)]
struct Shared {
    is_over: AtomicBool,
    is_hurried: AtomicBool,
    lookout: Lookout,
}

/// The flags that say whether the server ends, or is asked to end. The bell sets the first; the
/// door, the record and every connection share both. After it is set, a write to a peer that does
/// not read fails.
///
/// A connection that asks for a kill sets the second. It is advice alone: a write of the record
/// that waits then waits for a second at most. The server ends only if its hub accepts the kill.
#[derive(Drop)]
pub struct Ending {
    shared: Arc<Shared, Global>,
}

impl Ending {
    /// Makes flags that are not set. Fails if an allocation fails.
    pub fn new(alloc: Global) -> Result<Ending, AllocError> {
        let shared = Shared {
            is_over: AtomicBool::new(false),
            is_hurried: AtomicBool::new(false),
            lookout: Lookout::new(alloc),
        };
        Ok(Ending {
            shared: Arc::new(alloc, shared)?,
        })
    }

    /// Returns one more owner of the same flags. Fails if an allocation fails.
    pub fn share(&self) -> Result<Ending, AllocError> {
        Ok(Ending {
            shared: Arc::try_clone(&self.shared)?,
        })
    }

    /// Sets the flag that the server ends, and returns whether this call is the first that sets it.
    /// The flag stays set.
    pub fn set(&self) -> bool {
        !self.shared.is_over.swap(true, Ordering::SeqCst)
    }

    /// Returns whether the flag that the server ends is set.
    pub fn is_set(&self) -> bool {
        self.shared.is_over.load(Ordering::SeqCst)
    }

    /// Sets the flag that the server is asked to end. It stays set.
    pub fn hurry(&self) {
        self.shared.is_hurried.store(true, Ordering::SeqCst);
    }

    /// Returns whether the server ends or is asked to end: by one of the flags, or by a connection
    /// that no worker reads yet, for which the first flag is then set.
    pub fn is_hurried<W: Wait>(&self, rt: &W) -> bool {
        if self.is_set() || self.shared.is_hurried.load(Ordering::SeqCst) {
            return true;
        }
        let asked = self.shared.lookout.sees_a_kill(rt);
        if asked {
            self.hurry();
        }
        asked
    }

    /// Returns the connections that no worker reads yet.
    pub fn lookout(&self) -> &Lookout {
        &self.shared.lookout
    }
}

//! The listeners of forwards by port, and the claims to them.

use std::alloc::{AllocError, Global};
use std::collections::BTreeMap;
use std::net::TcpListener;

/// The listener of a forward.
#[derive(Drop)]
struct Forward {
    listener: TcpListener,
    /// The number of claims that were not given back.
    claims: u32,
    /// The number of the last claim.
    last_claim: u64,
}

/// A listener that had no claim when it was chosen.
#[derive(Clone, Copy, Debug, PartialEq, Eq, Drop)]
pub struct Candidate {
    pub port: u16,
    last_claim: u64,
}

/// The listeners of forwards by port.
///
/// A client claims a listener before it asks the hub for the forward, and gives the claim back when
/// the hub has answered. So the hub knows the forward of each listener without a claim, if there is
/// one. If the hub knows none, the listener can be closed, unless it was claimed since the question.
#[derive(Drop)]
pub struct Forwards {
    by_port: BTreeMap<u16, Forward>,
    /// The number of all claims.
    claims: u64,
    /// The port of the last candidate.
    chosen: u16,
}

impl Forwards {
    /// Makes a table without listeners. Allocates nothing.
    pub fn new(alloc: Global) -> Forwards {
        Forwards {
            by_port: BTreeMap::new(alloc),
            claims: 0,
            chosen: 0,
        }
    }

    /// Returns the listener of a port.
    pub fn listener(&self, port: u16) -> Option<&TcpListener> {
        match self.by_port.get(&port) {
            Some(forward) => Some(&forward.listener),
            None => None,
        }
    }

    /// Adds the listener of a port, with a claim to it. If an allocation fails, the listener is
    /// closed.
    pub fn add(&mut self, port: u16, listener: TcpListener) -> Result<(), AllocError> {
        let forward = Forward {
            listener,
            claims: 1,
            last_claim: self.number(),
        };
        self.by_port.insert(port, forward)?;
        Ok(())
    }

    /// Claims the listener of a port. Returns `false` if there is none.
    pub fn claim(&mut self, port: u16) -> bool {
        let number = self.number();
        match self.by_port.get_mut(&port) {
            Some(forward) => {
                forward.claims = forward.claims.saturating_add(1);
                forward.last_claim = number;
                true
            }
            None => false,
        }
    }

    /// Gives back a claim to the listener of a port.
    pub fn give_back(&mut self, port: u16) {
        if let Some(forward) = self.by_port.get_mut(&port) {
            forward.claims = forward.claims.saturating_sub(1);
        }
    }

    /// Chooses the next listener without a claim, by port after the last one that was chosen, and
    /// then from the first port.
    pub fn choose(&mut self) -> Option<Candidate> {
        let candidate = match self.unclaimed_from(self.chosen.wrapping_add(1)) {
            Some(candidate) => Some(candidate),
            None => self.unclaimed_from(0),
        };
        if let Some(candidate) = candidate {
            self.chosen = candidate.port;
        }
        candidate
    }

    /// Closes a listener that was chosen, unless it was claimed since then.
    pub fn close_unclaimed(&mut self, candidate: Candidate) {
        let is_unclaimed = match self.by_port.get(&candidate.port) {
            Some(forward) => forward.claims == 0 && forward.last_claim == candidate.last_claim,
            None => false,
        };
        if is_unclaimed {
            self.close(candidate.port);
        }
    }

    /// Closes the listener of a port.
    pub fn close(&mut self, port: u16) {
        self.by_port.remove(&port);
    }

    /// Returns the number of the next claim.
    fn number(&mut self) -> u64 {
        self.claims = self.claims.saturating_add(1);
        self.claims
    }

    /// Returns the first listener without a claim from a port on.
    fn unclaimed_from(&self, port: u16) -> Option<Candidate> {
        for (&port, forward) in self.by_port.range(port..=u16::MAX) {
            if forward.claims == 0 {
                return Some(Candidate {
                    port,
                    last_claim: forward.last_claim,
                });
            }
        }
        None
    }
}

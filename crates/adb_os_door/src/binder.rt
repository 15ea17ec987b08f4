//! The binder of the ports of forwards on this machine.

ghost use Rattle.std.specs.Prelude.{◌≡◌};
ghost use Rattle.adb_binder.specs.Binder.{FitsPort};

use crate::forwards::Candidate;
use crate::listeners::Listeners;
use adb_binder::{Binder, Binding};
use std::alloc::Global;
use std::net::{Net, TcpListener, TcpStream};
use std::sync::{Arc, Wait};

/// Binds ports of this machine. The door of the same listeners accepts the connections to such a
/// port, until the server ends. Without listeners each call fails. Contracts do not see its
/// answers.
#[derive(Drop)]
pub struct TcpBinder<W: Drop> {
    rt: W,
    listeners: Option<Arc<Listeners, Global>>,
    /// The port that was answered last, while this binder has a claim to its listener.
    claimed: Option<u16>,
    candidate: Option<Candidate>,
    faults: u64,
}

impl<W: Drop> TcpBinder<W> {
    /// Makes a binder that adds to these listeners.
    pub fn new(rt: W, listeners: Option<Arc<Listeners, Global>>) -> TcpBinder<W>
        ensures { result.faults ≡ 0 }
    {
        TcpBinder {
            rt,
            listeners,
            claimed: None,
            candidate: None,
            faults: 0,
        }
    }
}

impl<W: Wait + Drop> TcpBinder<W> {
    /// Gives back the claim to the port that was answered last.
    fn give_back(&mut self)
        ensures { self.new.faults ≡ self.old.faults }
    {
        if let (Some(listeners), Some(port)) = (&self.listeners, self.claimed.take()) {
            listeners.give_back(&self.rt, port);
        }
    }
}

/// Binds a port, or any free one if `port` is 0, unless it is bound already.
fn bind<W: Net<Listener = TcpListener, Stream = TcpStream> + Wait>(
    rt: &W,
    listeners: &Listeners,
    port: u16,
) -> Binding
    ensures { FitsPort port result }
{
    match listeners.bind(rt, port) {
        Ok(bound) if bound != 0 && (port == 0 || bound == port) => Binding::Bound(bound),
        _ => Binding::Failed,
    }
}

impl<W: Net<Listener = TcpListener, Stream = TcpStream> + Wait + Drop> Binder for TcpBinder<W> {
    ghost use Rattle.std.specs.Prelude.{None};

    ghost faults = { λ binder. binder.faults };

    ghost answered = { λ binder. None };

    ghost steady = { λ binder. ⊥ };

    /// The listener of the port that is answered is not closed before the next call.
    fn bind(&mut self, port: u16) -> Binding {
        self.give_back();
        let binding = match &self.listeners {
            Some(listeners) => bind(&self.rt, listeners, port),
            None => Binding::Failed,
        };
        match binding {
            Binding::Bound(port) => self.claimed = Some(port),
            Binding::Failed => self.faults = self.faults.saturating_add(1),
        }
        binding
    }

    fn candidate(&mut self) -> Option<u16> {
        self.give_back();
        self.candidate = match &self.listeners {
            Some(listeners) => listeners.choose(&self.rt),
            None => None,
        };
        match self.candidate {
            Some(candidate) => Some(candidate.port),
            None => None,
        }
    }

    fn close(&mut self, port: u16) {
        if let (Some(listeners), Some(candidate)) = (&self.listeners, self.candidate) {
            if candidate.port == port {
                listeners.close_unclaimed(&self.rt, candidate);
            }
        }
    }
}

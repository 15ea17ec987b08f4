//! A binder in memory that fails at the calls that a test chooses.

ghost use Rattle.std.specs.Prelude.{◌≡◌, ◌≢◌, [], Some, option_map};
ghost use Rattle.adb_outside.specs.Outside.{Counts, TellsOneMore};
ghost use Rattle.adb_binder.specs.Binder.{FitsPort, port_of, is_failed_bind};
ghost use Rattle.adb_binder.specs.Memory.{Binds, Noted, Offers};

use crate::binder::{Binder, Binding};
use adb_outside::{Answers, Failing};
use std::alloc::Global;
use std::marker::Model;

/// A binder that binds nothing. It shows its answers as long as it can allocate memory for them. A
/// call for which an allocation fails is a failed call, so `steady` never holds.
#[derive(Drop)]
pub struct MemoryBinder {
    next: Option<u16>,
    answered: Answers<(u16, u16)>,
    failing: Failing,
}

impl Model for MemoryBinder {
    ghost use Rattle.std.specs.Prelude.{◌≢◌, IfSome};
    ghost use Rattle.adb_binder.specs.Memory.{Bindings};

    ghost Value = { Bindings };

    ghost view = { λ binder. record {
      next = binder.next;
      answered = binder.answered;
      failing = binder.failing.failing;
      calls = binder.failing.calls;
      faults = binder.failing.faults;
    } };

    ghost invariant = { λ binder. IfSome binder.next (λ port. port ≢ 0) };
}

impl MemoryBinder {
    /// Returns a binder that answers `first`, and then one more each time, to calls that ask for
    /// any port, up to 65,535; after that such calls fail. It also fails at the calls listed in
    /// `failing` by number, counted from 1. Allocates nothing.
    pub fn new(alloc: Global, first: u16, failing: Vec<u64>) -> MemoryBinder
        requires { first ≢ 0 }
        ensures { result ≡ record {
          next = Some first;
          answered = Some [];
          failing = failing.items;
          calls = 0;
          faults = 0;
        } }
    {
        MemoryBinder {
            next: Some(first),
            answered: Answers::new(alloc),
            failing: Failing::new(failing),
        }
    }

    /// Returns the ports that were asked for and answered; `None` if an allocation for them has
    /// failed.
    pub fn answered(&self) -> Option<&[(u16, u16)]>
        ensures { option_map (λ list. list.now) result ≡ self.now.answered }
    {
        self.answered.list()
    }

    /// Returns the answer to a call that asks for a port, if it can be noted.
    fn offer(&mut self, port: u16) -> Binding
        ensures fits { FitsPort port result }
        ensures counts { Counts (λ binder. ⊥) (λ binder. binder.faults)
            self.old self.new (is_failed_bind result) }
        ensures offers { Offers self.old port result self.new }
    {
        if self.failing.fails() {
            return Binding::Failed;
        }
        let offered = if port == 0 { self.next } else { Some(port) };
        match offered {
            Some(port) => Binding::Bound(port),
            None => {
                self.failing.count_fault();
                Binding::Failed
            }
        }
    }

    /// Notes an answer. Returns `false` if the answers were shown so far and the allocation for
    /// this one fails.
    fn note(&mut self, port: u16, binding: Binding) -> bool
        ensures told { TellsOneMore self.old.answered (port, port_of binding) self.new.answered }
        ensures noted { Noted self.old.answered result self.new.answered }
        ensures same { self.new ≡ record self.old { answered = self.new.answered } }
    {
        let answered = match binding {
            Binding::Bound(port) => port,
            Binding::Failed => 0,
        };
        let told = self.answered.list().is_some();
        self.answered.note((port, answered)) || !told
    }
}

impl Binder for MemoryBinder {
    ghost faults = { λ binder. binder.faults };

    ghost answered = { λ binder. binder.answered };

    ghost steady = { λ binder. ⊥ };

    /// Fails at the listed calls, if any port is asked for and none is left, and if the allocation
    /// for the answer fails.
    fn bind(&mut self, port: u16) -> Binding
        ensures fits { FitsPort port result }
        ensures told { TellsOneMore self.old.answered (port, port_of result) self.new.answered }
        ensures counts { Counts (λ binder. ⊥) (λ binder. binder.faults)
            self.old self.new (is_failed_bind result) }
        ensures binds { Binds self.old port result self.new }
    {
        let binding = self.offer(port);
        if !self.note(port, binding) {
            if binding != Binding::Failed {
                self.failing.count_fault();
            }
            return Binding::Failed;
        }
        if let Binding::Bound(given) = binding {
            if port == 0 {
                self.next = given.checked_add(1);
            }
        }
        binding
    }
}

//! The calls of a fake that fail.

ghost use Rattle.std.specs.Prelude.{◌≡◌, ◌≤◌, [], IsTrue, ◌↔◌, Contains};
ghost use Rattle.adb_outside.specs.Outside.{Rises, Counts, counted, counted_on};

use std::marker::Model;

/// The calls of a fake that fail, the number of calls made, and the number that failed. Both counts
/// stay at their largest value.
#[derive(Drop)]
pub struct Failing {
    numbers: Vec<u64>,
    calls: u64,
    faults: u64,
}

impl Model for Failing {
    ghost use Rattle.adb_outside.specs.Memory.{Calls};

    ghost Value = { Calls };

    ghost view = { λ f. record { failing = f.numbers.items; calls = f.calls; faults = f.faults } };
}

impl Failing {
    /// Returns the state before the first call. The calls with these numbers, counted from 1, will
    /// fail. Allocates nothing.
    pub fn new(numbers: Vec<u64>) -> Failing
        ensures { result ≡ record { failing = numbers.items; calls = 0; faults = 0 } }
    {
        Failing {
            numbers,
            calls: 0,
            faults: 0,
        }
    }

    /// Counts a call, and returns whether it fails. A failure is counted too.
    pub fn fails(&mut self) -> bool
        ensures fails { IsTrue result ↔ Contains self.old.failing self.new.calls }
        ensures calls { self.new.calls ≡ counted_on self.old.calls }
        ensures faults { self.new.faults ≡ counted result self.old.faults }
        ensures counts { Counts (λ c. c.failing ≡ []) (λ c. c.faults) self.old self.new result }
        ensures same { self.new.failing ≡ self.old.failing }
    {
        self.calls = self.calls.saturating_add(1);
        let fails = self.numbers.contains(&self.calls);
        if fails {
            self.count_fault();
        }
        fails
    }

    /// Counts a fault of another cause.
    pub fn count_fault(&mut self)
        ensures is { self.new ≡ record self.old { faults = counted_on self.old.faults } }
        ensures count { self.old.faults ≤ self.new.faults }
        ensures rises { Rises self.old.faults self.new.faults }
    {
        self.faults = self.faults.saturating_add(1);
    }
}

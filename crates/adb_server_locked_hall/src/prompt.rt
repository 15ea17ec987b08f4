//! A handle that never waits.

use crate::locked_hall::LockedHall;
use adb_recorder::Recorder;
use adb_server_hall::{Arrival, Call, Hall, Section};
use adb_server_log::{DeskError, Marks, Pass};
use std::sync::Wait;
use std::sync::ledger::Ledger;

/// A handle of a desk under a lock that never waits: it returns `Later` or `Nothing` in place of a
/// wait.
#[derive(Drop)]
pub struct Prompt<R: Recorder, E: Ledger, M: Ledger, K: Marks, W: Wait + Copy + Drop> {
    /// The handle that would wait.
    pub hall: LockedHall<R, E, M, K, W>,
}

impl<R: Recorder, E: Ledger, M: Ledger, K: Marks, W: Wait + Copy + Drop> Hall
    for Prompt<R, E, M, K, W> {
    type Entries = E;

    type Moved = M;

    type Marks = K;

    ghost use Rattle.std.specs.Prelude.{None, false};

    ghost tells = { λ h. None };

    ghost waits = { false };

    ghost marked = { λ h. h.hall };

    fn run<A: Drop, S: Section<A>>(&mut self, pass: &mut Pass<E, M, K>, section: &S) -> A {
        let mut guard = self.hall.shared.locked.lock(&self.hall.rt);
        let answer = section.run(&mut guard.desk, pass);
        self.hall.shared.leave(guard);
        answer
    }

    fn ask<A: Drop, C: Call<A>>(&mut self, call: &C) -> A {
        self.hall.ask(call)
    }

    fn seat<C: Arrival>(
        &mut self,
        arrival: &C,
    ) -> Result<(Pass<E, M, K>, Pass<E, M, K>), DeskError> {
        self.hall.seat(arrival)
    }
}

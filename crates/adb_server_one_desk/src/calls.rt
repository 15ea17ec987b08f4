//! The sections that a hall of one thread runs.

use crate::one_desk::OneDesk;
use adb_recorder::Recorder;
use adb_server_hall::{Arrival, Call, Hall, Section, mark_handle};
use adb_server_log::{DeskError, Marks, Pass, marks_error};
use std::sync::ledger::Ledger;

impl<R: Recorder, E: Ledger, M: Ledger, K: Marks> Hall for OneDesk<R, E, M, K> {
    type Entries = E;

    type Moved = M;

    type Marks = K;

    ghost use Rattle.std.specs.Prelude.{Some, false};
    ghost use Rattle.adb_server_hall.specs.Telling.{telling_of};

    ghost tells = { λ h. Some (telling_of h.desk) };

    ghost waits = { false };

    ghost marked = { λ h. Some h.mark };

    fn run<A: Drop, S: Section<A>>(&mut self, pass: &mut Pass<E, M, K>, section: &S) -> A {
        section.run(&mut self.desk, pass)
    }

    fn ask<A: Drop, C: Call<A>>(&mut self, call: &C) -> A {
        let answer = call.run(&mut self.desk);
        let marked = call.is_marked(&answer);
        mark_handle(&mut self.desk, &mut self.mark, marked);
        answer
    }

    fn seat<C: Arrival>(
        &mut self,
        arrival: &C,
    ) -> Result<(Pass<E, M, K>, Pass<E, M, K>), DeskError> {
        let answer = arrival.run(&mut self.desk);
        mark_handle(&mut self.desk, &mut self.mark, marks_error(&answer));
        answer
    }
}

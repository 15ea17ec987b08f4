//! The sections that a locked hall runs, each while it holds the lock.

ghost use Rattle.std.specs.Prelude.{◌≡◌, true};
ghost use Rattle.adb_server_hall.specs.Passes.{or_marked};

use crate::locked_hall::LockedHall;
use adb_desk::Desk;
use adb_hub::{HubError, Owner};
use adb_recorder::Recorder;
use adb_server_bells::{Bells, Pair, Side};
use adb_server_hall::{Arrival, Awaits, Call, Hall, Section, mark_handle};
use adb_server_log::{DeskError, Mark, Marks, Pass, marks_error};
use std::sync::ledger::Ledger;
use std::sync::{Mutex, Wait};

impl<R: Recorder, E: Ledger, M: Ledger, K: Marks, W: Wait + Copy + Drop> Hall
    for LockedHall<R, E, M, K, W> {
    type Entries = E;

    type Moved = M;

    type Marks = K;

    ghost use Rattle.std.specs.Prelude.{None, true};

    ghost tells = { λ h. None };

    ghost waits = { true };

    ghost marked = { λ h. h };

    fn run<A: Drop, S: Section<A>>(&mut self, pass: &mut Pass<E, M, K>, section: &S) -> A {
        let mut guard = self.shared.locked.lock(&self.rt);
        for _ in self.rt.forever() {
            let answer = section.run(&mut guard.desk, pass);
            if section.is_idle(&answer) {
                let (owner, side) = sleeper(section.awaits(), pass.number());
                guard = self.shared.sleep(&self.rt, guard, owner, side);
            } else {
                self.shared.leave(guard);
                return answer;
            }
        }
        unreachable!()
    }

    fn ask<A: Drop, C: Call<A>>(&mut self, call: &C) -> A {
        let mut guard = self.shared.locked.lock(&self.rt);
        let locked = &mut *guard;
        let answer = call.run(&mut locked.desk);
        let marked = call.is_marked(&answer);
        mark_own(&mut locked.desk, &mut self.mark, marked);
        self.shared.leave(guard);
        answer
    }

    fn seat<C: Arrival>(
        &mut self,
        arrival: &C,
    ) -> Result<(Pass<E, M, K>, Pass<E, M, K>), DeskError> {
        let Ok(pair) = Pair::new(self.alloc) else {
            return Err(DeskError::Hub(HubError::OutOfMemory));
        };
        let mut guard = self.shared.locked.lock(&self.rt);
        let locked = &mut *guard;
        let answer = arrival.run(&mut locked.desk);
        mark_own(&mut locked.desk, &mut self.mark, marks_error(&answer));
        put_up(&mut locked.bells, owner_of(arrival, &answer), pair);
        self.shared.leave(guard);
        answer
    }
}

/// Returns the owner and the side of the pass that waits: for bytes that are due, or for room.
fn sleeper(awaits: Awaits, number: u32) -> (Owner, Side) {
    match awaits {
        Awaits::Output(half) => (half.owner(number), Side::Writer),
        Awaits::Room(half) => (half.owner(number), Side::Reader),
    }
}

/// Sets the mark of a handle, if it has one and the answer of its call is marked.
pub(crate) fn mark_own<R: Recorder, E: Ledger, M: Ledger, K: Marks>(
    desk: &mut Desk<R, E, M, K>,
    mark: &mut Option<Mark<K>>,
    marked: bool,
)
    requires { marked ≡ true → desk.old.log.alarm ≡ true }
    ensures mark { mark.new ≡ or_marked marked mark.old }
    ensures same { desk.new ≡ desk.old }
{
    if let Some(mark) = mark {
        mark_handle(desk, mark, marked);
    }
}

/// Adds the condition variables of the client or the device that came, or drops them if none came.
fn put_up(bells: &mut Bells, came: Option<Owner>, pair: Pair) {
    match came {
        Some(owner) => bells.put_up(owner, pair),
        None => drop(pair),
    }
}

/// Returns the client or the device that came, if the answer says that one did.
fn owner_of<E: Ledger, M: Ledger, K: Marks, C: Arrival>(
    arrival: &C,
    answer: &Result<(Pass<E, M, K>, Pass<E, M, K>), DeskError>,
) -> Option<Owner> {
    match answer {
        Ok((reading, _)) => Some(arrival.owner(reading.number())),
        Err(_) => None,
    }
}

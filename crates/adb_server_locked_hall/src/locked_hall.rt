//! Handles of a desk under a lock.

ghost use Rattle.std.specs.Prelude.{◌≡◌, ◌≢◌, [], IfOk, IfSome, None, Some, false, is_some};
ghost use Rattle.adb_server_log.specs.declared.error.DeskError.{DeskError};
ghost use Rattle.adb_server_log.specs.declared.marks.TheConstants.{ALL_PARTS};
ghost use Rattle.adb_server_log.specs.Log.{IsFresh, is_fault};
ghost use Rattle.adb_desk.specs.Left.{IsLeft};
ghost use Rattle.adb_server_hall.specs.Passes.{or_marked};

use crate::calls::mark_own;
use adb_desk::{Desk, Left};
use adb_hub::Owner;
use adb_recorder::Recorder;
use adb_server_bells::{Bells, Locked, Side};
use adb_server_hall::{Call, Over};
use adb_server_log::{ClientIn, ClientOut, DeskError, LinkIn, LinkOut, Mark, Marks, Pass};
use std::alloc::{AllocError, Global};
use std::marker::Model;
use std::sync::ledger::{Blank, Ledger};
use std::sync::{Arc, Condvar, Mutex, MutexGuard, Wait};

/// The state that all handles share.
#[derive(Drop)]
pub(crate) struct Shared<R: Recorder, E: Ledger, M: Ledger, K: Marks> {
    pub(crate) locked: Mutex<Locked<R, E, M, K>>,
    /// Shared condition variable for workers whose own could not be allocated.
    pub(crate) common: Condvar,
}

impl<R: Recorder, E: Ledger, M: Ledger, K: Marks> Shared<R, E, M, K> {
    /// Ends a section: releases the lock, and then notifies the workers that the section concerns.
    pub(crate) fn leave(&self, guard: MutexGuard<'_, Locked<R, E, M, K>>) {
        let mut guard = guard;
        let rings = guard.ring();
        drop(guard);
        rings.ring_rest(&self.common);
    }

    /// Releases the lock and sleeps until one pass of an owner is notified, or all are. Returns
    /// with the lock held.
    pub(crate) fn sleep<'a, W: Wait>(
        &'a self,
        rt: &W,
        guard: MutexGuard<'a, Locked<R, E, M, K>>,
        owner: Owner,
        side: Side,
    ) -> MutexGuard<'a, Locked<R, E, M, K>> {
        let mut guard = guard;
        match guard.bells.sleep(owner, side) {
            Some(bell) => bell.wait(rt, guard),
            None => self.common.wait(rt, guard),
        }
    }
}

/// A handle of a desk under a lock. Each worker owns one.
///
/// A call waits in place of returning `Later` or `Nothing`. Contracts see only the mark of the
/// handle, which only the handle of `new` has.
#[derive(Drop)]
pub struct LockedHall<R: Recorder, E: Ledger, M: Ledger, K: Marks, W: Wait + Copy + Drop> {
    pub(crate) rt: W,
    pub(crate) alloc: Global,
    pub(crate) shared: Arc<Shared<R, E, M, K>, Global>,
    pub(crate) mark: Option<Mark<K>>,
}

impl<R: Recorder, E: Ledger, M: Ledger, K: Marks, W: Wait + Copy + Drop> Model
    for LockedHall<R, E, M, K, W> {
    ghost use Rattle.std.specs.Prelude.{Bool, Option};

    ghost Value = { Option Bool };

    ghost view = { λ h. h.mark };
}

impl<R: Recorder, E: Ledger, M: Ledger, K: Marks, W: Wait + Copy + Drop> LockedHall<R, E, M, K, W> {
    /// Makes the first handle of a desk without entries, over a recorder that has kept nothing and
    /// has not failed.
    pub fn new(
        rt: W,
        alloc: Global,
        recorder: R,
        entries: Blank,
        moved: Blank,
        marks: Blank,
    ) -> Result<LockedHall<R, E, M, K, W>, AllocError>
        requires entries { (entries.name ≡ E.name) × (entries.parts ≡ E.parts)
            × (entries.parts ≡ ALL_PARTS) }
        requires moved { (moved.name ≡ M.name) × (moved.parts ≡ M.parts)
            × (moved.parts ≡ ALL_PARTS) }
        requires marks { (marks.name ≡ K.name) × (marks.parts ≡ K.parts)
            × (marks.parts ≡ ALL_PARTS) }
        requires fresh { (R.faults recorder ≡ 0) × IsFresh (R.told recorder) }
        requires stands { R.stands recorder [] }
        requires steady { K.steady → R.steady recorder }
        ensures { IfOk result (λ hall. hall ≡ Some false) }
    {
        let mut desk = Desk::new(alloc, recorder, entries, moved, marks);
        let mark = desk.lend();
        let locked = Locked {
            desk,
            bells: Bells::new(alloc),
            is_over: false,
        };
        let shared = Shared {
            locked: Mutex::new(locked),
            common: Condvar::new(),
        };
        Ok(LockedHall {
            rt,
            alloc,
            shared: Arc::new(alloc, shared)?,
            mark: Some(mark),
        })
    }

    /// Makes one more handle of the same desk.
    pub fn handle(&self) -> Result<LockedHall<R, E, M, K, W>, AllocError>
        ensures { IfOk result (λ hall. hall ≡ None) }
    {
        Ok(LockedHall {
            rt: self.rt,
            alloc: self.alloc,
            shared: Arc::try_clone(&self.shared)?,
            mark: None,
        })
    }

    /// Closes the desk if this is its last handle. Returns the answer with which the desk is shut,
    /// and its recorder, which has kept a legal history.
    ///
    /// `None`: there is another handle. Only this handle is dropped.
    pub fn close(self) -> Option<Left<R>>
        ensures left { IfSome result (λ left. IsLeft R.stands R.faults left) }
        ensures steady { K.steady → IfSome result (λ left. is_fault left.shut ≡ false) }
    {
        let LockedHall {
            rt: _,
            alloc: _,
            shared,
            mark: _,
        } = self;
        let Shared { locked, common: _ } = Arc::into_inner(shared)?;
        let Locked {
            desk,
            bells: _,
            is_over: _,
        } = locked.into_inner();
        Some(desk.close())
    }

    /// Takes back the pass of a client's reader, with its shares of the counts. Returns what `over`
    /// then returns.
    pub fn retire_client_in(&mut self, pass: ClientIn<E, M, K>) -> Option<DeskError>
        ensures steady { K.steady → result ≢ Some DeskError.RecordFault }
        ensures mark { self.new ≡ or_marked (is_some result) self.old }
    {
        self.retire(Owner::Client(pass.number()), pass.pass)
    }

    /// Takes back the pass of a client's writer, with its shares of the counts. Returns what `over`
    /// then returns.
    pub fn retire_client_out(&mut self, pass: ClientOut<E, M, K>) -> Option<DeskError>
        ensures steady { K.steady → result ≢ Some DeskError.RecordFault }
        ensures mark { self.new ≡ or_marked (is_some result) self.old }
    {
        self.retire(Owner::Client(pass.number()), pass.pass)
    }

    /// Takes back the pass of a device's reader, with its shares of the counts. Returns what `over`
    /// then returns.
    pub fn retire_link_in(&mut self, pass: LinkIn<E, M, K>) -> Option<DeskError>
        ensures steady { K.steady → result ≢ Some DeskError.RecordFault }
        ensures mark { self.new ≡ or_marked (is_some result) self.old }
    {
        self.retire(Owner::Link(pass.number()), pass.pass)
    }

    /// Takes back the pass of a device's writer, with its shares of the counts. Returns what `over`
    /// then returns.
    pub fn retire_link_out(&mut self, pass: LinkOut<E, M, K>) -> Option<DeskError>
        ensures steady { K.steady → result ≢ Some DeskError.RecordFault }
        ensures mark { self.new ≡ or_marked (is_some result) self.old }
    {
        self.retire(Owner::Link(pass.number()), pass.pass)
    }

    /// Returns how many entries were kept, or `None` while a pass is out.
    pub fn entries(&mut self) -> Option<u64>
        ensures { self.new ≡ self.old }
    {
        self.shared.locked.lock(&self.rt).desk.entries()
    }

    /// Returns how many bytes those entries moved, or `None` while a pass is out.
    pub fn moved(&mut self) -> Option<u64>
        ensures { self.new ≡ self.old }
    {
        self.shared.locked.lock(&self.rt).desk.moved()
    }

    /// Takes a pass back, and returns what `over` then returns, in one section.
    fn retire(&mut self, owner: Owner, pass: Pass<E, M, K>) -> Option<DeskError>
        ensures steady { K.steady → result ≢ Some DeskError.RecordFault }
        ensures mark { self.new ≡ or_marked (is_some result) self.old }
    {
        let mut guard = self.shared.locked.lock(&self.rt);
        let locked = &mut *guard;
        locked.desk.retire(pass);
        locked.bells.pass_back(owner);
        let answer = Over {}.run(&mut locked.desk);
        mark_own(&mut locked.desk, &mut self.mark, answer.is_some());
        answer
    }
}

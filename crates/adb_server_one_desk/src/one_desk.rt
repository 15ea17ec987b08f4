//! A hall over a desk of its own.

ghost use Rattle.std.specs.Prelude.{◌≡◌, ◌<◌, [], None, Some, false, nat_eq, if◌then◌else◌};
ghost use Rattle.adb_history.specs.Kept.{IsLawful};
ghost use Rattle.adb_server_log.specs.declared.marks.TheConstants.{ALL_PARTS};
ghost use Rattle.adb_server_log.specs.Log.{IsFresh, first_log, retired};
ghost use Rattle.adb_server_log.specs.Pass.{PassView};
ghost use Rattle.adb_desk.specs.Sound.{IsSound, TellsPromises};
ghost use Rattle.adb_server_one_desk.specs.OneDesk.{OneView};

use adb_desk::Desk;
use adb_recorder::Recorder;
use adb_server_log::{ClientIn, ClientOut, LinkIn, LinkOut, Mark, Marks, Pass};
use std::alloc::Global;
use std::marker::Model;
use std::sync::ledger::{Blank, Ledger};

/// A hall that never waits: it returns `Later` or `Nothing` in place of a wait. Contracts see the
/// view of its desk, and whether its handle is marked.
#[derive(Drop)]
pub struct OneDesk<R: Recorder, E: Ledger, M: Ledger, K: Marks> {
    pub(crate) desk: Desk<R, E, M, K>,
    pub(crate) mark: Mark<K>,
}

impl<R: Recorder, E: Ledger, M: Ledger, K: Marks> Model for OneDesk<R, E, M, K> {
    ghost use Rattle.adb_server_one_desk.specs.OneDesk.{OneView};

    ghost Value = { OneView };

    ghost view = { λ h. record { desk = h.desk; mark = h.mark } };
}

impl<R: Recorder, E: Ledger, M: Ledger, K: Marks> OneDesk<R, E, M, K> {
    /// Makes a hall without entries, over a recorder that has kept nothing and has not failed. It
    /// allocates nothing.
    pub fn new(
        alloc: Global,
        recorder: R,
        entries: Blank,
        moved: Blank,
        marks: Blank,
    ) -> OneDesk<R, E, M, K>
        requires entries { (entries.name ≡ E.name) × (entries.parts ≡ E.parts)
            × (entries.parts ≡ ALL_PARTS) }
        requires moved { (moved.name ≡ M.name) × (moved.parts ≡ M.parts)
            × (moved.parts ≡ ALL_PARTS) }
        requires marks { (marks.name ≡ K.name) × (marks.parts ≡ K.parts)
            × (marks.parts ≡ ALL_PARTS) }
        requires fresh { (R.faults recorder ≡ 0) × IsFresh (R.told recorder) }
        requires stands { R.stands recorder [] }
        requires steady { K.steady → R.steady recorder }
        ensures lawful { IsLawful result.desk.hub [] }
        ensures told { result.desk.log.told ≡ R.told recorder }
        ensures open { result.desk.log.shut ≡ None }
        ensures unmarked { result.mark ≡ false }
    {
        let mut desk = Desk::new(alloc, recorder, entries, moved, marks);
        let mark = desk.lend();
        OneDesk { desk, mark }
    }

    /// Proves that the entries of its recorder are a legal history, so they are fifo, have their
    /// causes and are answered; that the counts are its counts; and that the hub holds the state
    /// after that history unless the recorder refused an entry.
    pub fn law(&self)
        ensures sound { IsSound self.now.desk }
        ensures promises { TellsPromises self.now.desk.log.told }
    {
        self.desk.law();
    }

    /// Returns the recorder of the hall.
    pub fn recorder(&self) -> &R
        ensures { R.told result.now ≡ self.now.desk.log.told }
    {
        self.desk.recorder()
    }

    /// Takes back the pass of a client's reader, with its shares of the counts.
    pub fn retire_client_in(&mut self, pass: ClientIn<E, M, K>)
        ensures back { self.new ≡ record {
          desk = record { hub = self.old.desk.hub; log = retired self.old.desk.log pass.pass };
          mark = self.old.mark;
        } }
        ensures was_out { 0 < self.old.desk.log.out }
    {
        self.retire(pass.pass);
    }

    /// Takes back the pass of a client's writer, with its shares of the counts.
    pub fn retire_client_out(&mut self, pass: ClientOut<E, M, K>)
        ensures back { self.new ≡ record {
          desk = record { hub = self.old.desk.hub; log = retired self.old.desk.log pass.pass };
          mark = self.old.mark;
        } }
        ensures was_out { 0 < self.old.desk.log.out }
    {
        self.retire(pass.pass);
    }

    /// Takes back the pass of a device's reader, with its shares of the counts.
    pub fn retire_link_in(&mut self, pass: LinkIn<E, M, K>)
        ensures back { self.new ≡ record {
          desk = record { hub = self.old.desk.hub; log = retired self.old.desk.log pass.pass };
          mark = self.old.mark;
        } }
        ensures was_out { 0 < self.old.desk.log.out }
    {
        self.retire(pass.pass);
    }

    /// Takes back the pass of a device's writer, with its shares of the counts.
    pub fn retire_link_out(&mut self, pass: LinkOut<E, M, K>)
        ensures back { self.new ≡ record {
          desk = record { hub = self.old.desk.hub; log = retired self.old.desk.log pass.pass };
          mark = self.old.mark;
        } }
        ensures was_out { 0 < self.old.desk.log.out }
    {
        self.retire(pass.pass);
    }

    /// Returns how many entries were kept, or `None` while a pass is out.
    pub fn entries(&mut self) -> Option<u64>
        ensures count { result ≡ (if nat_eq self.old.desk.log.out 0
            then Some self.old.desk.log.entries else None) }
        ensures same { self.new ≡ self.old }
    {
        self.desk.entries()
    }

    /// Returns how many bytes those entries moved, or `None` while a pass is out.
    pub fn moved(&mut self) -> Option<u64>
        ensures count { result ≡ (if nat_eq self.old.desk.log.out 0
            then Some self.old.desk.log.moved else None) }
        ensures same { self.new ≡ self.old }
    {
        self.desk.moved()
    }

    /// Takes a pass back, with its shares of the counts.
    fn retire(&mut self, pass: Pass<E, M, K>)
        ensures back { self.new ≡ record {
          desk = record { hub = self.old.desk.hub; log = retired self.old.desk.log pass };
          mark = self.old.mark;
        } }
        ensures was_out { 0 < self.old.desk.log.out }
    {
        self.desk.retire(pass);
    }
}

//! The desk.

ghost use Rattle.std.specs.Prelude.{◌≡◌, ◌≢◌, [], false, Some, Err, is_some, is_none};
ghost use Rattle.adb_history.specs.Kept.{IsLawful};
ghost use Rattle.adb_server_log.specs.declared.error.DeskError.{DeskError};
ghost use Rattle.adb_server_log.specs.declared.marks.TheConstants.{ALL_PARTS};
ghost use Rattle.adb_server_log.specs.Log.{IsFresh, first_log, is_fault, or_given, shut_with};
ghost use Rattle.adb_server_log.specs.Marked.{marks_error};
ghost use Rattle.adb_desk.specs.Desk.{or_given_by, over_at, rung, summary_of};
ghost use Rattle.adb_desk.specs.Sound.{IsSound, TellsPromises};
ghost use Rattle.adb_desk.specs.Left.{IsLeft};

use adb_headline::{
    every_legal_history_has_causes, every_legal_history_is_answered, every_legal_history_is_fifo,
};
use adb_hub::{Hub, HubError, Summary};
use adb_laws_fifo_down::every_stream_keeps_its_window;
use adb_recorder::Recorder;
use adb_server_log::{DeskError, Log, Marks, is_marked};
use std::alloc::Global;
use std::marker::Model;
use std::sync::ledger::{Blank, Ledger};

/// The hub of a server with its recorder and its counts.
///
/// The entries that the recorder has kept are always a legal history, and the hub holds the state
/// after that history, unless the recorder refused an entry: the desk is then shut. A desk that is
/// shut returns the answer that first shut it to every later call, before every other answer.
///
/// Contracts see the state of the hub, the entries of the recorder, and the counts.
#[derive(Drop)]
pub struct Desk<R: Recorder, E: Ledger, M: Ledger, K: Marks> {
    pub(crate) alloc: Global,
    pub(crate) hub: Hub,
    pub(crate) log: Log<R, E, M, K>,
}

/// The parts of a closed desk.
#[derive(Drop)]
pub struct Left<R: Drop> {
    /// The answer with which the desk is shut.
    pub shut: Option<DeskError>,
    /// Its recorder, which has kept a legal history.
    pub recorder: R,
}

impl<R: Recorder, E: Ledger, M: Ledger, K: Marks> Model for Desk<R, E, M, K> {
    ghost use Rattle.adb_desk.specs.Desk.{DeskView};
    ghost use Rattle.adb_desk.specs.Sound.{IsRecorded};

    ghost Value = { DeskView };

    ghost view = { λ d. record { hub = d.hub; log = d.log.is } };

    ghost invariant = { λ d. IsRecorded R.stands d.log.recorder
        (record { hub = d.hub; log = d.log.is }) };
}

impl<R: Recorder, E: Ledger, M: Ledger, K: Marks> Desk<R, E, M, K> {
    /// Makes a desk without entries, over a recorder that has kept nothing and has not failed. It
    /// allocates nothing.
    pub fn new(
        alloc: Global,
        recorder: R,
        entries: Blank,
        moved: Blank,
        marks: Blank,
    ) -> Desk<R, E, M, K>
        requires entries { (entries.name ≡ E.name) × (entries.parts ≡ E.parts)
            × (entries.parts ≡ ALL_PARTS) }
        requires moved { (moved.name ≡ M.name) × (moved.parts ≡ M.parts)
            × (moved.parts ≡ ALL_PARTS) }
        requires marks { (marks.name ≡ K.name) × (marks.parts ≡ K.parts)
            × (marks.parts ≡ ALL_PARTS) }
        requires fresh { (R.faults recorder ≡ 0) × IsFresh (R.told recorder) }
        requires stands { R.stands recorder [] }
        requires steady { K.steady → R.steady recorder }
        ensures lawful { IsLawful result.hub [] }
        ensures log { result.log ≡ first_log (R.told recorder) }
    {
        Desk {
            alloc,
            hub: Hub::new(alloc),
            log: Log::new(recorder, entries, moved, marks),
        }
    }

    /// Returns the recorder of the desk.
    pub fn recorder(&self) -> &R
        ensures { R.told result.now ≡ self.now.log.told }
    {
        self.log.recorder()
    }

    /// Closes the desk. Returns the answer with which it is shut, and its recorder, which has kept
    /// a legal history: that history is fifo, has its causes and is answered.
    pub fn close(self) -> Left<R>
        ensures left { IsLeft R.stands R.faults result }
        ensures steady { K.steady → is_fault result.shut ≡ false }
    {
        every_legal_history_is_fifo();
        every_legal_history_has_causes();
        every_legal_history_is_answered();
        every_stream_keeps_its_window();
        let (shut, recorder) = self.log.close();
        Left { shut, recorder }
    }

    /// Proves the properties of every desk, which the desk under a lock has whenever the lock is
    /// free: the entries of its recorder are a legal history, so they are fifo, have their causes
    /// and are answered; the counts are its counts; the hub holds the state after that history
    /// unless the recorder refused an entry; and the hub holds no more bytes of any client than its
    /// limit.
    pub fn law(&self)
        ensures sound { IsSound self.now }
        ensures promises { TellsPromises self.now.log.told }
    {
        let _ = &self.log;
        every_legal_history_is_fifo();
        every_legal_history_has_causes();
        every_legal_history_is_answered();
        every_stream_keeps_its_window();
    }

    /// Returns the answer with which the desk is shut, or else `Hub(Stopped)` if a kill was made.
    /// It allocates nothing.
    pub fn over(&mut self) -> Option<DeskError>
        ensures answer { result ≡ over_at self.old }
        ensures rung { self.new ≡ rung (is_some result) self.old }
        ensures steady { K.steady → result ≢ Some DeskError.RecordFault }
    {
        let answer = match self.log.shut() {
            Some(error) => Some(error),
            None if self.hub.is_stopped() => Some(DeskError::Hub(HubError::Stopped)),
            None => None,
        };
        self.log.ring(answer.is_some());
        answer
    }

    /// Shuts the desk with `Halted`, unless it is shut.
    #[tactic(auto, using(crate::proofs::Staying::shut_halted))]
    pub fn halt(&mut self)
        ensures { self.new ≡ record {
          hub = self.old.hub;
          log = record self.old.log {
            shut = Some (or_given self.old.log.shut DeskError.Halted);
          };
        } }
    {
        self.log.halt();
    }

    /// Returns whether the desk is not shut.
    pub fn is_open(&self) -> bool
        ensures { result ≡ is_none (shut_with self.now.log) }
    {
        self.log.shut().is_none()
    }

    /// Returns whether a kill was made.
    pub fn is_stopped(&self) -> bool
        ensures { result ≡ self.now.hub.stopped }
    {
        self.hub.is_stopped()
    }

    /// Returns counts of what the hub holds.
    ///
    /// A desk that is shut returns the answer with which it was shut.
    pub fn summary(&mut self) -> Result<Summary, DeskError>
        ensures answer { result
            ≡ or_given_by (shut_with self.old.log) (summary_of self.old.hub) }
        ensures rung { self.new ≡ rung (marks_error result) self.old }
        ensures steady { K.steady → result ≢ Err DeskError.RecordFault }
    {
        match self.log.shut() {
            Some(error) => {
                self.log.ring(is_marked(&error));
                Err(error)
            }
            None => Ok(self.hub.summary()),
        }
    }
}

//! The recorder of a desk, with its counts, its alarm, and the answer with which it is shut.

ghost use Rattle.std.specs.Prelude.{◌≡◌, ◌≢◌, ◌<◌, ◌≤◌, ◌||◌, true, false, Some, None, Err, length};
ghost use Rattle.adb_capture.specs.declared.limits.TheConstants.{MAX_DATA};
ghost use Rattle.adb_capture.specs.Records.{HasRecord, came_from};
ghost use Rattle.adb_server_log.specs.declared.error.DeskError.{DeskError};
ghost use Rattle.adb_server_log.specs.declared.marks.TheConstants.{ALL_PARTS};
ghost use Rattle.adb_server_log.specs.Log.{first_log, shut_with, or_given, moves, draw_of};
ghost use Rattle.adb_server_log.specs.Log.{Keeps, HasKept, counting, fault_of, is_fault};

use crate::error::DeskError;
use crate::marks::Marks;
use adb_capture::{Entry, Owner};
use adb_hub::HubError;
use adb_recorder::{RecordError, Recorder};
use std::marker::Model;
use std::sync::ledger::{Blank, Book, Ledger, Share};

/// The largest count of moved bytes to which an entry is added. With a larger count the sum might
/// overflow.
const MAX_MOVED: u64 = u64::MAX - 4_194_303;

/// The recorder, the counts with their ledgers, and the shares that no pass holds.
///
/// Contracts see the recorder itself and the values that the log counts.
#[derive(Drop)]
pub struct Log<R: Recorder, E: Ledger, M: Ledger, K: Marks> {
    pub(crate) recorder: R,
    pub(crate) entries: u64,
    pub(crate) moved: u64,
    /// The number of passes that are out.
    pub(crate) out: u64,
    /// The number of passes that can still be made of the number that was drawn last.
    pub(crate) free: u64,
    /// The number that was drawn last.
    pub(crate) drawn: u32,
    /// Whether the mark of the first handle is lent.
    pub(crate) lent: bool,
    pub(crate) alarm: bool,
    pub(crate) shut: Option<DeskError>,
    pub(crate) entry_book: Book<E>,
    pub(crate) moved_book: Book<M>,
    pub(crate) mark_book: Book<K>,
    pub(crate) home_entries: Share<E>,
    pub(crate) home_moved: Share<M>,
    pub(crate) home_marks: Share<K>,
}

impl<R: Recorder, E: Ledger, M: Ledger, K: Marks> Model for Log<R, E, M, K> {
    ghost use Rattle.std.specs.Prelude.{◌≡◌, ◌+◌, ◌^◌, ◌<◌, ◌≤◌, true, false, if◌then◌else◌};
    ghost use Rattle.adb_server_log.specs.declared.marks.TheConstants.{ALL_PARTS};
    ghost use Rattle.adb_server_log.specs.Log.{LogOf, is_fault};

    ghost Value = { LogOf R };

    ghost view = { λ l. record {
      recorder = l.recorder;
      is = record {
        told = R.told l.recorder;
        faults = R.faults l.recorder;
        shut = l.shut;
        alarm = l.alarm;
        entries = l.entries;
        moved = l.moved;
        out = l.out;
        free = l.free;
        drawn = l.drawn;
        lent = l.lent;
        home_entries = l.home_entries.amount;
        home_moved = l.home_moved.amount;
      };
    } };

    ghost invariant = { λ l. (l.entry_book.total ≡ l.entries)
        × (l.moved_book.total ≡ l.moved)
        × (l.alarm ≡ false → l.mark_book.total ≡ 0)
        × (l.home_entries.parts + l.out ≡ ALL_PARTS)
        × (l.home_moved.parts + l.out ≡ ALL_PARTS)
        × (l.home_marks.parts + l.out + (if l.lent then 1 else 0) ≡ ALL_PARTS)
        × (l.out ≤ 2 ^ 34)
        × (E.parts ≡ ALL_PARTS) × (M.parts ≡ ALL_PARTS) × (K.parts ≡ ALL_PARTS)
        × (K.steady → R.steady l.recorder × (R.faults l.recorder ≡ 0))
        × (is_fault l.shut ≡ true → 0 < R.faults l.recorder)
        × (is_fault l.shut ≡ false → R.faults l.recorder ≡ 0) };
}

impl<R: Recorder, E: Ledger, M: Ledger, K: Marks> Log<R, E, M, K> {
    /// Returns a log without entries, over a recorder that has not failed.
    pub fn new(recorder: R, entries: Blank, moved: Blank, marks: Blank) -> Log<R, E, M, K>
        requires entries { (entries.name ≡ E.name) × (entries.parts ≡ E.parts)
            × (entries.parts ≡ ALL_PARTS) }
        requires moved { (moved.name ≡ M.name) × (moved.parts ≡ M.parts)
            × (moved.parts ≡ ALL_PARTS) }
        requires marks { (marks.name ≡ K.name) × (marks.parts ≡ K.parts)
            × (marks.parts ≡ ALL_PARTS) }
        requires fresh { R.faults recorder ≡ 0 }
        requires steady { K.steady → R.steady recorder }
        ensures { result ≡ record { recorder = recorder; is = first_log (R.told recorder) } }
    {
        let (entry_book, home_entries) = entries.open::<E>();
        let (moved_book, home_moved) = moved.open::<M>();
        let (mark_book, home_marks) = marks.open::<K>();
        Log {
            recorder,
            entries: 0,
            moved: 0,
            out: 0,
            free: 0,
            drawn: 0,
            lent: false,
            alarm: false,
            shut: None,
            entry_book,
            moved_book,
            mark_book,
            home_entries,
            home_moved,
            home_marks,
        }
    }

    /// Returns the recorder of the log.
    pub fn recorder(&self) -> &R
        ensures is { result.now ≡ self.now.recorder }
        ensures told { R.told result.now ≡ self.now.is.told }
        ensures faults { R.faults result.now ≡ self.now.is.faults }
    {
        &self.recorder
    }

    /// Returns the answer with which the log is shut, and its recorder. The recorder has failed
    /// exactly if that answer is `RecordFault`.
    pub fn close(self) -> (Option<DeskError>, R)
        ensures recorder { result.1 ≡ self.recorder }
        ensures failed { is_fault result.0 ≡ true → 0 < R.faults result.1 }
        ensures sound { is_fault result.0 ≡ false → R.faults result.1 ≡ 0 }
        ensures steady { K.steady → is_fault result.0 ≡ false }
    {
        (self.shut, self.recorder)
    }

    /// Returns the answer with which the log is shut, `Halted` if a count is full, and `None`
    /// otherwise. If the recorder never fails, the answer is not `RecordFault`.
    pub fn shut(&self) -> Option<DeskError>
        ensures shut { result ≡ shut_with self.now.is }
        ensures steady { K.steady → result ≢ Some DeskError.RecordFault }
    {
        match self.shut {
            Some(answer) => Some(answer),
            None if self.entries == u64::MAX || self.moved > MAX_MOVED => Some(DeskError::Halted),
            None => None,
        }
    }

    /// Keeps an entry, which moves `bytes` bytes, and counts it.
    ///
    /// - `RecordFault`: the recorder failed; the entry is not kept, and the log is shut.
    /// - `Hub(OutOfMemory)`: an allocation of the recorder failed; the entry is not kept, and the
    ///   log is shut.
    #[tactic(auto, using(crate::proofs::Open::open_is_sound))]
    pub fn keep(&mut self, entry: &Entry, bytes: usize) -> Result<(), DeskError>
        requires going { shut_with self.old.is ≡ None }
        requires form { HasRecord entry.now }
        requires bytes { (bytes ≡ moves entry.now) × (bytes ≤ MAX_DATA) }
        ensures keeps { Keeps self.old.is entry.now result self.new.is }
        ensures kept { HasKept R.stands self.old.recorder entry.now result self.new.recorder }
        ensures steady { K.steady → result ≢ Err DeskError.RecordFault }
    {
        match self.recorder.keep(entry) {
            Ok(()) => {
                self.count(draws(entry), bytes);
                Ok(())
            }
            Err(error) => {
                let answer = answer_of(error);
                self.shut = Some(answer);
                Err(answer)
            }
        }
    }

    /// Keeps an entry that moves no byte, as `keep` does.
    pub fn keep_still(&mut self, entry: Entry) -> Result<(), DeskError>
        requires going { shut_with self.old.is ≡ None }
        requires form { HasRecord entry }
        requires still { moves entry ≡ 0 }
        ensures keeps { Keeps self.old.is entry result self.new.is }
        ensures kept { HasKept R.stands self.old.recorder entry result self.new.recorder }
        ensures steady { K.steady → result ≢ Err DeskError.RecordFault }
    {
        self.keep(&entry, 0)
    }

    /// Keeps the entry of a piece that came from a client or a device, as `keep` does.
    #[tactic(auto, using(crate::proofs::Open::open_is_sound))]
    pub fn keep_piece(&mut self, from: Owner, piece: &[u8]) -> Result<(), DeskError>
        requires going { shut_with self.old.is ≡ None }
        requires bytes { length piece.now ≤ MAX_DATA }
        ensures keeps { Keeps self.old.is (came_from from piece.now) result self.new.is }
        ensures kept { HasKept R.stands self.old.recorder (came_from from piece.now) result
            self.new.recorder }
        ensures steady { K.steady → result ≢ Err DeskError.RecordFault }
    {
        match self.recorder.keep_piece(from, piece) {
            Ok(()) => {
                self.count(None, piece.len());
                Ok(())
            }
            Err(error) => {
                let answer = answer_of(error);
                self.shut = Some(answer);
                Err(answer)
            }
        }
    }

    /// Counts an entry in the shares that no pass holds.
    fn count(&mut self, draws: Option<u32>, bytes: usize)
        requires going { shut_with self.old.is ≡ None }
        requires bytes { bytes ≤ MAX_DATA }
        ensures { self.new ≡ record self.old { is = counting self.old.is draws bytes } }
    {
        self.entries += 1;
        self.moved += bytes as u64;
        if let Some(number) = draws {
            self.free = 2;
            self.drawn = number;
        }
        self.entry_book.add(&mut self.home_entries, 1);
        self.moved_book.add(&mut self.home_moved, bytes as u64);
    }

    /// Sets the alarm if an answer is marked.
    pub fn ring(&mut self, marked: bool)
        ensures { self.new
            ≡ record self.old { is = record self.old.is { alarm = self.old.is.alarm || marked } } }
    {
        self.alarm = self.alarm || marked;
    }

    /// Shuts the log with `Halted`, unless it is shut.
    pub fn halt(&mut self)
        ensures { self.new ≡ record self.old {
          is = record self.old.is {
            shut = Some (or_given self.old.is.shut DeskError.Halted);
          };
        } }
    {
        if self.shut.is_none() {
            self.shut = Some(DeskError::Halted);
        }
    }
}

/// Returns the answer of the log for this error of its recorder.
fn answer_of(error: RecordError) -> DeskError
    ensures { result ≡ fault_of error }
{
    match error {
        RecordError::Failed => DeskError::RecordFault,
        RecordError::OutOfMemory => DeskError::Hub(HubError::OutOfMemory),
    }
}

/// Returns the number that an entry draws.
fn draws(entry: &Entry) -> Option<u32>
    ensures { result ≡ draw_of entry.now }
{
    match entry {
        Entry::Join { client } | Entry::Enter { client, .. } => Some(*client),
        Entry::Attach { link, .. } => Some(*link),
        Entry::Read { .. }
        | Entry::End { .. }
        | Entry::Bound { .. }
        | Entry::Recv { .. }
        | Entry::Detach { .. }
        | Entry::Put { .. }
        | Entry::Send { .. } => None,
    }
}

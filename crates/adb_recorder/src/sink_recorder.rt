//! A recorder that writes each entry to a sink, as a capture.

ghost use Rattle.std.specs.Prelude.{◌≡◌, ◌≢◌, ◌<◌, ◌≤◌, ◌+◌, ◌^◌, ◌++◌, ℕ, List, [], length, Some, None, Err, true, false, OnOk};
ghost use Rattle.adb_outside.specs.Outside.{Counts, counted, counted_on};
ghost use Rattle.adb_outside.specs.Sink.{FitsPiece, TellsWrite, is_failed_write};
ghost use Rattle.adb_capture.specs.declared.entry.Entry.{Entry};
ghost use Rattle.adb_capture.specs.declared.limits.TheConstants.{MAX_DATA};
ghost use Rattle.adb_capture.specs.Records.{HasRecord, came_from, record_of};
ghost use Rattle.adb_recorder.specs.Recording.{TellsRecord, WritesRecord, HasWritten, kept_by, behind_magic, recorded, is_failed_record};

use crate::recorder::{RecordError, Recorder};
use adb_capture::{Entry, Head, MAGIC, Owner, Spelled, write_both, write_magic};
use adb_outside::{Sink, Wrote};
use std::marker::Model;
use std::snapshot::Snapshot;

/// A recorder that writes a capture to a sink: the magic before the first record, and then a record
/// for each entry. Without entries it writes nothing. It shows no entries and allocates nothing.
///
/// After a failed write a prefix of a record may be in the sink. No record can follow it, so from
/// then on the recorder writes nothing and every call fails: the sink holds a prefix of a capture.
#[derive(Drop)]
pub struct SinkRecorder<K: Sink + Drop> {
    first: Snapshot<K>,
    sink: K,
    opened: bool,
    faults: u64,
}

impl<K: Sink + Drop> Model for SinkRecorder<K> {
    ghost use Rattle.adb_recorder.specs.Recording.{SinkRecording};

    ghost Value = { SinkRecording K };

    ghost view = { λ r. record { first = r.first.value; sink = r.sink; opened = r.opened; faults = r.faults } };
}

impl<K: Sink + Drop> SinkRecorder<K> {
    /// Returns a recorder over a sink to which it has written nothing.
    pub fn new(sink: K) -> SinkRecorder<K>
        ensures is { result ≡ record { first = sink; sink = sink; opened = false; faults = 0 } }
        ensures stands { HasWritten K.written result [] }
    {
        let first = Snapshot::of(&sink);
        SinkRecorder {
            first,
            sink,
            opened: false,
            faults: 0,
        }
    }

    /// Returns the sink.
    pub fn sink(&self) -> &K
        ensures { result.now ≡ self.now.sink }
    {
        &self.sink
    }

    /// Returns the sink that the recorder owns.
    pub fn into_sink(self) -> K
        ensures { result ≡ self.sink }
    {
        self.sink
    }

    /// Writes a record, after the magic if this is the first one.
    fn write(&mut self, head: &[u8], text: &[u8]) -> Wrote
        requires some { 0 < length head.now }
        requires small { length head.now + length text.now < 2 ^ 62 }
        ensures fits { FitsPiece (behind_magic self.old.opened (head.now ++ text.now)) result }
        ensures told { TellsWrite (K.written self.old.sink) (K.written self.new.sink)
            (behind_magic self.old.opened (head.now ++ text.now)) result }
        ensures counts { Counts K.steady K.faults
            self.old.sink self.new.sink (is_failed_write result) }
        ensures opened { result ≡ Wrote.All → self.new.opened ≡ true }
        ensures faults { self.new.faults ≡ self.old.faults }
        ensures first { self.new.first ≡ self.old.first }
    {
        if self.opened {
            return write_both(&mut self.sink, head, text);
        }
        match write_magic(&mut self.sink) {
            Wrote::Failed { taken } => Wrote::Failed { taken },
            Wrote::All => {
                self.opened = true;
                match write_both(&mut self.sink, head, text) {
                    Wrote::All => Wrote::All,
                    Wrote::Failed { taken } => Wrote::Failed {
                        taken: MAGIC.len() + taken,
                    },
                }
            }
        }
    }

    /// Counts a fault.
    fn fail(&mut self) -> RecordError
        ensures failed { result ≡ RecordError.Failed }
        ensures is { self.new ≡ record self.old { faults = counted_on self.old.faults } }
    {
        self.faults = self.faults.saturating_add(1);
        RecordError::Failed
    }

    /// Writes a record, unless a write has failed.
    fn put(&mut self, head: &[u8], text: &[u8]) -> Result<(), RecordError>
        requires some { 0 < length head.now }
        requires small { length head.now + length text.now < 2 ^ 62 }
        ensures counts { Counts (λ r. (K.steady r.sink) × (r.faults ≡ 0)) (λ r. r.faults)
            self.old self.new (is_failed_record result) }
        ensures faults { self.new.faults ≡ counted (is_failed_record result) self.old.faults }
        ensures memory { result ≢ Err RecordError.OutOfMemory }
        ensures writes { (out : List ℕ) → self.old.faults ≡ 0 → K.written self.old.sink ≡ Some out
            → WritesRecord out (behind_magic self.old.opened (head.now ++ text.now))
            (K.written self.new.sink) result }
        ensures opened { OnOk result (self.new.opened ≡ true) }
        ensures sink { self.old.faults ≡ 0 → Counts K.steady K.faults
            self.old.sink self.new.sink (is_failed_record result) }
        ensures spent { 0 < self.old.faults
            → (result ≡ Err RecordError.Failed) × (self.new.sink ≡ self.old.sink) }
        ensures first { self.new.first ≡ self.old.first }
    {
        if self.faults > 0 {
            return Err(self.fail());
        }
        match self.write(head, text) {
            Wrote::All => Ok(()),
            Wrote::Failed { taken: _ } => Err(self.fail()),
        }
    }
}

impl<K: Sink + Drop> Recorder for SinkRecorder<K> {
    ghost use Rattle.std.specs.Prelude.{◌≡◌, None};
    ghost use Rattle.adb_recorder.specs.Recording.{HasWritten};

    ghost told = { λ r. None };

    ghost stands = { λ r kept. HasWritten K.written r kept };

    ghost faults = { λ r. r.faults };

    ghost steady = { λ r. (K.steady r.sink) × (r.faults ≡ 0) };

    /// Writes the record of the entry.
    ///
    /// `Failed`: a prefix of the record may have gone out. Each later call answers `Failed` and
    /// writes nothing.
    #[tactic(auto, using(crate::proofs::Recorded::goes_on))]
    fn keep(&mut self, entry: &Entry) -> Result<(), RecordError>
        requires { HasRecord entry.now }
        ensures told { TellsRecord None None entry.now result }
        ensures stands { (kept : List Entry) → HasWritten K.written self.old kept
            → HasWritten K.written self.new (kept_by kept entry.now result) }
        ensures counts { Counts (λ r. (K.steady r.sink) × (r.faults ≡ 0)) (λ r. r.faults)
            self.old self.new (is_failed_record result) }
        ensures faults { self.new.faults ≡ counted (is_failed_record result) self.old.faults }
        ensures memory { result ≢ Err RecordError.OutOfMemory }

        // Until a write fails: the record goes out, after the magic if it is the first one.
        ensures writes { (out : List ℕ) → self.old.faults ≡ 0 → K.written self.old.sink ≡ Some out
            → WritesRecord out (recorded self.old.opened entry.now)
            (K.written self.new.sink) result }
        ensures opened { OnOk result (self.new.opened ≡ true) }
        ensures first { self.new.first ≡ self.old.first }
        ensures sink { self.old.faults ≡ 0 → Counts K.steady K.faults
            self.old.sink self.new.sink (is_failed_record result) }

        // After a failed write nothing goes out.
        ensures spent { 0 < self.old.faults
            → (result ≡ Err RecordError.Failed) × (self.new.sink ≡ self.old.sink) }
    {
        let Spelled { head, rest } = Spelled::of(entry);
        self.put(head.as_slice(), rest)
    }

    /// Writes the record of the piece, as `keep` does. The piece is not copied.
    #[tactic(auto, using(crate::proofs::Recorded::goes_on))]
    fn keep_piece(&mut self, from: Owner, piece: &[u8]) -> Result<(), RecordError>
        requires { length piece.now ≤ MAX_DATA }
        ensures told { TellsRecord None None (came_from from piece.now) result }
        ensures stands { (kept : List Entry) → HasWritten K.written self.old kept
            → HasWritten K.written self.new (kept_by kept (came_from from piece.now) result) }
        ensures counts { Counts (λ r. (K.steady r.sink) × (r.faults ≡ 0)) (λ r. r.faults)
            self.old self.new (is_failed_record result) }
        ensures faults { self.new.faults ≡ counted (is_failed_record result) self.old.faults }
        ensures memory { result ≢ Err RecordError.OutOfMemory }

        // Until a write fails: the record goes out, after the magic if it is the first one.
        ensures writes { (out : List ℕ) → self.old.faults ≡ 0 → K.written self.old.sink ≡ Some out
            → WritesRecord out (recorded self.old.opened (came_from from piece.now))
            (K.written self.new.sink) result }
        ensures opened { OnOk result (self.new.opened ≡ true) }
        ensures first { self.new.first ≡ self.old.first }
        ensures sink { self.old.faults ≡ 0 → Counts K.steady K.faults
            self.old.sink self.new.sink (is_failed_record result) }

        // After a failed write nothing goes out.
        ensures spent { 0 < self.old.faults
            → (result ≡ Err RecordError.Failed) × (self.new.sink ≡ self.old.sink) }
    {
        let head = Head::of_piece(from, piece);
        self.put(head.as_slice(), piece)
    }
}

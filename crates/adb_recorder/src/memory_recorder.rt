//! A recorder in memory that fails at the calls that a test chooses.

ghost use Rattle.std.specs.Prelude.{◌≡◌, ◌≤◌, ◌↔◌, [], List, length, Some, Err, Contains};
ghost use Rattle.adb_outside.specs.Outside.{Counts, counted, counted_on};
ghost use Rattle.adb_capture.specs.declared.entry.Entry.{Entry};
ghost use Rattle.adb_capture.specs.declared.limits.TheConstants.{MAX_DATA};
ghost use Rattle.adb_capture.specs.Records.{HasRecord, came_from};
ghost use Rattle.adb_recorder.specs.Recording.{TellsRecord, kept_by, is_failed_record};

use crate::recorder::{RecordError, Recorder};
use adb_capture::{Entry, Owner};
use adb_outside::{Failing, Text};
use std::alloc::Global;
use std::marker::Model;

/// A recorder that keeps a copy of each entry in memory, and shows them.
#[derive(Drop)]
pub struct MemoryRecorder {
    alloc: Global,
    kept: Vec<Entry>,
    failing: Failing,
}

impl Model for MemoryRecorder {
    ghost use Rattle.adb_recorder.specs.Recording.{MemoryRecording};

    ghost Value = { MemoryRecording };

    ghost view = { λ r. record {
      told = r.kept.items;
      failing = r.failing.failing;
      calls = r.failing.calls;
      faults = r.failing.faults;
    } };
}

impl MemoryRecorder {
    /// Returns a recorder that fails at the calls listed in `failing` by number, counted from 1. It
    /// allocates nothing.
    pub fn new(alloc: Global, failing: Vec<u64>) -> MemoryRecorder
        ensures { result ≡ record { told = []; failing = failing.items; calls = 0; faults = 0 } }
    {
        MemoryRecorder {
            alloc,
            kept: Vec::new(alloc),
            failing: Failing::new(failing),
        }
    }

    /// Returns the entries that are kept, the oldest first.
    pub fn entries(&self) -> &[Entry]
        ensures { result.now ≡ self.now.told }
    {
        self.kept.as_slice()
    }
}

impl Recorder for MemoryRecorder {
    ghost use Rattle.std.specs.Prelude.{◌≡◌, [], Some};

    ghost told = { λ r. Some r.told };

    ghost stands = { λ r kept. r.told ≡ kept };

    ghost faults = { λ r. r.faults };

    ghost steady = { λ r. r.failing ≡ [] };

    /// Appends a copy of the entry. Fails at the listed calls.
    fn keep(&mut self, entry: &Entry) -> Result<(), RecordError>
        requires { HasRecord entry.now }
        ensures told { TellsRecord (Some self.old.told) (Some self.new.told) entry.now result }
        ensures stands { (kept : List Entry) → self.old.told ≡ kept
            → self.new.told ≡ kept_by kept entry.now result }
        ensures counts { Counts (λ r. r.failing ≡ []) (λ r. r.faults)
            self.old self.new (is_failed_record result) }
        ensures fails { (result ≡ Err RecordError.Failed) ↔ Contains self.old.failing self.new.calls }
        ensures calls { self.new.calls ≡ counted_on self.old.calls }
        ensures faults { self.new.faults ≡ counted (is_failed_record result) self.old.faults }
        ensures same { self.new.failing ≡ self.old.failing }
    {
        if self.failing.fails() {
            return Err(RecordError::Failed);
        }
        let copy = entry.copy()?;
        match self.kept.push(copy) {
            Ok(()) => Ok(()),
            Err(_full) => Err(RecordError::OutOfMemory),
        }
    }

    /// Appends a copy of the piece's entry. Fails at the listed calls.
    fn keep_piece(&mut self, from: Owner, piece: &[u8]) -> Result<(), RecordError>
        requires { length piece.now ≤ MAX_DATA }
        ensures told { TellsRecord (Some self.old.told) (Some self.new.told)
            (came_from from piece.now) result }
        ensures stands { (kept : List Entry) → self.old.told ≡ kept
            → self.new.told ≡ kept_by kept (came_from from piece.now) result }
        ensures counts { Counts (λ r. r.failing ≡ []) (λ r. r.faults)
            self.old self.new (is_failed_record result) }
        ensures fails { (result ≡ Err RecordError.Failed) ↔ Contains self.old.failing self.new.calls }
        ensures calls { self.new.calls ≡ counted_on self.old.calls }
        ensures faults { self.new.faults ≡ counted (is_failed_record result) self.old.faults }
        ensures same { self.new.failing ≡ self.old.failing }
    {
        if self.failing.fails() {
            return Err(RecordError::Failed);
        }
        let bytes = Text::from_slice(self.alloc, piece)?;
        match self.kept.push(Entry::came_from(from, bytes)) {
            Ok(()) => Ok(()),
            Err(_full) => Err(RecordError::OutOfMemory),
        }
    }
}

//! A recorder of entries that a test reads.

ghost use Rattle.std.specs.Prelude.{◌≡◌};
ghost use Rattle.adb_outside.specs.Outside.{Counts};
ghost use Rattle.adb_recorder.specs.Recording.{is_failed_record};

use crate::lines::lines_of;
use adb_capture::{Entry, Owner};
use adb_outside::Text;
use adb_recorder::{MemoryRecorder, RecordError, Recorder};
use std::alloc::{AllocError, Global};
use std::marker::Model;
use std::sync::{Arc, Mutex, Wait};

/// A handle of the entries that a recorder keeps. Any thread may read them.
#[derive(Drop)]
pub struct Kept<W: Wait + Copy + Drop> {
    rt: W,
    alloc: Global,
    recorder: Arc<Mutex<MemoryRecorder>, Global>,
}

impl<W: Wait + Copy + Drop> Kept<W> {
    /// Makes an empty store. `failing` lists the calls at which its recorder fails, by their
    /// numbers, counted from 1.
    pub fn new(rt: W, alloc: Global, failing: Vec<u64>) -> Result<Kept<W>, AllocError> {
        let recorder = MemoryRecorder::new(alloc, failing);
        Ok(Kept {
            rt,
            alloc,
            recorder: Arc::new(alloc, Mutex::new(recorder))?,
        })
    }

    /// Returns one more handle of the same store.
    pub fn handle(&self) -> Result<Kept<W>, AllocError> {
        Ok(Kept {
            rt: self.rt,
            alloc: self.alloc,
            recorder: Arc::try_clone(&self.recorder)?,
        })
    }

    /// Returns the entries that are kept, as `lines_of` writes them.
    pub fn lines(&self) -> Result<Text, AllocError> {
        lines_of(self.alloc, self.recorder.lock(&self.rt).entries())
    }
}

/// A recorder that keeps its entries in a store that a test reads. Contracts do not see the
/// entries; `Kept` shows them.
#[derive(Drop)]
pub struct SharedRecorder<W: Wait + Copy + Drop> {
    kept: Option<Kept<W>>,
    faults: u64,
}

impl<W: Wait + Copy + Drop> Model for SharedRecorder<W> {
    ghost use Rattle.std.specs.Prelude.{ℕ};

    ghost Value = { ℕ };

    ghost view = { λ recorder. recorder.faults };
}

impl<W: Wait + Copy + Drop> SharedRecorder<W> {
    /// Makes the recorder that keeps its entries in this store. Without a store each entry is an
    /// allocation failure.
    pub(crate) fn new(kept: Option<Kept<W>>) -> SharedRecorder<W>
        ensures { result ≡ 0 }
    {
        SharedRecorder { kept, faults: 0 }
    }

    /// Counts a fault, if the answer is one.
    fn count(&mut self, answer: Result<(), RecordError>) -> Result<(), RecordError>
        ensures same { result ≡ answer }
        ensures counts { Counts (λ faults. ⊥) (λ faults. faults)
            self.old self.new (is_failed_record result) }
    {
        if answer == Err(RecordError::Failed) {
            self.faults = self.faults.saturating_add(1);
        }
        answer
    }
}

impl<W: Wait + Copy + Drop> Recorder for SharedRecorder<W> {
    ghost use Rattle.std.specs.Prelude.{None};

    ghost told = { λ recorder. None };

    ghost stands = { λ recorder kept. Unit {0} };

    ghost faults = { λ recorder. recorder };

    ghost steady = { λ recorder. ⊥ };

    fn keep(&mut self, entry: &Entry) -> Result<(), RecordError> {
        let answer = match &self.kept {
            Some(kept) => kept.recorder.lock(&kept.rt).keep(entry),
            None => Err(RecordError::OutOfMemory),
        };
        self.count(answer)
    }

    fn keep_piece(&mut self, from: Owner, piece: &[u8]) -> Result<(), RecordError> {
        let answer = match &self.kept {
            Some(kept) => kept.recorder.lock(&kept.rt).keep_piece(from, piece),
            None => Err(RecordError::OutOfMemory),
        };
        self.count(answer)
    }
}

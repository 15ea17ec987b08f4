//! A source and a sink in memory that fail at the calls that a test chooses.

ghost use Rattle.std.specs.Prelude.{◌≡◌, ◌<◌, ◌≤◌, [], length, Some};
ghost use Rattle.adb_outside.specs.Outside.{Counts, Rises, counted_on};
ghost use Rattle.adb_outside.specs.Source.{FitsBuffer, TellsRead, is_failed_read};
ghost use Rattle.adb_outside.specs.Sink.{FitsPiece, TellsWrite, is_failed_write};
ghost use Rattle.adb_outside.specs.Memory.{ReadsMemory, WritesMemory};

use crate::failing::Failing;
use crate::sink::{Sink, Wrote};
use crate::source::{Got, Source};
use crate::supply::Supply;
use crate::text::Text;
use std::alloc::Global;
use std::marker::Model;

/// A source of the bytes of a text. It shows the bytes that are left.
#[derive(Drop)]
pub struct MemorySource {
    supply: Supply,
    failing: Failing,
}

impl Model for MemorySource {
    ghost use Rattle.adb_outside.specs.Memory.{MemoryInput};

    ghost Value = { MemoryInput };

    ghost view = { λ s. record {
      coming = s.supply.coming;
      piece = s.supply.piece;
      failing = s.failing.failing;
      calls = s.failing.calls;
      faults = s.failing.faults;
    } };
}

impl MemorySource {
    /// Returns a source that gives at most `piece` bytes a call and fails at the calls listed in
    /// `failing` by number, counted from 1. Allocates nothing.
    pub fn new(bytes: Text, piece: usize, failing: Vec<u64>) -> MemorySource
        requires { 1 ≤ piece }
        ensures { result ≡ record {
          coming = bytes;
          piece = piece;
          failing = failing.items;
          calls = 0;
          faults = 0;
        } }
    {
        MemorySource {
            supply: Supply::new(bytes, piece),
            failing: Failing::new(failing),
        }
    }

    /// Counts a fault of a call other than a read.
    pub fn count_fault(&mut self)
        ensures is { self.new ≡ record self.old { faults = counted_on self.old.faults } }
        ensures count { self.old.faults ≤ self.new.faults }
        ensures rises { Rises self.old.faults self.new.faults }
    {
        self.failing.count_fault();
    }
}

impl Source for MemorySource {
    ghost use Rattle.std.specs.Prelude.{◌≡◌, [], Some};

    ghost faults = { λ s. s.faults };

    ghost left = { λ s. Some s.coming };

    ghost steady = { λ s. s.failing ≡ [] };

    /// Fails at the listed calls. Otherwise gives as many bytes as allowed.
    fn read(&mut self, into: &mut [u8]) -> Got
        requires { 0 < length into.old }
        ensures fits { FitsBuffer into.old result }
        ensures told { TellsRead (Some self.old.coming) (Some self.new.coming) into.new result }
        ensures counts { Counts (λ s. s.failing ≡ []) (λ s. s.faults)
            self.old self.new (is_failed_read result) }
        ensures reads { ReadsMemory self.old self.new into.old result }
    {
        if self.failing.fails() {
            return Got::Failed;
        }
        self.supply.give(into)
    }
}

/// A sink that keeps the bytes and shows them. A write for which an allocation fails is a failed
/// write, so `steady` never holds.
#[derive(Drop)]
pub struct MemorySink {
    written: Vec<u8>,
    failing: Failing,
}

impl Model for MemorySink {
    ghost use Rattle.adb_outside.specs.Memory.{MemoryOutput};

    ghost Value = { MemoryOutput };

    ghost view = { λ s. record {
      out = s.written.items;
      failing = s.failing.failing;
      calls = s.failing.calls;
      faults = s.failing.faults;
    } };
}

impl MemorySink {
    /// Returns a sink that fails at the calls listed in `failing` by number, counted from 1; a
    /// failed write takes nothing. Allocates nothing.
    pub fn new(alloc: Global, failing: Vec<u64>) -> MemorySink
        ensures { result ≡ record { out = []; failing = failing.items; calls = 0; faults = 0 } }
    {
        MemorySink {
            written: Vec::new(alloc),
            failing: Failing::new(failing),
        }
    }

    /// Returns the bytes that were written.
    pub fn bytes(&self) -> &[u8]
        ensures { result.now ≡ self.now.out }
    {
        self.written.as_slice()
    }
}

impl Sink for MemorySink {
    ghost use Rattle.std.specs.Prelude.{Some};

    ghost faults = { λ s. s.faults };

    ghost written = { λ s. Some s.out };

    ghost steady = { λ s. ⊥ };

    /// Fails at the listed calls, and if an allocation fails. A failed write takes nothing.
    fn write(&mut self, piece: &[u8]) -> Wrote
        requires { 0 < length piece.now }
        ensures fits { FitsPiece piece.now result }
        ensures told { TellsWrite (Some self.old.out) (Some self.new.out) piece.now result }
        ensures counts { Counts (λ s. ⊥) (λ s. s.faults)
            self.old self.new (is_failed_write result) }
        ensures writes { WritesMemory self.old self.new result }
    {
        if self.failing.fails() {
            return Wrote::Failed { taken: 0 };
        }
        if self.written.extend_from_slice(piece).is_err() {
            self.failing.count_fault();
            return Wrote::Failed { taken: 0 };
        }
        Wrote::All
    }
}

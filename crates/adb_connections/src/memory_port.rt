//! A port in memory that fails at the calls that a test chooses.

ghost use Rattle.std.specs.Prelude.{◌≡◌, ◌<◌, ◌≤◌, true, false, [], length, Some};
ghost use Rattle.adb_outside.specs.Outside.{Counts};
ghost use Rattle.adb_outside.specs.Source.{FitsBuffer, TellsRead, is_failed_read};
ghost use Rattle.adb_outside.specs.Sink.{FitsPiece, TellsWrite, is_failed_write};
ghost use Rattle.adb_outside.specs.Memory.{ReadsMemory, WritesMemory};

use crate::port::{PortIn, PortOut};
use adb_outside::{Got, MemorySink, MemorySource, Sink, Source, Text, Wrote};
use std::alloc::Global;
use std::marker::Model;

/// A client that sends the bytes of a text. It shows the bytes that are left.
#[derive(Drop)]
pub struct MemoryIn {
    source: MemorySource,
}

impl Model for MemoryIn {
    ghost use Rattle.adb_outside.specs.Memory.{MemoryInput};

    ghost Value = { MemoryInput };

    ghost view = { λ port. port.source };
}

impl MemoryIn {
    /// Returns a client that sends at most `piece` bytes a call and fails at the calls listed in
    /// `failing` by number, counted from 1. Allocates nothing.
    pub fn new(bytes: Text, piece: usize, failing: Vec<u64>) -> MemoryIn
        requires { 1 ≤ piece }
        ensures { result ≡ record {
          coming = bytes;
          piece = piece;
          failing = failing.items;
          calls = 0;
          faults = 0;
        } }
    {
        MemoryIn {
            source: MemorySource::new(bytes, piece, failing),
        }
    }
}

impl PortIn for MemoryIn {
    ghost use Rattle.std.specs.Prelude.{◌≡◌, [], Some};

    ghost faults = { λ port. port.faults };

    ghost left = { λ port. Some port.coming };

    ghost steady = { λ port. port.failing ≡ [] };

    /// Fails at the listed calls. Otherwise gives as many bytes as allowed.
    fn read(&mut self, into: &mut [u8]) -> Got
        requires { 0 < length into.old }
        ensures fits { FitsBuffer into.old result }
        ensures told { TellsRead (Some self.old.coming) (Some self.new.coming) into.new result }
        ensures counts { Counts (λ port. port.failing ≡ []) (λ port. port.faults)
            self.old self.new (is_failed_read result) }
        ensures reads { ReadsMemory self.old self.new into.old result }
    {
        self.source.read(into)
    }
}

/// A client that keeps the bytes that it is sent, and whether it was closed, and shows both. A
/// write for which an allocation fails is a failed write, so `steady` never holds.
#[derive(Drop)]
pub struct MemoryOut {
    sink: MemorySink,
    closed: bool,
}

impl Model for MemoryOut {
    ghost use Rattle.adb_connections.specs.Memory.{MemoryClosing};

    ghost Value = { MemoryClosing };

    ghost view = { λ port. record { sink = port.sink; closed = port.closed } };
}

impl MemoryOut {
    /// Returns a client that fails at the writes listed in `failing` by number, counted from 1; a
    /// failed write takes nothing. Each part of a piece in two parts is a write of its own, unless
    /// it is empty. Allocates nothing.
    pub fn new(alloc: Global, failing: Vec<u64>) -> MemoryOut
        ensures sink { result.sink
            ≡ record { out = []; failing = failing.items; calls = 0; faults = 0 } }
        ensures closed { result.closed ≡ false }
    {
        MemoryOut {
            sink: MemorySink::new(alloc, failing),
            closed: false,
        }
    }

    /// Returns the bytes that were written.
    pub fn bytes(&self) -> &[u8]
        ensures { result.now ≡ self.now.sink.out }
    {
        self.sink.bytes()
    }

    /// Returns whether the client was closed.
    pub fn is_closed(&self) -> bool
        ensures { result ≡ self.now.closed }
    {
        self.closed
    }
}

impl PortOut for MemoryOut {
    ghost use Rattle.std.specs.Prelude.{Some};

    ghost faults = { λ port. port.sink.faults };

    ghost written = { λ port. Some port.sink.out };

    ghost closed = { λ port. port.closed };

    ghost steady = { λ port. ⊥ };

    /// Fails at the listed calls, and if an allocation fails. A failed write takes nothing. A
    /// closed port still takes writes as before.
    fn write(&mut self, piece: &[u8]) -> Wrote
        requires { 0 < length piece.now }
        ensures fits { FitsPiece piece.now result }
        ensures told { TellsWrite (Some self.old.sink.out) (Some self.new.sink.out)
            piece.now result }
        ensures counts { Counts (λ port. ⊥) (λ port. port.sink.faults)
            self.old self.new (is_failed_write result) }
        ensures closed { self.new.closed ≡ self.old.closed }
        ensures writes { WritesMemory self.old.sink self.new.sink result }
    {
        self.sink.write(piece)
    }

    fn close(&mut self)
        ensures { self.new ≡ record self.old { closed = true } }
    {
        self.closed = true;
    }
}

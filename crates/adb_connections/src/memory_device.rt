//! A device in memory that fails at the calls that a test chooses.

ghost use Rattle.std.specs.Prelude.{◌≡◌, ◌<◌, ◌≤◌, true, false, [], length, Some, option_map};
ghost use Rattle.adb_outside.specs.Outside.{Counts, TellsOneMore, counted};
ghost use Rattle.adb_outside.specs.Source.{FitsBuffer, TellsRead, is_failed_read};
ghost use Rattle.adb_outside.specs.Sink.{FitsPiece, TellsWrite, is_failed_write};
ghost use Rattle.adb_connections.specs.Device.{is_failed_plug};
ghost use Rattle.adb_outside.specs.Memory.{ReadsMemory, WritesMemory};
ghost use Rattle.adb_connections.specs.Memory.{IsSteadyDevice};

use crate::device::{DeviceIn, DeviceOut, Plug};
use crate::memory_port::MemoryOut;
use crate::port::PortOut;
use adb_outside::{Answers, Got, MemorySource, Source, Text, Wrote};
use std::alloc::Global;
use std::marker::Model;

/// A device that is plugged in as a test chooses and sends the bytes of a text. It shows the bytes
/// that are left, and its answers of `plug` as long as it can allocate memory for them.
#[derive(Drop)]
pub struct MemoryDeviceIn {
    plug: Plug,
    plugs: Answers<Plug>,
    source: MemorySource,
}

impl Model for MemoryDeviceIn {
    ghost use Rattle.adb_connections.specs.Memory.{MemoryPlugged};

    ghost Value = { MemoryPlugged };

    ghost view = { λ device. record {
      plug = device.plug;
      plugs = device.plugs;
      source = device.source;
    } };
}

impl MemoryDeviceIn {
    /// Returns a device that answers every `plug` with the argument `plug`, sends at most `piece`
    /// bytes a call, and fails at the reads listed in `failing` by number, counted from 1.
    /// Allocates nothing.
    pub fn new(
        alloc: Global,
        plug: Plug,
        bytes: Text,
        piece: usize,
        failing: Vec<u64>,
    ) -> MemoryDeviceIn
        requires { 1 ≤ piece }
        ensures plug { (result.plug ≡ plug) × (result.plugs ≡ Some []) }
        ensures source { result.source ≡ record {
          coming = bytes;
          piece = piece;
          failing = failing.items;
          calls = 0;
          faults = 0;
        } }
    {
        MemoryDeviceIn {
            plug,
            plugs: Answers::new(alloc),
            source: MemorySource::new(bytes, piece, failing),
        }
    }

    /// Returns the answers of `plug`; `None` if an allocation for them has failed.
    pub fn plugs(&self) -> Option<&[Plug]>
        ensures { option_map (λ list. list.now) result ≡ self.now.plugs }
    {
        self.plugs.list()
    }
}

impl DeviceIn for MemoryDeviceIn {
    ghost use Rattle.std.specs.Prelude.{Some};
    ghost use Rattle.adb_connections.specs.Memory.{IsSteadyDevice};

    ghost faults = { λ device. device.source.faults };

    ghost left = { λ device. Some device.source.coming };

    ghost plugs = { λ device. device.plugs };

    ghost steady = { IsSteadyDevice };

    /// Returns the answer that the device was made with.
    fn plug(&mut self) -> Plug
        ensures plugs { TellsOneMore self.old.plugs result self.new.plugs }
        ensures told { Some self.new.source.coming ≡ Some self.old.source.coming }
        ensures counts { Counts IsSteadyDevice (λ device. device.source.faults)
            self.old self.new (is_failed_plug result) }
        ensures given { result ≡ self.old.plug }
        ensures same { self.new.plug ≡ self.old.plug }
        ensures source { self.new.source ≡ record self.old.source {
          faults = counted (is_failed_plug result) self.old.source.faults;
        } }
    {
        let _ = self.plugs.note(self.plug);
        if self.plug == Plug::Failed {
            self.source.count_fault();
        }
        self.plug
    }

    /// Fails at the listed calls. Otherwise gives as many bytes as allowed.
    fn read(&mut self, into: &mut [u8]) -> Got
        requires { 0 < length into.old }
        ensures fits { FitsBuffer into.old result }
        ensures told { TellsRead (Some self.old.source.coming) (Some self.new.source.coming)
            into.new result }
        ensures counts { Counts IsSteadyDevice (λ device. device.source.faults)
            self.old self.new (is_failed_read result) }
        ensures plugs { self.new.plugs ≡ self.old.plugs }
        ensures same { self.new.plug ≡ self.old.plug }
        ensures reads { ReadsMemory self.old.source self.new.source into.old result }
    {
        self.source.read(into)
    }
}

/// A device that keeps the bytes that it is sent, and whether it was unplugged, and shows both. A
/// write for which an allocation fails is a failed write, so `steady` never holds.
#[derive(Drop)]
pub struct MemoryDeviceOut {
    port: MemoryOut,
}

impl Model for MemoryDeviceOut {
    ghost use Rattle.adb_connections.specs.Memory.{MemoryClosing};

    ghost Value = { MemoryClosing };

    ghost view = { λ device. device.port };
}

impl MemoryDeviceOut {
    /// Returns a device that fails at the writes listed in `failing` by number, counted from 1; a
    /// failed write takes nothing. Each part of a piece in two parts is a write of its own, unless
    /// it is empty. Allocates nothing.
    pub fn new(alloc: Global, failing: Vec<u64>) -> MemoryDeviceOut
        ensures sink { result.sink
            ≡ record { out = []; failing = failing.items; calls = 0; faults = 0 } }
        ensures closed { result.closed ≡ false }
    {
        MemoryDeviceOut {
            port: MemoryOut::new(alloc, failing),
        }
    }

    /// Returns the bytes that were written.
    pub fn bytes(&self) -> &[u8]
        ensures { result.now ≡ self.now.sink.out }
    {
        self.port.bytes()
    }

    /// Returns whether the device was unplugged.
    pub fn is_unplugged(&self) -> bool
        ensures { result ≡ self.now.closed }
    {
        self.port.is_closed()
    }
}

impl DeviceOut for MemoryDeviceOut {
    ghost use Rattle.std.specs.Prelude.{Some};

    ghost faults = { λ device. device.sink.faults };

    ghost written = { λ device. Some device.sink.out };

    ghost closed = { λ device. device.closed };

    ghost steady = { λ device. ⊥ };

    /// Fails at the listed calls, and if an allocation fails. A failed write takes nothing.
    fn write(&mut self, piece: &[u8]) -> Wrote
        requires { 0 < length piece.now }
        ensures fits { FitsPiece piece.now result }
        ensures told { TellsWrite (Some self.old.sink.out) (Some self.new.sink.out)
            piece.now result }
        ensures counts { Counts (λ device. ⊥) (λ device. device.sink.faults)
            self.old self.new (is_failed_write result) }
        ensures closed { self.new.closed ≡ self.old.closed }
        ensures writes { WritesMemory self.old.sink self.new.sink result }
    {
        self.port.write(piece)
    }

    fn unplug(&mut self)
        ensures { self.new ≡ record self.old { closed = true } }
    {
        self.port.close();
    }
}

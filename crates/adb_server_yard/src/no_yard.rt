//! The yard of a program that neither serves nor dials.

ghost use Rattle.std.specs.Prelude.{◌≡◌, true};
ghost use Rattle.adb_outside.specs.Outside.{Counts};

use crate::yard::{Dialled, Listening, PoolKind, Yard};
use adb_binder::MemoryBinder;
use adb_connections::{
    Came, Door, MemoryDeviceIn, MemoryDeviceOut, MemoryIn, MemoryOut, OpenGate, SilentBell,
};
use adb_recorder::NullRecorder;
use std::alloc::Global;

/// A closed door.
#[derive(Drop)]
pub struct NoDoor {}

impl Door for NoDoor {
    type In = MemoryIn;

    type Out = MemoryOut;

    type DeviceIn = MemoryDeviceIn;

    type DeviceOut = MemoryDeviceOut;

    ghost use Rattle.std.specs.Prelude.{None, ⊤};

    ghost faults = { λ door. 0 };

    ghost came = { λ door. None };

    ghost lasting = { λ door. ⊥ };

    ghost steady = { λ door. ⊤ };

    /// Returns `Closed`.
    fn accept(&mut self) -> Came<MemoryIn, MemoryOut, MemoryDeviceIn, MemoryDeviceOut> {
        Came::Closed
    }
}

/// The yard of a program that neither serves nor dials. `listen` and `dial` always fail.
#[derive(Drop)]
pub struct NoYard {
    alloc: Global,
    faults: u64,
}

impl NoYard {
    /// Returns a yard. It allocates nothing.
    pub fn new(alloc: Global) -> NoYard
        ensures { result.faults ≡ 0 }
    {
        NoYard { alloc, faults: 0 }
    }

    fn count_fault(&mut self)
        ensures counts { Counts (λ yard. ⊥) (λ yard. yard.faults) self.old self.new true }
    {
        self.faults = self.faults.saturating_add(1);
    }
}

impl Yard for NoYard {
    type Door = NoDoor;

    type Bell = SilentBell;

    type Keeper = NullRecorder;

    type Ports = MemoryBinder;

    type Gate = OpenGate;

    type DialIn = MemoryIn;

    type DialOut = MemoryOut;

    ghost use Rattle.std.specs.Prelude.{None, ⊤};

    ghost faults = { λ yard. yard.faults };

    ghost steady = { λ yard. ⊥ };

    ghost lasting = { λ yard. ⊤ };

    ghost answers = { λ yard. None };

    ghost here = { λ yard port. None };

    ghost records = { λ yard wanted. ⊤ };

    fn listen(&mut self, _port: u16) -> Listening<Self::Door, Self::Bell> {
        self.count_fault();
        Listening::Failed
    }

    fn recorder(&mut self, _wanted: bool) -> NullRecorder {
        NullRecorder::new()
    }

    fn pool_kind(&mut self) -> PoolKind {
        PoolKind::Inline {
            failing: Vec::new(self.alloc),
        }
    }

    fn ports(&mut self) -> MemoryBinder {
        MemoryBinder::new(self.alloc, 1, Vec::new(self.alloc))
    }

    fn gate(&mut self) -> OpenGate {
        OpenGate::new()
    }

    fn dial(&mut self, _port: u16) -> Dialled<MemoryIn, MemoryOut> {
        self.count_fault();
        Dialled::Failed
    }
}

//! A door, and its bell.

use crate::sent::SharedOut;
use adb_connections::{Bell, Came, Device, Door, MemoryDeviceIn, MemoryIn};
use adb_outside::Failing;
use std::alloc::{AllocError, Global};
use std::collections::VecDeque;
use std::marker::Model;
use std::sync::{Arc, Mutex, Wait};

/// A handle of a bell, which counts how often it was rung. Any thread may ring it.
#[derive(Drop)]
pub struct Rings<W: Wait + Copy + Drop> {
    rt: W,
    count: Arc<Mutex<u64>, Global>,
}

impl<W: Wait + Copy + Drop> Rings<W> {
    /// Makes a bell that was not rung.
    pub(crate) fn new(rt: W, alloc: Global) -> Result<Rings<W>, AllocError> {
        Ok(Rings {
            rt,
            count: Arc::new(alloc, Mutex::new(0u64))?,
        })
    }

    /// Returns one more handle of the same bell.
    pub(crate) fn handle(&self) -> Result<Rings<W>, AllocError> {
        Ok(Rings {
            rt: self.rt,
            count: Arc::try_clone(&self.count)?,
        })
    }

    /// Returns how often the bell was rung.
    fn count(&self) -> u64 {
        *self.count.lock(&self.rt)
    }
}

impl<W: Wait + Copy + Send + Sync + Drop + 'static> Bell for Rings<W> {
    fn ring(&self) {
        let mut count = self.count.lock(&self.rt);
        *count = count.saturating_add(1);
    }
}

/// A device that sends bytes from memory and shares with the test the bytes that it is sent.
pub type FakeDevice<W: Wait + Copy + Drop> = Device<MemoryDeviceIn, SharedOut<W>>;

/// A client or a device that comes.
#[derive(Drop)]
pub(crate) enum Coming<W: Wait + Copy + Drop> {
    Client(MemoryIn, SharedOut<W>),
    Device(FakeDevice<W>),
}

/// A door that accepts these clients and devices in order. It is closed after the last one, and
/// after its bell was rung. Contracts see only how often it failed.
#[derive(Drop)]
pub struct FakeDoor<W: Wait + Copy + Drop> {
    pub(crate) coming: VecDeque<Coming<W>>,
    pub(crate) rings: Rings<W>,
    pub(crate) failing: Failing,
}

impl<W: Wait + Copy + Drop> Model for FakeDoor<W> {
    ghost use Rattle.std.specs.Prelude.{ℕ};

    ghost Value = { ℕ };

    ghost view = { λ door. door.failing.faults };
}

impl<W: Wait + Copy + Send + Sync + Drop + 'static> Door for FakeDoor<W> {
    type In = MemoryIn;

    type Out = SharedOut<W>;

    type DeviceIn = MemoryDeviceIn;

    type DeviceOut = SharedOut<W>;

    ghost use Rattle.std.specs.Prelude.{None};

    ghost faults = { λ door. door };

    ghost came = { λ door. None };

    ghost lasting = { λ door. ⊥ };

    ghost steady = { λ door. ⊥ };

    fn accept(&mut self) -> Came<MemoryIn, SharedOut<W>, MemoryDeviceIn, SharedOut<W>> {
        if self.failing.fails() {
            return Came::Failed;
        }
        if self.rings.count() > 0 {
            return Came::Closed;
        }
        match self.coming.pop_front() {
            None => Came::Closed,
            Some(Coming::Client(input, output)) => Came::Port(input, output),
            Some(Coming::Device(device)) => Came::Device(device),
        }
    }
}

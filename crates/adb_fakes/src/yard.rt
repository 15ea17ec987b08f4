//! A yard whose objects fail at the calls that a test chooses.

ghost use Rattle.std.specs.Prelude.{◌≡◌, ◌≢◌, true};
ghost use Rattle.adb_fakes.specs.Fakes.{listening_port as port_of};
ghost use Rattle.adb_outside.specs.Outside.{Counts};

use crate::door::{Coming, FakeDevice, FakeDoor, Rings};
use crate::recorder::{Kept, SharedRecorder};
use crate::sent::{Sent, SharedOut};
use adb_binder::MemoryBinder;
use adb_connections::{MemoryIn, OpenGate};
use adb_outside::{Failing, Text};
use adb_server_yard::{Dialled, Listening, PoolKind, Yard};
use std::alloc::{AllocError, Global};
use std::collections::VecDeque;
use std::marker::Model;
use std::sync::Wait;

/// The maximum number of bytes that a connection of a yard in memory yields at once.
pub(crate) const PIECE: usize = 65_536;

/// The port to which the first forward of a client is bound if it asks for any.
const FIRST_PORT: u16 = 40_000;

/// The yard of a test. Its door accepts the clients of `call` and the devices of `deliver` in their
/// order, and is closed after them. A server that asks for any port listens on port 1. Its jobs run
/// within the calls that submit them.
///
/// Contracts see how often it failed: at `listen` if an allocation failed, and at each `dial`.
#[derive(Drop)]
pub struct FakeYard<W: Wait + Copy + Drop> {
    rt: W,
    alloc: Global,
    coming: VecDeque<Coming<W>>,
    kept: Kept<W>,
    rings: Rings<W>,
    accepts: Vec<u64>,
    spawns: Vec<u64>,
    faults: u64,
}

impl<W: Wait + Copy + Drop> Model for FakeYard<W> {
    ghost use Rattle.std.specs.Prelude.{ℕ};

    ghost Value = { ℕ };

    ghost view = { λ yard. yard.faults };
}

impl<W: Wait + Copy + Drop> FakeYard<W> {
    /// Returns a yard without clients, with the recorder of `kept`.
    ///
    /// `Err`: an allocation failed.
    pub fn new(rt: W, alloc: Global, kept: Kept<W>) -> Result<FakeYard<W>, AllocError> {
        Ok(FakeYard {
            rt,
            alloc,
            coming: VecDeque::new(alloc),
            kept,
            rings: Rings::new(rt, alloc)?,
            accepts: Vec::new(alloc),
            spawns: Vec::new(alloc),
            faults: 0,
        })
    }

    /// Makes the door fail at the calls with these numbers, counted from 1.
    pub fn fail_accepts(&mut self, calls: Vec<u64>) {
        self.accepts = calls;
    }

    /// Makes the submissions with these numbers, counted from 1, return their job without running
    /// it.
    pub fn fail_spawns(&mut self, calls: Vec<u64>) {
        self.spawns = calls;
    }

    /// Adds a client that sends these bytes. The lists name the reads and writes of its connection
    /// that fail, by their numbers, counted from 1. Returns a handle of the bytes that it is sent.
    ///
    /// `Err`: an allocation failed, and the client is not added.
    pub fn call(
        &mut self,
        bytes: &[u8],
        reads: Vec<u64>,
        writes: Vec<u64>,
    ) -> Result<Sent<W>, AllocError> {
        let sent = Sent::new(self.rt, self.alloc)?;
        let input = MemoryIn::new(Text::from_slice(self.alloc, bytes)?, PIECE, reads);
        let output = SharedOut::new(sent.handle()?, writes);
        self.coming.push_back(Coming::Client(input, output))?;
        Ok(sent)
    }

    /// Adds a device that comes through the door.
    ///
    /// `Err`: an allocation failed, and the device is not added.
    pub fn deliver(&mut self, device: FakeDevice<W>) -> Result<(), AllocError> {
        self.coming.push_back(Coming::Device(device))?;
        Ok(())
    }

    /// Returns the door of its clients and devices, or `None` if an allocation failed.
    fn open(&mut self) -> Option<FakeDoor<W>>
        ensures { self.new ≡ self.old }
    {
        let mut coming = VecDeque::new(self.alloc);
        std::mem::swap(&mut coming, &mut self.coming);
        Some(FakeDoor {
            coming,
            rings: self.rings.handle().ok()?,
            failing: Failing::new(moved_out(self.alloc, &mut self.accepts)),
        })
    }

    fn count_fault(&mut self)
        ensures { Counts (λ yard. ⊥) (λ yard. yard) self.old self.new true }
    {
        self.faults = self.faults.saturating_add(1);
    }
}

/// Returns the port on which a yard in memory listens for a requested port.
pub(crate) fn listening_port(asked: u16) -> u16
    ensures is { result ≡ port_of asked }
    ensures fits { (result ≢ 0) × (asked ≢ 0 → result ≡ asked) }
{
    if asked == 0 {
        return 1;
    }
    asked
}

/// Empties a list and returns its elements.
fn moved_out<T: Drop>(alloc: Global, list: &mut Vec<T>) -> Vec<T> {
    let mut all = Vec::new(alloc);
    std::mem::swap(&mut all, list);
    all
}

impl<W: Wait + Copy + Send + Sync + Drop + 'static> Yard for FakeYard<W> {
    type Door = FakeDoor<W>;

    type Bell = Rings<W>;

    type Keeper = SharedRecorder<W>;

    type Ports = MemoryBinder;

    type Gate = OpenGate;

    type DialIn = MemoryIn;

    type DialOut = SharedOut<W>;

    ghost use Rattle.std.specs.Prelude.{Some, None, ⊤};
    ghost use Rattle.adb_fakes.specs.Fakes.{listening_port};

    ghost faults = { λ yard. yard };

    ghost steady = { λ yard. ⊥ };

    ghost lasting = { λ yard. ⊥ };

    ghost answers = { λ yard. None };

    ghost here = { λ yard port. Some (listening_port port) };

    ghost records = { λ yard wanted. ⊤ };

    fn listen(&mut self, port: u16) -> Listening<FakeDoor<W>, Rings<W>> {
        if let (Some(door), Ok(bell)) = (self.open(), self.rings.handle()) {
            return Listening::Here(door, bell, listening_port(port));
        }
        self.count_fault();
        Listening::Failed
    }

    fn recorder(&mut self, _wanted: bool) -> SharedRecorder<W> {
        SharedRecorder::new(self.kept.handle().ok())
    }

    fn pool_kind(&mut self) -> PoolKind {
        PoolKind::Inline {
            failing: moved_out(self.alloc, &mut self.spawns),
        }
    }

    fn ports(&mut self) -> MemoryBinder {
        MemoryBinder::new(self.alloc, FIRST_PORT, Vec::new(self.alloc))
    }

    fn gate(&mut self) -> OpenGate {
        OpenGate::new()
    }

    fn dial(&mut self, _port: u16) -> Dialled<MemoryIn, SharedOut<W>> {
        self.count_fault();
        Dialled::Failed
    }
}

//! A server with a door that fails while a client is connected that sends nothing.

ghost use Rattle.std.specs.Prelude.{true};
ghost use Rattle.adb_outside.specs.Outside.{Counts};

use crate::clients::serve_clients;
use adb_binder::MemoryBinder;
use adb_connections::{
    Came, Door, MemoryDeviceIn, MemoryDeviceOut, MemoryIn, MemoryOut, OpenGate, PortIn, PortOut,
    SilentBell,
};
use adb_outside::{Failing, Got, MemorySink, Wrote};
use adb_recorder::NullRecorder;
use adb_server::Served;
use adb_server_yard::{Dialled, Listening, PoolKind, Yard};
use std::alloc::{AllocError, Global};
use std::marker::Model;
use std::sync::{Arc, Condvar, Mutex, Wait};
use std::thread::{Threads, sleep};
use std::time::{Clock, Duration};

/// A connection that carries no bytes.
#[derive(Drop)]
struct Line {
    closed: Mutex<bool>,
    changed: Condvar,
}

/// The read half of a silent connection. A read blocks until the other half is closed.
#[derive(Drop)]
struct SilentIn<W: Wait + Copy + Drop> {
    rt: W,
    line: Arc<Line, Global>,
}

impl<W: Wait + Copy + Drop> PortIn for SilentIn<W> {
    ghost use Rattle.std.specs.Prelude.{None};

    ghost faults = { λ port. 0 };

    ghost left = { λ port. None };

    ghost steady = { λ port. Unit {0} };

    fn read(&mut self, _into: &mut [u8]) -> Got {
        let closed = self.line.closed.lock(&self.rt);
        let _closed = self
            .line
            .changed
            .wait_while(&self.rt, closed, |closed| !*closed);
        Got::End
    }
}

/// The write half of a silent connection.
#[derive(Drop)]
struct SilentOut<W: Wait + Copy + Drop> {
    rt: W,
    line: Arc<Line, Global>,
    closed: bool,
}

impl<W: Wait + Copy + Drop> PortOut for SilentOut<W> {
    ghost use Rattle.std.specs.Prelude.{None};

    ghost faults = { λ port. 0 };

    ghost written = { λ port. None };

    ghost closed = { λ port. port.closed };

    ghost steady = { λ port. Unit {0} };

    fn write(&mut self, _piece: &[u8]) -> Wrote {
        Wrote::All
    }

    fn write_both(&mut self, _start: &[u8], _rest: &[u8]) -> Wrote {
        Wrote::All
    }

    fn close(&mut self) {
        self.closed = true;
        *self.line.closed.lock(&self.rt) = true;
        self.line.changed.notify_all();
    }
}

/// A door that accepts one silent client and fails at its second call, after 200 ms in which the
/// client's workers begin to wait.
#[derive(Drop)]
struct FailingDoor<W: Wait + Clock + Copy + Drop> {
    rt: W,
    next: Option<(SilentIn<W>, SilentOut<W>)>,
    failing: Failing,
}

impl<W: Wait + Clock + Copy + Drop> Model for FailingDoor<W> {
    ghost use Rattle.std.specs.Prelude.{ℕ};

    ghost Value = { ℕ };

    ghost view = { λ door. door.failing.faults };
}

impl<W: Wait + Clock + Copy + Send + Sync + Drop + 'static> Door for FailingDoor<W> {
    type In = SilentIn<W>;

    type Out = SilentOut<W>;

    type DeviceIn = MemoryDeviceIn;

    type DeviceOut = MemoryDeviceOut;

    ghost use Rattle.std.specs.Prelude.{None};

    ghost faults = { λ door. door };

    ghost came = { λ door. None };

    ghost lasting = { λ door. ⊥ };

    ghost steady = { λ door. ⊥ };

    fn accept(&mut self) -> Came<SilentIn<W>, SilentOut<W>, MemoryDeviceIn, MemoryDeviceOut> {
        if self.failing.fails() {
            sleep(&self.rt, Duration::from_millis(200));
            return Came::Failed;
        }
        match self.next.take() {
            Some((input, output)) => Came::Port(input, output),
            None => Came::Closed,
        }
    }
}

/// A yard with such a door. Its server runs its workers in threads and records nothing.
#[derive(Drop)]
struct FailingYard<W: Wait + Clock + Copy + Drop> {
    alloc: Global,
    door: Option<FailingDoor<W>>,
    faults: u64,
}

impl<W: Wait + Clock + Copy + Drop> Model for FailingYard<W> {
    ghost use Rattle.std.specs.Prelude.{ℕ};

    ghost Value = { ℕ };

    ghost view = { λ yard. yard.faults };
}

impl<W: Wait + Clock + Copy + Drop> FailingYard<W> {
    fn count_fault(&mut self)
        ensures { Counts (λ yard. ⊥) (λ yard. yard) self.old self.new true }
    {
        self.faults = self.faults.saturating_add(1);
    }
}

impl<W: Wait + Clock + Copy + Send + Sync + Drop + 'static> Yard for FailingYard<W> {
    type Door = FailingDoor<W>;

    type Bell = SilentBell;

    type Keeper = NullRecorder;

    type Ports = MemoryBinder;

    type Gate = OpenGate;

    type DialIn = MemoryIn;

    type DialOut = MemoryOut;

    ghost use Rattle.std.specs.Prelude.{None};

    ghost faults = { λ yard. yard };

    ghost steady = { λ yard. ⊥ };

    ghost lasting = { λ yard. ⊥ };

    ghost answers = { λ yard. None };

    ghost here = { λ yard port. None };

    ghost records = { λ yard wanted. Unit {0} };

    fn listen(&mut self, port: u16) -> Listening<FailingDoor<W>, SilentBell> {
        match self.door.take() {
            Some(door) => Listening::Here(door, SilentBell::new(), port.max(1)),
            None => {
                self.count_fault();
                Listening::Failed
            }
        }
    }

    fn recorder(&mut self, _wanted: bool) -> NullRecorder {
        NullRecorder::new()
    }

    fn pool_kind(&mut self) -> PoolKind {
        PoolKind::Threads
    }

    fn ports(&mut self) -> MemoryBinder {
        MemoryBinder::new(self.alloc, 40_000, Vec::new(self.alloc))
    }

    fn gate(&mut self) -> OpenGate {
        OpenGate::new()
    }

    fn dial(&mut self, _port: u16) -> Dialled<MemoryIn, MemoryOut> {
        self.count_fault();
        Dialled::Failed
    }
}

fn door<W: Wait + Clock + Copy + Drop>(
    rt: W,
    alloc: Global,
    line: &Arc<Line, Global>,
) -> Result<FailingDoor<W>, AllocError> {
    let input = SilentIn {
        rt,
        line: Arc::try_clone(line)?,
    };
    let output = SilentOut {
        rt,
        line: Arc::try_clone(line)?,
        closed: false,
    };
    Ok(FailingDoor {
        rt,
        next: Some((input, output)),
        failing: Failing::new(Vec::from_slice(alloc, &[2])?),
    })
}

/// Returns whether a fault of its door ends a server while a client is connected that sends
/// nothing, and the server has closed that connection.
pub fn a_halt_ends_a_server<W: Threads + Wait + Clock + Copy + Send + Sync + Drop + 'static>(
    rt: W,
    alloc: Global,
) -> Result<bool, AllocError> {
    let line = Arc::new(
        alloc,
        Line {
            closed: Mutex::new(false),
            changed: Condvar::new(),
        },
    )?;
    let yard = FailingYard {
        alloc,
        door: Some(door(rt, alloc, &line)?),
        faults: 0,
    };
    let mut note = MemorySink::new(alloc, Vec::new(alloc));
    let ended = serve_clients(rt, alloc, yard, false, &mut note);
    Ok(ended.served == Served::DoorFault && *line.closed.lock(&rt))
}

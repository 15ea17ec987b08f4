//! A server whose workers run in threads, with a gate that decides in which order its clients are
//! answered.

ghost use Rattle.std.specs.Prelude.{◌≡◌};

use crate::clients::{ASK_VERSION, KILL, KILLED, VERSION, serve_clients};
use adb_binder::MemoryBinder;
use adb_connections::{Gate, MemoryIn, Place};
use adb_fakes::{FakeDoor, FakeYard, Kept, Rings, Sent, SharedOut, SharedRecorder};
use adb_outside::MemorySink;
use adb_server::Served;
use adb_server_yard::{Dialled, Listening, PoolKind, Yard};
use std::alloc::{AllocError, Global};
use std::marker::Model;
use std::sync::atomic::{AtomicBool, Ordering};
use std::sync::{Arc, Wait};
use std::thread::{Threads, sleep};
use std::time::{Clock, Duration};

/// How often a gate looks whether it may open, once in 10 ms.
const TURNS: u32 = 500;

/// The ports of the first two clients, and whether a gate gave up.
#[derive(Drop)]
struct Watched<W: Wait + Copy + Drop> {
    first: Sent<W>,
    second: Sent<W>,
    gave_up: AtomicBool,
}

/// A gate that holds the reader of client 1 until client 2 has its answer, and the reader of client
/// 3 until client 1 has its answer. It gives up after 5 seconds.
#[derive(Drop)]
struct HoldingGate<W: Wait + Clock + Copy + Drop> {
    rt: W,
    watched: Option<Arc<Watched<W>, Global>>,
}

impl<W: Wait + Clock + Copy + Drop> Gate for HoldingGate<W> {
    fn pass(&self, place: u8, number: u32) {
        let Some(watched) = &self.watched else {
            return;
        };
        if place != Place::ClientReader as u8 {
            return;
        }
        match number {
            1 => self.hold(watched, &watched.second),
            3 => self.hold(watched, &watched.first),
            _ => {}
        }
    }
}

impl<W: Wait + Clock + Copy + Drop> HoldingGate<W> {
    /// Waits until a port holds the version.
    fn hold(&self, watched: &Watched<W>, port: &Sent<W>) {
        for _ in 0..TURNS {
            if port.holds(VERSION) {
                return;
            }
            sleep(&self.rt, Duration::from_millis(10));
        }
        watched.gave_up.store(true, Ordering::SeqCst);
    }
}

/// A yard that has the clients of a fake yard, such gates, and threads.
#[derive(Drop)]
struct GatedYard<W: Wait + Clock + Copy + Drop> {
    rt: W,
    yard: FakeYard<W>,
    watched: Arc<Watched<W>, Global>,
}

impl<W: Wait + Clock + Copy + Drop> Model for GatedYard<W> {
    ghost use Rattle.std.specs.Prelude.{ℕ};

    ghost Value = { ℕ };

    ghost view = { λ yard. yard.yard };
}

impl<W: Wait + Clock + Copy + Send + Sync + Drop + 'static> Yard for GatedYard<W> {
    type Door = FakeDoor<W>;

    type Bell = Rings<W>;

    type Keeper = SharedRecorder<W>;

    type Ports = MemoryBinder;

    type Gate = HoldingGate<W>;

    type DialIn = MemoryIn;

    type DialOut = SharedOut<W>;

    ghost use Rattle.std.specs.Prelude.{None, ⊤};

    ghost faults = { λ yard. yard };

    ghost steady = { λ yard. ⊥ };

    ghost lasting = { λ yard. ⊥ };

    ghost answers = { λ yard. None };

    ghost here = { λ yard port. None };

    ghost records = { λ yard wanted. ⊤ };

    fn listen(&mut self, port: u16) -> Listening<FakeDoor<W>, Rings<W>> {
        self.yard.listen(port)
    }

    fn recorder(&mut self, wanted: bool) -> SharedRecorder<W> {
        self.yard.recorder(wanted)
    }

    fn pool_kind(&mut self) -> PoolKind {
        PoolKind::Threads
    }

    fn ports(&mut self) -> MemoryBinder {
        self.yard.ports()
    }

    fn gate(&mut self) -> HoldingGate<W> {
        HoldingGate {
            rt: self.rt,
            watched: Arc::try_clone(&self.watched).ok(),
        }
    }

    fn dial(&mut self, port: u16) -> Dialled<MemoryIn, SharedOut<W>> {
        self.yard.dial(port)
    }
}

/// Adds a client to a yard.
fn call<W: Wait + Copy + Drop>(
    alloc: Global,
    yard: &mut FakeYard<W>,
    sends: &[u8],
) -> Result<Sent<W>, AllocError> {
    yard.call(sends, Vec::new(alloc), Vec::new(alloc))
}

/// Returns whether a server answers client 2 before client 1, and client 1 before the kill of
/// client 3, ends, and each port then holds its answer and is closed.
pub fn clients_are_served_at_once<W: Threads + Wait + Clock + Copy + Send + Sync + Drop + 'static>(
    rt: W,
    alloc: Global,
) -> Result<bool, AllocError> {
    let kept = Kept::new(rt, alloc, Vec::new(alloc))?;
    let mut yard = FakeYard::new(rt, alloc, kept)?;
    let first = call(alloc, &mut yard, ASK_VERSION)?;
    let second = call(alloc, &mut yard, ASK_VERSION)?;
    let third = call(alloc, &mut yard, KILL)?;
    let watched = Watched {
        first: first.handle()?,
        second: second.handle()?,
        gave_up: AtomicBool::new(false),
    };
    let watched = Arc::new(alloc, watched)?;
    let gated = GatedYard {
        rt,
        yard,
        watched: Arc::try_clone(&watched)?,
    };
    let mut note = MemorySink::new(alloc, Vec::new(alloc));
    let ended = serve_clients(rt, alloc, gated, true, &mut note);
    Ok(
        ended.served == Served::Done
            && !watched.gave_up.load(Ordering::SeqCst)
            && [(&first, VERSION), (&second, VERSION), (&third, KILLED)]
                .iter()
                .all(|(port, answer)| port.holds(answer) && port.is_closed()),
    )
}

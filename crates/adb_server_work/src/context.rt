//! The context of a worker: everything that it owns except its task.

use crate::parts::{HallOf, Parts};
use adb_connections::Bell;
use adb_server_log::DeskError;
use std::alloc::{AllocError, Global};
use std::sync::{Arc, Wait};

/// A handle of the bell of a door.
///
/// It has no bound about threads, unlike `Bell`: jobs run in calls that can't use such a bound.
pub trait Ringing: Drop {
    /// Makes the door return `Closed` from now on.
    fn ring(&self);

    /// Makes another handle of the same bell. `AllocError`: an allocation failed, and the bell is
    /// unchanged.
    fn handle(&self) -> Result<Self, AllocError>;
}

/// A shared handle of a `Bell`.
#[derive(Drop)]
pub struct BellHandle<B: Drop> {
    bell: Arc<B, Global>,
}

impl<B: Drop> BellHandle<B> {
    /// Makes the first handle of a bell. `AllocError`: an allocation failed, and the bell is
    /// dropped.
    pub fn new(alloc: Global, bell: B) -> Result<BellHandle<B>, AllocError> {
        Ok(BellHandle {
            bell: Arc::new(alloc, bell)?,
        })
    }
}

impl<B: Bell> Ringing for BellHandle<B> {
    fn ring(&self) {
        self.bell.ring();
    }

    fn handle(&self) -> Result<BellHandle<B>, AllocError> {
        Ok(BellHandle {
            bell: Arc::try_clone(&self.bell)?,
        })
    }
}

/// The context of one worker: its runtime, its handle of the hall, its gate and its handle of the
/// door's bell.
#[derive(Drop)]
pub struct Context<W: Wait + Copy + Drop, P: Parts> {
    pub rt: W,
    pub hall: HallOf<W, P>,
    pub gate: P::Gate,
    pub bell: P::Bell,
}

impl<W: Wait + Copy + Drop, P: Parts> Context<W, P> {
    /// Rings the bell of the door if `over`, the answer of the hall's `over`, says that no client
    /// can come any more: after a kill, and when the hall is shut.
    pub(crate) fn ring_if(&self, over: Option<DeskError>) {
        if over.is_some() {
            self.bell.ring();
        }
    }
}

/// The contexts of the two workers of a client or of a device. The server makes them before it
/// accepts a connection, so that it accepts no connection without the memory to serve it.
#[derive(Drop)]
pub struct Contexts<W: Wait + Copy + Drop, P: Parts> {
    pub reader: Context<W, P>,
    pub writer: Context<W, P>,
}

/// Makes the contexts of two workers, with a gate for each: first the reader's, then the writer's.
/// `AllocError`: an allocation failed, and the gates are dropped.
pub fn make_contexts<W: Wait + Copy + Drop, P: Parts>(
    rt: W,
    hall: &HallOf<W, P>,
    bell: &P::Bell,
    gates: (P::Gate, P::Gate),
) -> Result<Contexts<W, P>, AllocError> {
    let (reading, writing) = gates;
    Ok(Contexts {
        reader: make_context(rt, hall, bell, reading)?,
        writer: make_context(rt, hall, bell, writing)?,
    })
}

fn make_context<W: Wait + Copy + Drop, P: Parts>(
    rt: W,
    hall: &HallOf<W, P>,
    bell: &P::Bell,
    gate: P::Gate,
) -> Result<Context<W, P>, AllocError> {
    Ok(Context {
        rt,
        hall: hall.handle()?,
        gate,
        bell: bell.handle()?,
    })
}

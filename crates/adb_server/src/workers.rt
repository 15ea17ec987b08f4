//! The jobs of a server's clients and devices, and the threads that run them.

use crate::arriving::{Arrival, Linked};
use adb_binder::Binder;
use adb_connections::{Bell, DeviceIn, DeviceOut, Gate, PortIn, PortOut};
use adb_hub::Owner;
use adb_recorder::Recorder;
use adb_server_hall::Hall;
use adb_server_log::Marks;
use adb_server_work::{BellHandle, Contexts, HallOf, Parts, Ringing, Task, Work};
use adb_server_yard::PoolKind;
use adb_spawner::{Job, WorkerPool};
use std::alloc::{AllocError, Global};
use std::marker::PhantomData;
use std::sync::Wait;
use std::sync::ledger::Ledger;
use std::thread::Threads;

/// The parts of a server, with a type parameter for each. A function that starts threads names its
/// parts by this type, since the bounds of its own type parameters say that jobs are `Send`.
#[derive(Drop)]
pub(crate) struct Over<R, E, M, K, I, O, P, X, Z, G, B> {
    recorder: PhantomData<R>,
    entries: PhantomData<E>,
    moved: PhantomData<M>,
    marks: PhantomData<K>,
    client_in: PhantomData<I>,
    client_out: PhantomData<O>,
    binder: PhantomData<P>,
    device_in: PhantomData<X>,
    device_out: PhantomData<Z>,
    gate: PhantomData<G>,
    bell: PhantomData<B>,
}

impl<
    R: Recorder,
    E: Ledger,
    M: Ledger,
    K: Marks,
    I: PortIn + Drop + 'static,
    O: PortOut + Drop + 'static,
    P: Binder + Drop + 'static,
    X: DeviceIn + 'static,
    Z: DeviceOut + 'static,
    G: Gate + Drop + 'static,
    B: Ringing,
> Parts for Over<R, E, M, K, I, O, P, X, Z, G, B> {
    type Recorder = R;

    type Entries = E;

    type Moved = M;

    type Marks = K;

    type ClientIn = I;

    type ClientOut = O;

    type Binder = P;

    type DeviceIn = X;

    type DeviceOut = Z;

    type Gate = G;

    type Bell = B;
}

/// Makes jobs of workers, which are a `Work<W, P>`. A function over `P: Parts` can't show that
/// these are `Send`; an implementation of this trait shows it.
pub(crate) trait Jobs<T: Drop>: Drop {
    /// The job of one worker.
    type Job: Job + Send + Drop + 'static;

    /// Makes the job of a worker.
    fn job(&self, work: T) -> Self::Job;
}

/// Each worker is its own job, which may run in another thread.
#[derive(Drop)]
pub(crate) struct Workers {}

impl<
    W: Wait + Copy + Send + Sync + Drop + 'static,
    R: Recorder + Send + 'static,
    E: Ledger + Send + Sync + 'static,
    M: Ledger + Send + Sync + 'static,
    K: Marks + Send + Sync + 'static,
    I: PortIn + Send + Drop + 'static,
    O: PortOut + Send + Drop + 'static,
    P: Binder + Send + Drop + 'static,
    X: DeviceIn + Send + 'static,
    Z: DeviceOut + Send + 'static,
    G: Gate + Send + Drop + 'static,
    B: Bell,
> Jobs<Work<W, Over<R, E, M, K, I, O, P, X, Z, G, BellHandle<B>>>> for Workers {
    type Job = Work<W, Over<R, E, M, K, I, O, P, X, Z, G, BellHandle<B>>>;

    fn job(
        &self,
        work: Work<W, Over<R, E, M, K, I, O, P, X, Z, G, BellHandle<B>>>,
    ) -> Work<W, Over<R, E, M, K, I, O, P, X, Z, G, BellHandle<B>>> {
        work
    }
}

/// The jobs of a client's or a device's two workers, and the client or device that they serve.
#[derive(Drop)]
pub(crate) struct Pair<J: Drop> {
    owner: Owner,
    reader: J,
    writer: J,
}

/// Makes the jobs of a client. `binder` binds the ports of its forwards.
pub(crate) fn client_jobs<W: Wait + Copy + Drop, P: Parts, S: Jobs<Work<W, P>>>(
    jobs: &S,
    contexts: Contexts<W, P>,
    binder: P::Binder,
    arrival: Arrival<P>,
) -> Pair<S::Job> {
    let Arrival {
        input,
        output,
        reading,
        writing,
    } = arrival;
    Pair {
        owner: Owner::Client(reading.number()),
        reader: jobs.job(Work::ReadClient(Task {
            context: contexts.reader,
            pass: reading,
            port: input,
            aid: binder,
        })),
        writer: jobs.job(Work::WriteClient(Task {
            context: contexts.writer,
            pass: writing,
            port: output,
            aid: (),
        })),
    }
}

/// Makes the jobs of a device.
pub(crate) fn device_jobs<W: Wait + Copy + Drop, P: Parts, S: Jobs<Work<W, P>>>(
    jobs: &S,
    contexts: Contexts<W, P>,
    linked: Linked<P>,
) -> Pair<S::Job> {
    let Linked {
        device,
        packets,
        reading,
        writing,
    } = linked;
    Pair {
        owner: Owner::Link(reading.number()),
        reader: jobs.job(Work::ReadDevice(Task {
            context: contexts.reader,
            pass: reading,
            port: device.input,
            aid: packets,
        })),
        writer: jobs.job(Work::WriteDevice(Task {
            context: contexts.writer,
            pass: writing,
            port: device.output,
            aid: (),
        })),
    }
}

/// Makes the worker pool that a yard asks for. `AllocError`: an allocation failed, and there is no
/// pool.
pub(crate) fn pool_of<
    W: Threads + Wait + Copy + Send + Sync + Drop + 'static,
    J: Job + Send + Drop + 'static,
>(rt: W, alloc: Global, kind: PoolKind) -> Result<WorkerPool<W, J>, AllocError> {
    match kind {
        PoolKind::Threads => WorkerPool::threads(rt, alloc),
        PoolKind::Inline { failing } => Ok(WorkerPool::inline(failing)),
    }
}

/// Starts the two workers of a client or of a device.
///
/// If no thread can be started for the reader, its job is dropped and the hall records an End or a
/// Detach by NoThread, so that the writer closes the connection. If none can be started for the
/// writer, the hall records the same and this call runs the writer's job, which closes the
/// connection.
pub(crate) fn start<
    W: Threads + Wait + Copy + Send + Sync + Drop + 'static,
    J: Job + Send + Drop + 'static,
    P: Parts,
>(pool: &mut WorkerPool<W, J>, hall: &mut HallOf<W, P>, pair: Pair<J>) {
    let Pair {
        owner,
        reader,
        writer,
    } = pair;
    if let Err(job) = pool.spawn(reader) {
        let _ = hall.end_without_thread(owner, pool.no_thread());
        drop(job);
    }
    if let Err(job) = pool.spawn(writer) {
        let _ = hall.end_without_thread(owner, pool.no_thread());
        job.run();
    }
}

/// Starts the workers of devices, in the order of the list.
pub(crate) fn start_all<
    W: Threads + Wait + Copy + Send + Sync + Drop + 'static,
    J: Job + Send + Drop + 'static,
    P: Parts,
>(pool: &mut WorkerPool<W, J>, hall: &mut HallOf<W, P>, pairs: Vec<Pair<J>>) {
    for pair in pairs {
        start::<W, J, P>(pool, hall, pair);
    }
}

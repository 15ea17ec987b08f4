//! The accept loop: attaches devices, admits clients, and starts their workers.

ghost use Rattle.std.specs.Prelude.{◌≡◌, ◌≢◌, ◌<◌, ◌≤◌, Err, OnOk, vec_len, vec_capacity};
ghost use Rattle.adb_outside.specs.Outside.{Rises};
ghost use Rattle.adb_server.specs.Served.{HasClosed};

use crate::arriving::{Arrival, Comer, let_in, link_up};
use crate::refusals::{go_on, go_on_without};
use crate::server::Served;
use crate::workers::{Jobs, Pair, client_jobs, device_jobs, start, start_all};
use adb_connections::{DeviceOut, Door};
use adb_server_device_reader::Packets;
use adb_server_hall::Hall;
use adb_server_work::{Contexts, DeviceOf, HallOf, Parts, Work, make_contexts};
use adb_server_yard::Yard;
use adb_spawner::WorkerPool;
use std::alloc::{AllocError, Global};
use std::sync::Wait;
use std::thread::Threads;

/// The supplies from which the server makes workers: its runtime, its allocator, the bell of its
/// door, its maker of jobs, and its yard, which provides gates and binders.
#[derive(Drop)]
pub(crate) struct Supplies<W: Drop, B: Drop, S: Drop, Y: Drop> {
    pub(crate) rt: W,
    pub(crate) alloc: Global,
    pub(crate) bell: B,
    pub(crate) jobs: S,
    pub(crate) yard: Y,
}

/// Everything that the server allocates for a device before it attaches it: the contexts of its
/// workers and the reader of its packets.
#[derive(Drop)]
struct Provision<W: Wait + Copy + Drop, P: Parts> {
    contexts: Contexts<W, P>,
    packets: Packets,
}

/// Attaches the devices, starts their workers, and then accepts clients and devices until the door
/// is closed or fails, the hall is shut, or an allocation fails. It doesn't wait for the workers.
pub(crate) fn serve_all<
    W: Threads + Wait + Copy + Send + Sync + Drop + 'static,
    P: Parts,
    D: Door<In = P::ClientIn, Out = P::ClientOut, DeviceIn = P::DeviceIn, DeviceOut = P::DeviceOut>,
    Y: Yard<Ports = P::Binder, Gate = P::Gate>,
    S: Jobs<Work<W, P>>,
>(
    supplies: &mut Supplies<W, P::Bell, S, Y>,
    pool: &mut WorkerPool<W, S::Job>,
    hall: &mut HallOf<W, P>,
    door: &mut D,
    devices: Vec<DeviceOf<P>>,
) -> Served
    ensures record { P.Marks.steady → result ≢ Served.RecordFault }
    ensures door { D.steady door.old → result ≢ Served.DoorFault }
    ensures fault { result ≡ Served.DoorFault → Rises (D.faults door.old) (D.faults door.new) }
    ensures lasting { D.lasting door.old → result ≢ Served.Done }
    ensures closed { result ≡ Served.Done → HasClosed (D.came door.new) }
    ensures note { result ≢ Served.WriteFault }
{
    let mut plugged = Vec::new(supplies.alloc);
    let refused = plug_all::<W, P, Y, S>(supplies, hall, devices, &mut plugged);
    start_all::<W, S::Job, P>(pool, hall, plugged);
    match refused {
        Ok(()) => take_all::<W, P, D, Y, S>(supplies, pool, hall, door),
        Err(served) => served,
    }
}

/// Attaches devices in the order of the list and adds the jobs of each to `plugged`. After an
/// error, which is one of `plug`, the devices left are dropped.
fn plug_all<
    W: Wait + Copy + Drop,
    P: Parts,
    Y: Yard<Ports = P::Binder, Gate = P::Gate>,
    S: Jobs<Work<W, P>>,
>(
    supplies: &mut Supplies<W, P::Bell, S, Y>,
    hall: &mut HallOf<W, P>,
    devices: Vec<DeviceOf<P>>,
    plugged: &mut Vec<Pair<S::Job>>,
) -> Result<(), Served>
    ensures record { P.Marks.steady → result ≢ Err Served.RecordFault }
    ensures other { (result ≢ Err Served.DoorFault) × (result ≢ Err Served.Done)
        × (result ≢ Err Served.WriteFault) }
{
    for device in devices {
        plug::<W, P, Y, S>(supplies, hall, device, plugged)?;
    }
    Ok(())
}

/// Attaches a device and adds its jobs to `plugged`. A device that does not come, or that the hall
/// refuses, is unplugged.
///
/// - `RecordFault`: the recorder failed. The hall is shut, and the device is unplugged.
/// - `OutOfMemory`: an allocation failed. The hall is halted.
fn plug<
    W: Wait + Copy + Drop,
    P: Parts,
    Y: Yard<Ports = P::Binder, Gate = P::Gate>,
    S: Jobs<Work<W, P>>,
>(
    supplies: &mut Supplies<W, P::Bell, S, Y>,
    hall: &mut HallOf<W, P>,
    device: DeviceOf<P>,
    plugged: &mut Vec<Pair<S::Job>>,
) -> Result<(), Served>
    ensures record { P.Marks.steady → result ≢ Err Served.RecordFault }
    ensures other { (result ≢ Err Served.DoorFault) × (result ≢ Err Served.Done)
        × (result ≢ Err Served.WriteFault) }
{
    let Ok(provision) = provide::<W, P, Y, S>(supplies, &*hall, plugged) else {
        hall.halt();
        return Err(Served::OutOfMemory);
    };
    let Provision { contexts, packets } = provision;
    match link_up::<P, HallOf<W, P>>(hall, device, packets) {
        Ok(Some(linked)) => {
            plugged.push_reserved(device_jobs::<W, P, S>(&supplies.jobs, contexts, linked));
            Ok(())
        }
        Ok(None) => Ok(()),
        Err(error) => go_on::<P, HallOf<W, P>>(hall, error),
    }
}

/// Makes the provision of the next device, and reserves its place in `plugged`.
///
/// `AllocError`: an allocation failed, and `plugged` holds what it held.
fn provide<
    W: Wait + Copy + Drop,
    P: Parts,
    Y: Yard<Ports = P::Binder, Gate = P::Gate>,
    S: Jobs<Work<W, P>>,
>(
    supplies: &mut Supplies<W, P::Bell, S, Y>,
    hall: &HallOf<W, P>,
    plugged: &mut Vec<Pair<S::Job>>,
) -> Result<Provision<W, P>, AllocError>
    ensures room { OnOk result (vec_len plugged.new < vec_capacity plugged.new) }
{
    plugged.reserve(1)?;
    let packets = Packets::new(supplies.alloc)?;
    let gates = (supplies.yard.gate(), supplies.yard.gate());
    let contexts = make_contexts::<W, P>(supplies.rt, hall, &supplies.bell, gates)?;
    Ok(Provision { contexts, packets })
}

/// Accepts one client or device and starts its workers. A client or device that the hall refuses is
/// dropped.
///
/// - `Done`: the door reported that no more connections come.
/// - `DoorFault`: the door failed. The hall is halted.
/// - `RecordFault`: the recorder failed. The hall is shut.
/// - `OutOfMemory`: an allocation for the next comer, for a client or for the recorder failed. The
///   hall is shut.
fn take<
    W: Threads + Wait + Copy + Send + Sync + Drop + 'static,
    P: Parts,
    D: Door<In = P::ClientIn, Out = P::ClientOut, DeviceIn = P::DeviceIn, DeviceOut = P::DeviceOut>,
    Y: Yard<Ports = P::Binder, Gate = P::Gate>,
    S: Jobs<Work<W, P>>,
>(
    supplies: &mut Supplies<W, P::Bell, S, Y>,
    pool: &mut WorkerPool<W, S::Job>,
    hall: &mut HallOf<W, P>,
    door: &mut D,
) -> Result<(), Served>
    ensures record { P.Marks.steady → result ≢ Err Served.RecordFault }
    ensures door { D.steady door.old → (D.steady door.new) × (result ≢ Err Served.DoorFault) }
    ensures fault { result ≡ Err Served.DoorFault → Rises (D.faults door.old) (D.faults door.new) }
    ensures count { D.faults door.old ≤ D.faults door.new }
    ensures lasting { D.lasting door.old → (D.lasting door.new) × (result ≢ Err Served.Done) }
    ensures closed { result ≡ Err Served.Done → HasClosed (D.came door.new) }
    ensures note { result ≢ Err Served.WriteFault }
{
    let gates = (supplies.yard.gate(), supplies.yard.gate());
    let Ok(contexts) = make_contexts::<W, P>(supplies.rt, &*hall, &supplies.bell, gates) else {
        hall.halt();
        return Err(Served::OutOfMemory);
    };
    match let_in::<P, HallOf<W, P>, D>(hall, door)? {
        Some(Comer::Client(arrival)) => {
            serve_client::<W, P, Y, S>(supplies, pool, hall, contexts, arrival);
            Ok(())
        }
        Some(Comer::Device(device)) => {
            serve_device::<W, P, Y, S>(supplies, pool, hall, contexts, device)
        }
        None => Ok(()),
    }
}

/// Starts the workers of a client.
fn serve_client<
    W: Threads + Wait + Copy + Send + Sync + Drop + 'static,
    P: Parts,
    Y: Yard<Ports = P::Binder, Gate = P::Gate>,
    S: Jobs<Work<W, P>>,
>(
    supplies: &mut Supplies<W, P::Bell, S, Y>,
    pool: &mut WorkerPool<W, S::Job>,
    hall: &mut HallOf<W, P>,
    contexts: Contexts<W, P>,
    arrival: Arrival<P>,
) {
    let binder = supplies.yard.ports();
    let pair = client_jobs::<W, P, S>(&supplies.jobs, contexts, binder, arrival);
    start::<W, S::Job, P>(pool, hall, pair);
}

/// Attaches a device that came through the door and starts its workers. If an allocation for it
/// fails, or the hall refuses it, it is unplugged and dropped, and the server continues.
///
/// - `OutOfMemory`: an allocation of the recorder failed. The hall is shut, and the device is
///   unplugged.
/// - `RecordFault`: the recorder failed. The hall is shut, and the device is unplugged.
fn serve_device<
    W: Threads + Wait + Copy + Send + Sync + Drop + 'static,
    P: Parts,
    Y: Yard<Ports = P::Binder, Gate = P::Gate>,
    S: Jobs<Work<W, P>>,
>(
    supplies: &mut Supplies<W, P::Bell, S, Y>,
    pool: &mut WorkerPool<W, S::Job>,
    hall: &mut HallOf<W, P>,
    contexts: Contexts<W, P>,
    device: DeviceOf<P>,
) -> Result<(), Served>
    ensures record { P.Marks.steady → result ≢ Err Served.RecordFault }
    ensures other { (result ≢ Err Served.DoorFault) × (result ≢ Err Served.Done)
        × (result ≢ Err Served.WriteFault) }
{
    let mut device = device;
    let Ok(packets) = Packets::new(supplies.alloc) else {
        device.output.unplug();
        return Ok(());
    };
    match link_up::<P, HallOf<W, P>>(hall, device, packets) {
        Ok(Some(linked)) => {
            let pair = device_jobs::<W, P, S>(&supplies.jobs, contexts, linked);
            start::<W, S::Job, P>(pool, hall, pair);
            Ok(())
        }
        Ok(None) => Ok(()),
        Err(error) => go_on_without::<P, HallOf<W, P>>(hall, error),
    }
}

/// Accepts clients and devices until `take` returns an error, and returns it.
#[tactic(auto, using(crate::proofs::Rising::rises_since))]
fn take_all<
    W: Threads + Wait + Copy + Send + Sync + Drop + 'static,
    P: Parts,
    D: Door<In = P::ClientIn, Out = P::ClientOut, DeviceIn = P::DeviceIn, DeviceOut = P::DeviceOut>,
    Y: Yard<Ports = P::Binder, Gate = P::Gate>,
    S: Jobs<Work<W, P>>,
>(
    supplies: &mut Supplies<W, P::Bell, S, Y>,
    pool: &mut WorkerPool<W, S::Job>,
    hall: &mut HallOf<W, P>,
    door: &mut D,
) -> Served
    ensures record { P.Marks.steady → result ≢ Served.RecordFault }
    ensures door { D.steady door.old → result ≢ Served.DoorFault }
    ensures fault { result ≡ Served.DoorFault → Rises (D.faults door.old) (D.faults door.new) }
    ensures lasting { D.lasting door.old → result ≢ Served.Done }
    ensures closed { result ≡ Served.Done → HasClosed (D.came door.new) }
    ensures note { result ≢ Served.WriteFault }
{
    let rt = supplies.rt;
    for _ in rt.forever() {
        if let Err(served) = take::<W, P, D, Y, S>(supplies, pool, hall, door) {
            return served;
        }
    }
    unreachable!()
}

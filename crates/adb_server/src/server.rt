//! The server.

ghost use Rattle.std.specs.Prelude.{◌≡◌, ◌≢◌, []};
ghost use Rattle.adb_outside.specs.Outside.{Counts, Rises};
ghost use Rattle.adb_server_log.specs.declared.marks.TheConstants.{ALL_PARTS};
ghost use Rattle.adb_server_log.specs.Log.{IsFresh};
ghost use Rattle.adb_server.specs.Ended.{KeepsHistory};
ghost use Rattle.adb_server.specs.Served.{Announces, HasClosed, NamesPort, is_write_fault};

use crate::accepting::{Supplies, serve_all};
use crate::ending::{end_of, starved};
use crate::listening::announce;
use crate::workers::{Over, Workers, pool_of};
use adb_binder::Binder;
use adb_connections::{Bell, Device, DeviceIn, DeviceOut, Door, Gate, PortIn, PortOut};
use adb_outside::Sink;
use adb_recorder::Recorder;
use adb_server_locked_hall::LockedHall;
use adb_server_log::{ALL_PARTS, Marks};
use adb_server_work::BellHandle;
use adb_server_yard::{Listening, Yard, YardDevice};
use std::alloc::Global;
use std::marker::Brand;
use std::sync::Wait;
use std::sync::ledger::{Blank, Ledger};
use std::thread::Threads;

/// The way in which a server ended.
#[derive(Clone, Copy, Debug, PartialEq, Eq, Drop)]
pub enum Served {
    /// The door was closed, for example by a kill.
    Done,
    /// The line that names the port could not be written.
    WriteFault,
    /// An allocation failed.
    OutOfMemory,
    /// The recorder failed.
    RecordFault,
    /// Listening on the port failed, or the door failed.
    DoorFault,
}

/// The way in which a server ended, and its recorder.
#[derive(Drop)]
pub struct Ended<R: Drop> {
    pub served: Served,
    /// The recorder, if the server began to serve.
    pub recorder: Option<R>,
}

/// Listens on a port and serves: attaches the devices in their order, and then accepts clients and
/// devices until the door is closed or fails. A reader and a writer serve each device and each
/// client.
/// Before it serves, it writes to the note the port on which it listens. It returns after all
/// workers have returned.
///
/// A device that does not come, or that the hall refuses, is unplugged, and a client that the hall
/// refuses is dropped; the server continues. `wanted` says whether the history is recorded.
///
/// The server ended by:
///
/// - `Done`: the door was closed. The recorder kept the whole history.
/// - `WriteFault`: the line that names the port could not be written. Nothing was served.
/// - `OutOfMemory`: an allocation failed. If the recorder is returned, it kept the history until
///   then.
/// - `RecordFault`: the recorder failed, and kept the entries before that.
/// - `DoorFault`: listening on the port failed, or the door failed.
#[tactic(auto, using(crate::proofs::Announcing::served_there, crate::proofs::Announcing::no_write_fault, crate::proofs::Keeping::keeps_none))]
pub fn serve<W: Threads + Wait + Copy + Send + Sync + Drop + 'static, Y: Yard + 'static, N: Sink>(
    rt: W,
    alloc: Global,
    yard: Y,
    devices: Vec<YardDevice<Y>>,
    port: u16,
    wanted: bool,
    note: &mut N,
) -> Ended<Y::Keeper>
    requires records { Y.records yard wanted }
    ensures kept { KeepsHistory Y.Keeper.stands Y.Keeper.faults result.served result.recorder }
    ensures record { Y.steady yard → result.served ≢ Served.RecordFault }
    ensures door { Y.steady yard → result.served ≢ Served.DoorFault }
    ensures lasting { Y.lasting yard → result.served ≢ Served.Done }
    ensures announced { Announces port result.served
        (N.written note.old) (N.written note.new) }
    ensures here { NamesPort (Y.here yard port) result.served
        (N.written note.old) (N.written note.new) }
    ensures counts { Counts N.steady N.faults note.old note.new (is_write_fault result.served) }
{
    let mut yard = yard;
    let Listening::Here(mut door, bell, here) = yard.listen(port) else {
        return Ended {
            served: Served::DoorFault,
            recorder: None,
        };
    };
    if let Err(served) = announce(alloc, note, here) {
        return Ended {
            served,
            recorder: None,
        };
    }
    let recorder = yard.recorder(wanted);
    serve_at(rt, alloc, yard, &mut door, bell, recorder, devices)
}

/// Serves at a door with the bell `bell`, as `serve` does after it has listened.
pub fn serve_at<W: Threads + Wait + Copy + Send + Sync + Drop + 'static, Y: Yard + 'static>(
    rt: W,
    alloc: Global,
    yard: Y,
    door: &mut Y::Door,
    bell: Y::Bell,
    recorder: Y::Keeper,
    devices: Vec<YardDevice<Y>>,
) -> Ended<Y::Keeper>
    requires fresh { (Y.Keeper.faults recorder ≡ 0) × IsFresh (Y.Keeper.told recorder) }
    requires stands { Y.Keeper.stands recorder [] }
    ensures kept { KeepsHistory Y.Keeper.stands Y.Keeper.faults result.served result.recorder }
    ensures record { Y.Keeper.steady recorder → result.served ≢ Served.RecordFault }
    ensures door { Y.Door.steady door.old → result.served ≢ Served.DoorFault }
    ensures fault { result.served ≡ Served.DoorFault
        → Rises (Y.Door.faults door.old) (Y.Door.faults door.new) }
    ensures lasting { Y.Door.lasting door.old → result.served ≢ Served.Done }
    ensures closed { result.served ≡ Served.Done → HasClosed (Y.Door.came door.new) }
    ensures note { result.served ≢ Served.WriteFault }
{
    serve_with::<
        W,
        Y::Keeper,
        Brand,
        Brand,
        Brand,
        <Y::Door as Door>::In,
        <Y::Door as Door>::Out,
        Y::Ports,
        Y::Gate,
        Y::Bell,
        <Y::Door as Door>::DeviceIn,
        <Y::Door as Door>::DeviceOut,
        Y::Door,
        Y,
    >(
        rt,
        alloc,
        yard,
        door,
        bell,
        recorder,
        devices,
        Blank::new(ALL_PARTS),
        Blank::new(ALL_PARTS),
        Blank::new(ALL_PARTS),
    )
}

/// Serves at a door, over ledgers of its own. It starts the threads of the workers, so it has a
/// type parameter for each type that goes to them.
fn serve_with<
    W: Threads + Wait + Copy + Send + Sync + Drop + 'static,
    R: Recorder + Send + 'static,
    E: Ledger + Send + Sync + 'static,
    M: Ledger + Send + Sync + 'static,
    K: Marks + Send + Sync + 'static,
    I: PortIn + Send + Drop + 'static,
    O: PortOut + Send + Drop + 'static,
    P: Binder + Send + Drop + 'static,
    G: Gate + Send + Drop + 'static,
    B: Bell,
    X: DeviceIn + Send + 'static,
    Z: DeviceOut + Send + 'static,
    D: Door<In = I, Out = O, DeviceIn = X, DeviceOut = Z>,
    Y: Yard<Ports = P, Gate = G>,
>(
    rt: W,
    alloc: Global,
    yard: Y,
    door: &mut D,
    bell: B,
    recorder: R,
    devices: Vec<Device<X, Z>>,
    entries: Blank,
    moved: Blank,
    marks: Blank,
) -> Ended<R>
    requires entries { (entries.name ≡ E.name) × (entries.parts ≡ E.parts)
        × (entries.parts ≡ ALL_PARTS) }
    requires moved { (moved.name ≡ M.name) × (moved.parts ≡ M.parts)
        × (moved.parts ≡ ALL_PARTS) }
    requires marks { (marks.name ≡ K.name) × (marks.parts ≡ K.parts)
        × (marks.parts ≡ ALL_PARTS) }
    requires fresh { (R.faults recorder ≡ 0) × IsFresh (R.told recorder) }
    requires stands { R.stands recorder [] }
    requires steady { K.steady → R.steady recorder }
    ensures kept { KeepsHistory R.stands R.faults result.served result.recorder }
    ensures record { K.steady → result.served ≢ Served.RecordFault }
    ensures door { D.steady door.old → result.served ≢ Served.DoorFault }
    ensures fault { result.served ≡ Served.DoorFault
        → Rises (D.faults door.old) (D.faults door.new) }
    ensures lasting { D.lasting door.old → result.served ≢ Served.Done }
    ensures closed { result.served ≡ Served.Done → HasClosed (D.came door.new) }
    ensures note { result.served ≢ Served.WriteFault }
{
    let mut yard = yard;
    let Ok(bell) = BellHandle::new(alloc, bell) else {
        return starved();
    };
    let Ok(mut pool) = pool_of(rt, alloc, yard.pool_kind()) else {
        return starved();
    };
    let hall = LockedHall::<R, E, M, K, W>::new(rt, alloc, recorder, entries, moved, marks);
    let Ok(mut hall) = hall else {
        return starved();
    };
    let mut supplies = Supplies {
        rt,
        alloc,
        bell,
        jobs: Workers {},
        yard,
    };
    let served = serve_all::<W, Over<R, E, M, K, I, O, P, X, Z, G, BellHandle<B>>, D, Y, Workers>(
        &mut supplies,
        &mut pool,
        &mut hall,
        door,
        devices,
    );
    pool.finish();
    end_of(served, hall.close())
}

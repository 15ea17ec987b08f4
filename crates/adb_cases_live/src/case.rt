//! The cases, in the order in which they run.

use crate::{
    binder, calm, connections, deliveries, gated, halting, pipes, ports, recording, served,
    spawner, streams, tools, workers, yard,
};
use std::alloc::{AllocError, Global};
use std::net::{Net, TcpListener, TcpStream};
use std::sync::Wait;
use std::thread::Threads;
use std::time::Clock;

#[derive(Clone, Copy, Debug, Drop)]
pub enum Case {
    DevicesAreUnplugged,
    DevicesArePlugged,
    PlacesHaveNumbers,
    BindersGiveWhatIsAsked,
    PortsAreOpened,
    APoolRunsJobs,
    PipesEnd,
    PipesAreLost,
    PipesRefuse,
    AServerEndsAsTold,
    PortsAreServedInOrder,
    ADeliveredDeviceIsAttached,
    ClientsAreServedAtOnce,
    ACalmServerIsDone,
    ToolsAskAndTell,
    WorkersMakeTheirEntries,
    AHaltEndsAServer,
    ReadsStopShort,
    WritesStopShort,
    AYardGivesWhatItIsAsked,
    ARecordIsWritten,
}

pub const CASES: &[Case] = &[
    Case::DevicesAreUnplugged,
    Case::DevicesArePlugged,
    Case::PlacesHaveNumbers,
    Case::BindersGiveWhatIsAsked,
    Case::PortsAreOpened,
    Case::APoolRunsJobs,
    Case::PipesEnd,
    Case::PipesAreLost,
    Case::PipesRefuse,
    Case::AServerEndsAsTold,
    Case::PortsAreServedInOrder,
    Case::ADeliveredDeviceIsAttached,
    Case::ClientsAreServedAtOnce,
    Case::ACalmServerIsDone,
    Case::ToolsAskAndTell,
    Case::WorkersMakeTheirEntries,
    Case::AHaltEndsAServer,
    Case::ReadsStopShort,
    Case::WritesStopShort,
    Case::AYardGivesWhatItIsAsked,
    Case::ARecordIsWritten,
];

/// Returns the index of the row that does not hold, for a case with one row.
fn fault_of(holds: bool) -> Option<usize> {
    if holds { None } else { Some(0) }
}

impl Case {
    /// Returns the index, from 0, of the first row that does not hold, or `None` if all rows hold.
    pub fn first_fault<
        W: Net<Listener = TcpListener, Stream = TcpStream>
            + Threads
            + Wait
            + Clock
            + Copy
            + Send
            + Sync
            + Drop
            + 'static,
    >(self, rt: W, alloc: Global) -> Result<Option<usize>, AllocError> {
        Ok(match self {
            Case::DevicesAreUnplugged => fault_of(connections::devices_are_unplugged(alloc)),
            Case::DevicesArePlugged => fault_of(connections::devices_are_plugged(alloc)),
            Case::PlacesHaveNumbers => fault_of(connections::places_have_numbers()),
            Case::BindersGiveWhatIsAsked => fault_of(binder::binders_give_what_is_asked(alloc)?),
            Case::PortsAreOpened => fault_of(binder::ports_are_opened(alloc)?),
            Case::APoolRunsJobs => fault_of(spawner::a_pool_runs_jobs(rt, alloc)?),
            Case::PipesEnd => fault_of(pipes::pipes_end(rt, alloc)?),
            Case::PipesAreLost => fault_of(pipes::pipes_are_lost(rt, alloc)?),
            Case::PipesRefuse => fault_of(pipes::pipes_refuse(rt, alloc)?),
            Case::AServerEndsAsTold => served::first_fault(rt, alloc)?,
            Case::PortsAreServedInOrder => fault_of(ports::ports_are_served_in_order(rt, alloc)?),
            Case::ADeliveredDeviceIsAttached => {
                fault_of(deliveries::a_delivered_device_is_attached(rt, alloc)?)
            }
            Case::ClientsAreServedAtOnce => {
                fault_of(gated::clients_are_served_at_once(rt, alloc)?)
            }
            Case::ACalmServerIsDone => calm::first_fault(rt, alloc)?,
            Case::ToolsAskAndTell => tools::first_fault(rt, alloc)?,
            Case::WorkersMakeTheirEntries => workers::first_fault(rt, alloc)?,
            Case::AHaltEndsAServer => fault_of(halting::a_halt_ends_a_server(rt, alloc)?),
            Case::ReadsStopShort => streams::first_bad_read(alloc)?,
            Case::WritesStopShort => streams::first_bad_write(alloc)?,
            Case::AYardGivesWhatItIsAsked => {
                fault_of(yard::a_yard_gives_what_it_is_asked(rt, alloc)?)
            }
            Case::ARecordIsWritten => fault_of(recording::a_record_is_written(rt, alloc)?),
        })
    }
}

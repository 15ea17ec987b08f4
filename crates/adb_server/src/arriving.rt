//! Admission of one client or device, and the link of a device.

ghost use Rattle.std.specs.Prelude.{◌≡◌, ◌≢◌, ◌≤◌, Err};
ghost use Rattle.adb_outside.specs.Outside.{Rises};
ghost use Rattle.adb_server_log.specs.declared.error.DeskError.{DeskError};
ghost use Rattle.adb_server.specs.Served.{HasClosed};

use crate::refusals::go_on;
use crate::server::Served;
use adb_connections::{DeviceOut, Door};
use adb_server_client_reader::{Admitted, admit};
use adb_server_device_reader::{Packets, Plugged, plug_in};
use adb_server_hall::Hall;
use adb_server_log::{ClientIn, ClientOut, DeskError, LinkIn, LinkOut};
use adb_server_work::{DeviceOf, Parts};

/// A client that was admitted: the two halves of its connection and the passes of its reader and
/// its writer.
#[derive(Drop)]
pub(crate) struct Arrival<P: Parts> {
    pub(crate) input: P::ClientIn,
    pub(crate) output: P::ClientOut,
    pub(crate) reading: ClientIn<P::Entries, P::Moved, P::Marks>,
    pub(crate) writing: ClientOut<P::Entries, P::Moved, P::Marks>,
}

/// A client or a device that came through the door.
#[derive(Drop)]
pub(crate) enum Comer<P: Parts> {
    Client(Arrival<P>),
    /// A device that has no link yet.
    Device(DeviceOf<P>),
}

/// A device that has a link: its two halves, the reader of its packets, and the passes of its
/// reader and its writer.
#[derive(Drop)]
pub(crate) struct Linked<P: Parts> {
    pub(crate) device: DeviceOf<P>,
    pub(crate) packets: Packets,
    pub(crate) reading: LinkIn<P::Entries, P::Moved, P::Marks>,
    pub(crate) writing: LinkOut<P::Entries, P::Moved, P::Marks>,
}

/// The passes of a device's reader and of its writer.
#[derive(Drop)]
struct Passes<P: Parts> {
    reading: LinkIn<P::Entries, P::Moved, P::Marks>,
    writing: LinkOut<P::Entries, P::Moved, P::Marks>,
}

/// Accepts one client or device and admits a client. A client that the hall refuses is dropped,
/// which is `Ok(None)`.
///
/// - `Done`: the door reported that no more connections come.
/// - `DoorFault`: the door failed. The hall is halted.
/// - `RecordFault`: the recorder failed. The hall is shut.
/// - `OutOfMemory`: an allocation for a client failed. The hall is halted.
#[tactic(auto, using(crate::proofs::Closing::closed_last))]
pub(crate) fn let_in<
    P: Parts,
    H: Hall<Entries = P::Entries, Moved = P::Moved, Marks = P::Marks>,
    D: Door<In = P::ClientIn, Out = P::ClientOut, DeviceIn = P::DeviceIn, DeviceOut = P::DeviceOut>,
>(hall: &mut H, door: &mut D) -> Result<Option<Comer<P>>, Served>
    ensures record { P.Marks.steady → result ≢ Err Served.RecordFault }
    ensures door { D.steady door.old → (D.steady door.new) × (result ≢ Err Served.DoorFault) }
    ensures fault { result ≡ Err Served.DoorFault → Rises (D.faults door.old) (D.faults door.new) }
    ensures count { D.faults door.old ≤ D.faults door.new }
    ensures lasting { D.lasting door.old → (D.lasting door.new) × (result ≢ Err Served.Done) }
    ensures closed { result ≡ Err Served.Done → HasClosed (D.came door.new) }
    ensures note { result ≢ Err Served.WriteFault }
{
    match admit(hall, door) {
        Admitted::Client {
            input,
            output,
            reading,
            writing,
        } => Ok(Some(Comer::Client(Arrival {
            input,
            output,
            reading,
            writing,
        }))),
        Admitted::Device(device) => Ok(Some(Comer::Device(device))),
        Admitted::Closed => Err(Served::Done),
        Admitted::Failed => {
            hall.halt();
            Err(Served::DoorFault)
        }
        Admitted::Refused(error) => {
            go_on::<P, H>(hall, error)?;
            Ok(None)
        }
    }
}

/// Attaches a device. A device that is not plugged in is unplugged and dropped, which is
/// `Ok(None)`.
///
/// `Err`: the hall refused the device with this error, and the device is unplugged and dropped.
pub(crate) fn link_up<P: Parts, H: Hall<Entries = P::Entries, Moved = P::Moved, Marks = P::Marks>>(
    hall: &mut H,
    device: DeviceOf<P>,
    packets: Packets,
) -> Result<Option<Linked<P>>, DeskError>
    ensures record { P.Marks.steady → result ≢ Err DeskError.RecordFault }
{
    let mut device = device;
    match passes_of::<P, H>(hall, &mut device)? {
        Some(Passes { reading, writing }) => Ok(Some(Linked {
            device,
            packets,
            reading,
            writing,
        })),
        None => Ok(None),
    }
}

/// Attaches a device and returns the passes of its link. A device that is not plugged in is
/// unplugged.
///
/// `Err`: the hall refused the device with this error, and the device is unplugged.
fn passes_of<P: Parts, H: Hall<Entries = P::Entries, Moved = P::Moved, Marks = P::Marks>>(
    hall: &mut H,
    device: &mut DeviceOf<P>,
) -> Result<Option<Passes<P>>, DeskError>
    ensures record { P.Marks.steady → result ≢ Err DeskError.RecordFault }
{
    match plug_in(
        hall,
        device.kind,
        device.serial.as_slice(),
        &mut device.input,
    ) {
        Plugged::Link { reading, writing } => Ok(Some(Passes { reading, writing })),
        Plugged::Refused(error) => {
            device.output.unplug();
            Err(error)
        }
        Plugged::Never | Plugged::Failed => {
            device.output.unplug();
            Ok(None)
        }
    }
}

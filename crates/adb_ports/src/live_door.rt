//! The door of a live server.

ghost use Rattle.std.specs.Prelude.{◌≡◌};
ghost use Rattle.adb_connections.specs.Door.{FitsCame, is_failed_came};

use adb_connections::{Came, Device, Door, EitherIn, EitherOut};
use adb_os_door::{TcpDevice, TcpDoor};
use adb_os_model_device::{PipeDeviceIn, PipeDeviceOut};
use adb_os_sockets::{TcpDeviceIn, TcpDeviceOut, TcpIn, TcpOut};
use std::sync::Wait;

/// The half of a device's link from which a live server reads: of a model device, or of a device
/// that was dialled.
pub type LiveDeviceIn<W: Wait + Drop> = EitherIn<PipeDeviceIn<W>, TcpDeviceIn>;

/// The half of a device's link to which a live server writes: of a model device, or of a device
/// that was dialled.
pub type LiveDeviceOut<W: Wait + Drop> = EitherOut<PipeDeviceOut<W>, TcpDeviceOut>;

/// A device of a live server.
pub type LiveDevice<W: Wait + Drop> = Device<LiveDeviceIn<W>, LiveDeviceOut<W>>;

/// A model device, whose link is a pair of pipes.
pub type ModelDevice<W: Wait + Drop> = Device<PipeDeviceIn<W>, PipeDeviceOut<W>>;

/// The answer of a `LiveDoor`.
type LiveCame<W: Wait + Drop> = Came<TcpIn, TcpOut, LiveDeviceIn<W>, LiveDeviceOut<W>>;

/// The door of a live server. The devices that come through it are devices that were dialled.
#[derive(Drop)]
pub struct LiveDoor<W: Wait + Drop> {
    door: TcpDoor<W>,
}

impl<W: Wait + Drop> LiveDoor<W> {
    pub(crate) fn new(door: TcpDoor<W>) -> LiveDoor<W> {
        LiveDoor { door }
    }
}

impl<W: Wait + Send + Drop + 'static> Door for LiveDoor<W> {
    type In = TcpIn;

    type Out = TcpOut;

    type DeviceIn = LiveDeviceIn<W>;

    type DeviceOut = LiveDeviceOut<W>;

    ghost use Rattle.std.specs.Prelude.{None};

    ghost faults = { λ door. door.door.faults };

    ghost came = { λ door. None };

    ghost lasting = { λ door. ⊥ };

    ghost steady = { λ door. ⊥ };

    /// Returns what the door of sockets does (`TcpDoor`).
    fn accept(&mut self) -> LiveCame<W> {
        match self.door.accept() {
            Came::Port(input, output) => Came::Port(input, output),
            Came::Forward(port, input, output) => Came::Forward(port, input, output),
            Came::Device(device) => Came::Device(dialled(device)),
            Came::Closed => Came::Closed,
            Came::Failed => Came::Failed,
        }
    }
}

/// Returns a model device as a device of a live server.
pub fn model<W: Wait + Drop>(device: ModelDevice<W>) -> LiveDevice<W> {
    Device {
        kind: device.kind,
        serial: device.serial,
        input: EitherIn::First(device.input),
        output: EitherOut::First(device.output),
    }
}

/// Returns a device that was dialled as a device of a live server.
fn dialled<W: Wait + Drop>(device: TcpDevice) -> LiveDevice<W> {
    Device {
        kind: device.kind,
        serial: device.serial,
        input: EitherIn::Second(device.input),
        output: EitherOut::Second(device.output),
    }
}

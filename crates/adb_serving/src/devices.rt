//! The devices of a server: model devices in threads of their own, and the dialers of devices that
//! are reached by a port of this machine.

use adb_connections::Device;
use adb_daemon::Daemon;
use adb_files::Files;
use adb_outside::{Kind, Text};
use adb_pipe::{PipeIn, PipeOut, pipe};
use adb_ports::{
    Deliveries, Ending, LiveDevice, ModelDevice, PipeDeviceIn, PipeDeviceOut, dial, model,
    run_device,
};
use adb_wire::MAX_PAYLOAD;
use adb_words::Ports;
use itoa::Buffer;
use std::alloc::{AllocError, Global};
use std::net::{Net, TcpListener, TcpStream};
use std::sync::{Arc, Wait};
use std::thread;
use std::thread::Threads;

/// The maximum number of chunks, of up to a packet each, in a pipe between a model device and the
/// server.
const CHUNKS: usize = 16;

/// The devices of a server.
#[derive(Drop)]
pub struct Devices<
    W: Net<Listener = TcpListener, Stream = TcpStream>
        + Threads
        + Wait
        + Copy
        + Send
        + Sync
        + Drop
        + 'static,
> {
    /// The model devices, in the order of the words.
    pub models: Vec<LiveDevice<W>>,
    /// The queue of the devices that are dialled.
    pub deliveries: Arc<Deliveries, Global>,
}

/// Makes the devices that the words request: the model devices, and a dialer for each port at which
/// a device listens. All are devices of this machine. A device that is dialled has the serial
/// `127.0.0.1:<port>`.
///
/// `AllocError`: an allocation failed. No dialer is left.
pub fn devices_of<
    W: Net<Listener = TcpListener, Stream = TcpStream>
        + Threads
        + Wait
        + Copy
        + Send
        + Sync
        + Drop
        + 'static,
>(rt: W, alloc: Global, ports: &Ports, ending: &Ending) -> Result<Devices<W>, AllocError> {
    let mut models = Vec::new(alloc);
    for serial in &ports.devices {
        models.push(model(model_device(rt, alloc, serial)?))?;
    }
    let deliveries = Deliveries::new(alloc, ending.share()?, ports.connects.len())?;
    let deliveries = Arc::new(alloc, deliveries)?;
    for port in &ports.connects {
        if start_dialer(rt, alloc, *port, &deliveries).is_err() {
            deliveries.close(&rt);
            return Err(AllocError);
        }
    }
    Ok(Devices { models, deliveries })
}

/// Starts the dialer of a port in a thread of its own. If no thread can be spawned, its device
/// never comes.
fn start_dialer<
    W: Net<Listener = TcpListener, Stream = TcpStream>
        + Threads
        + Wait
        + Copy
        + Send
        + Sync
        + Drop
        + 'static,
>(rt: W, alloc: Global, port: u16, deliveries: &Arc<Deliveries, Global>) -> Result<(), AllocError> {
    let serial = serial_of(alloc, port)?;
    let theirs = Arc::try_clone(deliveries)?;
    let _ = thread::spawn(&rt, move || dial(&rt, alloc, port, &serial, &theirs));
    Ok(())
}

/// Returns a model device without files, which runs in a thread of its own. If no thread can be
/// spawned, the device's pipes are dropped, and its link ends at once.
fn model_device<
    W: Net<Listener = TcpListener, Stream = TcpStream>
        + Threads
        + Wait
        + Copy
        + Send
        + Sync
        + Drop
        + 'static,
>(rt: W, alloc: Global, serial: &Text) -> Result<ModelDevice<W>, AllocError> {
    let (to_device, from_host) = pipe(rt, alloc, CHUNKS)?;
    let (to_host, from_device) = pipe(rt, alloc, CHUNKS)?;
    let daemon = Daemon::new(alloc, Files::new(alloc), MAX_PAYLOAD)?;
    let _ = thread::spawn(&rt, move || attend(rt, alloc, daemon, from_host, to_host));
    Ok(Device {
        kind: Kind::Local,
        serial: serial.copy()?,
        input: PipeDeviceIn::new(alloc, from_device),
        output: PipeDeviceOut::new(alloc, to_device),
    })
}

/// Runs a model device to its end, and ends its link.
fn attend<W: Wait + Copy + Drop>(
    rt: W,
    alloc: Global,
    daemon: Daemon,
    input: PipeIn<W>,
    output: PipeOut<W>,
) {
    let (mut input, mut output) = (input, output);
    drop(run_device(rt, alloc, daemon, &mut input, &mut output));
    output.finish();
}

fn serial_of(alloc: Global, port: u16) -> Result<Text, AllocError> {
    let mut serial = Text::from_slice(alloc, b"127.0.0.1:")?;
    let mut digits = Buffer::new();
    serial.push_slice(digits.format(port).as_bytes())?;
    Ok(serial)
}

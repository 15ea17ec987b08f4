//! A device that comes through the door of a server, between two clients.

use adb_connections::{Device, MemoryDeviceIn, Plug};
use adb_fakes::{FakeDevice, FakeYard, Kept, Sent, SharedOut};
use adb_outside::{Kind, MemorySink, Text};
use adb_server::{Served, serve};
use std::alloc::{AllocError, Global};
use std::sync::Wait;
use std::thread::Threads;

/// The bytes that the device sends: its first packet.
const SENDS: &[u8] = b"CNXN\x01\0\0\x01\0\x10\0\0\x08\0\0\0\0\0\0\0\xbc\xb1\xa7\xb1device::";

/// The bytes that each client sends.
const ASKS: &[u8] = b"000Chost:version";

/// The history. The device has a link after the first client and before the second.
const TOLD: &[u8] = b"Join 1\nRead 1 16\nPut 1 12\n\
    Attach 1\nRecv 1 32\nDetach 1 Eof\n\
    Join 2\nRead 2 16\nPut 2 12\n";

/// Returns the device, which is plugged in. `sent` shows the bytes that it is sent.
fn device<W: Wait + Copy + Send + Sync + Drop + 'static>(
    alloc: Global,
    sent: &Sent<W>,
) -> Result<FakeDevice<W>, AllocError> {
    let sends = Text::from_slice(alloc, SENDS)?;
    Ok(Device {
        kind: Kind::Local,
        serial: Text::from_slice(alloc, b"emu1")?,
        input: MemoryDeviceIn::new(alloc, Plug::Here, sends, 10, Vec::new(alloc)),
        output: SharedOut::new(sent.handle()?, Vec::new(alloc)),
    })
}

/// Returns whether a server attaches a device that comes through its door, unplugs it when its
/// input ends, and serves the client that comes after it.
pub fn a_delivered_device_is_attached<W: Threads + Wait + Copy + Send + Sync + Drop + 'static>(
    rt: W,
    alloc: Global,
) -> Result<bool, AllocError> {
    let kept = Kept::new(rt, alloc, Vec::new(alloc))?;
    let mut yard = FakeYard::new(rt, alloc, kept.handle()?)?;
    let first = yard.call(ASKS, Vec::new(alloc), Vec::new(alloc))?;
    let sent = Sent::new(rt, alloc)?;
    yard.deliver(device(alloc, &sent)?)?;
    let second = yard.call(ASKS, Vec::new(alloc), Vec::new(alloc))?;
    let given: Vec<FakeDevice<W>> = Vec::new(alloc);
    let mut note = MemorySink::new(alloc, Vec::new(alloc));
    let ended = serve(rt, alloc, yard, given, 5037, true, &mut note);
    Ok(
        ended.served == Served::Done
            && first.is_closed()
            && sent.is_closed()
            && second.is_closed()
            && kept.lines()?.as_slice() == TOLD,
    )
}

//! A server over fakes: its end after each failure of its environment.

use crate::rows::{CLIENTS, DEVICES, Row};
use adb_connections::{Device, MemoryDeviceIn, Plug};
use adb_fakes::{FakeDevice, FakeYard, Kept, Sent, SharedOut};
use adb_outside::{Kind, MemorySink, Text};
use adb_server::{Served, serve};
use std::alloc::{AllocError, Global};
use std::sync::Wait;
use std::thread::Threads;

/// The line of the note that names the port.
const LINE: &[u8] = b"adbhub: listening on 127.0.0.1:5037\n";

/// The bytes that a device sends: its first packet, and 23 bytes of a header.
const SENDS: &[u8] = b"CNXN\x01\0\0\x01\0\x10\0\0\x08\0\0\0\0\0\0\0\xbc\xb1\xa7\xb1device::\
    OKAY\x07\0\0\0\x01\0\0\0\0\0\0\0\0\0\0\0\xb0\xb4\xbe";

/// Returns the end of a server on port 5037, if its note has the line for that port.
fn served<W: Threads + Wait + Copy + Send + Sync + Drop + 'static>(
    rt: W,
    alloc: Global,
    yard: FakeYard<W>,
    devices: Vec<FakeDevice<W>>,
) -> Option<Served> {
    let mut note = MemorySink::new(alloc, Vec::new(alloc));
    let ended = serve(rt, alloc, yard, devices, 5037, true, &mut note);
    (note.bytes() == LINE).then_some(ended.served)
}

/// Returns the input of a device, which sends `SENDS` in pieces of ten bytes.
fn input(alloc: Global, plug: Plug) -> Result<MemoryDeviceIn, AllocError> {
    let sends = Text::from_slice(alloc, SENDS)?;
    Ok(MemoryDeviceIn::new(alloc, plug, sends, 10, Vec::new(alloc)))
}

/// Returns the device of a row. `sent` shows the bytes that it is sent.
fn device<W: Wait + Copy + Send + Sync + Drop + 'static>(
    alloc: Global,
    row: Row,
    sent: &Sent<W>,
) -> Result<FakeDevice<W>, AllocError> {
    let input = input(alloc, row.plug)?;
    let serial = Text::from_slice(alloc, row.serial)?;
    let output = SharedOut::new(sent.handle()?, Vec::new(alloc));
    Ok(Device {
        kind: Kind::Usb,
        serial,
        input,
        output,
    })
}

/// Returns a list of the device of a row.
fn devices<W: Wait + Copy + Send + Sync + Drop + 'static>(
    alloc: Global,
    row: Row,
    sent: &Sent<W>,
) -> Result<Vec<FakeDevice<W>>, AllocError> {
    let device = device(alloc, row, sent)?;
    let mut devices = Vec::new(alloc);
    devices.push(device)?;
    Ok(devices)
}

/// Returns a list of one call.
fn once(alloc: Global, call: u64) -> Result<Vec<u64>, AllocError> {
    Vec::from_slice(alloc, &[call])
}

/// Sets up the failing calls of a yard and its client, if one comes. Returns the handle that shows
/// the bytes that the client is sent.
fn prepare<W: Wait + Copy + Send + Sync + Drop + 'static>(
    alloc: Global,
    row: Row,
    yard: &mut FakeYard<W>,
) -> Result<Option<Sent<W>>, AllocError> {
    yard.fail_accepts(once(alloc, row.accept)?);
    yard.fail_spawns(once(alloc, row.spawn)?);
    if !row.comes {
        return Ok(None);
    }
    let reads = once(alloc, row.read)?;
    let writes = once(alloc, row.write)?;
    Ok(Some(yard.call(b"000Chost:version", reads, writes)?))
}

/// Returns whether the client's connection is closed, if the hall admitted it.
fn is_closed<W: Wait + Copy + Drop>(row: Row, client: &Option<Sent<W>>) -> bool {
    match client {
        Some(sent) => sent.is_closed() == !row.told.is_empty(),
        None => true,
    }
}

/// Returns whether the server ends as the row says and closes the connection of its client.
fn ends<W: Threads + Wait + Copy + Send + Sync + Drop + 'static>(
    rt: W,
    alloc: Global,
    row: Row,
    kept: Kept<W>,
    devices: Vec<FakeDevice<W>>,
) -> Result<bool, AllocError> {
    let mut yard = FakeYard::new(rt, alloc, kept)?;
    let client = prepare(alloc, row, &mut yard)?;
    let ended = served(rt, alloc, yard, devices);
    Ok(ended == Some(row.served) && is_closed(row, &client))
}

fn is_told<W: Wait + Copy + Drop>(kept: &Kept<W>, told: &[u8]) -> Result<bool, AllocError> {
    Ok(kept.lines()?.as_slice() == told)
}

/// Returns whether the server ends as the row says, unplugs the device, and records the entries of
/// the row.
fn goes<W: Threads + Wait + Copy + Send + Sync + Drop + 'static>(
    rt: W,
    alloc: Global,
    row: Row,
    kept: &Kept<W>,
    sent: &Sent<W>,
) -> Result<bool, AllocError> {
    let devices = devices(alloc, row, sent)?;
    Ok(
        ends(rt, alloc, row, kept.handle()?, devices)?
            && sent.is_closed()
            && is_told(kept, row.told)?,
    )
}

fn stands<W: Threads + Wait + Copy + Send + Sync + Drop + 'static>(
    rt: W,
    alloc: Global,
    row: Row,
) -> Result<bool, AllocError> {
    let kept = Kept::new(rt, alloc, once(alloc, row.keep)?)?;
    let sent = Sent::new(rt, alloc)?;
    goes(rt, alloc, row, &kept, &sent)
}

/// Returns the index of the first row that does not hold. The rows of clients come first.
pub fn first_fault<W: Threads + Wait + Copy + Send + Sync + Drop + 'static>(
    rt: W,
    alloc: Global,
) -> Result<Option<usize>, AllocError> {
    for (at, &row) in CLIENTS.iter().chain(DEVICES).enumerate() {
        if !stands(rt, alloc, row)? {
            return Ok(Some(at));
        }
    }
    Ok(None)
}

//! Devices in memory, and the numbers of places.

use adb_connections::*;
use adb_outside::{Text, Wrote};
use std::alloc::Global;

/// Returns whether a device that is written to and unplugged shows both.
fn is_unplugged(output: &mut MemoryDeviceOut) -> bool {
    let took = output.write_both(b"OP", b"EN") == Wrote::All;
    output.unplug();
    took && output.is_unplugged() && output.bytes() == b"OPEN".as_slice()
}

pub fn devices_are_unplugged(alloc: Global) -> bool {
    let mut output = MemoryDeviceOut::new(alloc, Vec::new(alloc));
    is_unplugged(&mut output)
}

/// Returns whether a device shows its answers.
fn answers(device: &mut MemoryDeviceIn) -> bool {
    let _ = device.plug();
    let _ = device.plug();
    device.plugs() == Some([Plug::Never, Plug::Never].as_slice())
}

pub fn devices_are_plugged(alloc: Global) -> bool {
    let mut device = MemoryDeviceIn::new(alloc, Plug::Never, Text::new(alloc), 1, Vec::new(alloc));
    answers(&mut device)
}

const PLACES: &[(Place, u8)] = &[
    (Place::ClientReader, 1),
    (Place::ClientWriter, 2),
    (Place::DeviceReader, 3),
    (Place::DeviceWriter, 4),
];

pub fn places_have_numbers() -> bool {
    for &(place, number) in PLACES {
        OpenGate::new().pass(place as u8, 1);
        if place as u8 != number {
            return false;
        }
    }
    SilentBell::new().ring();
    true
}

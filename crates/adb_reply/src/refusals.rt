//! The texts of refusals.

ghost use Rattle.std.specs.Prelude.{◌≡◌, ◌<◌, ◌≤◌, ◌^◌, ◌++◌, length, IfOk, take, codes, decimal};
ghost use Rattle.adb_reply.specs.Refusals.{asked_serial, asked_id, refusal_text};

use adb_outside::{Selector, Text};
use adb_registry::Refusal;
use itoa::Buffer;
use std::alloc::{AllocError, Global};

/// The maximum number of bytes of a serial that a refusal prints.
const MAX_PRINTED_SERIAL: usize = 64;

/// States the numbers that definitions take from the code.
pub fn limits_are()
    ensures serial { MAX_PRINTED_SERIAL ≡ 64 }
{}

/// Returns the text of a refusal by a selector.
pub(crate) fn refusal_text(alloc: Global, by: &Selector, why: Refusal) -> Result<Text, AllocError>
    ensures text { IfOk result (λ text. text ≡ refusal_text by.now why) }
    ensures short { IfOk result (λ text. length text < 2 ^ 16) }
{
    let text: &[u8] = match why {
        Refusal::NoAny => b"no devices/emulators found",
        Refusal::ManyAny => b"more than one device/emulator",
        Refusal::NoUsb => b"no devices found",
        Refusal::ManyUsb => b"more than one device",
        Refusal::NoLocal => b"no emulators found",
        Refusal::ManyLocal => b"more than one emulator",
        Refusal::NoSerial => return serial_not_found(alloc, asked_serial(by)),
        Refusal::ManySerial => b"more than one device",
        Refusal::NoId => return id_not_found(alloc, asked_id(by)),
        Refusal::Offline => b"device offline",
        Refusal::Unauthorized => b"device unauthorized",
    };
    Text::from_slice(alloc, text)
}

/// Returns the serial that a selector names, or no bytes if it names a device otherwise.
fn asked_serial(by: &Selector) -> &[u8]
    ensures { result.now ≡ asked_serial by.now }
{
    match by {
        Selector::Serial(serial) => serial.as_slice(),
        _ => b"",
    }
}

/// Returns the transport id that a selector names.
fn asked_id(by: &Selector) -> u32
    ensures { result ≡ asked_id by.now }
{
    match by {
        Selector::Id(id) => *id,
        _ => 0,
    }
}

fn serial_not_found(alloc: Global, serial: &[u8]) -> Result<Text, AllocError>
    ensures text { IfOk result (λ text.
        text ≡ codes "device '" ++ take MAX_PRINTED_SERIAL serial.now ++ codes "' not found") }
    ensures short { IfOk result (λ text. length text < 2 ^ 16) }
{
    let mut text = Text::from_slice(alloc, b"device '")?;
    text.push_slice(printed(serial))?;
    text.push_slice(b"' not found")?;
    Ok(text)
}

fn id_not_found(alloc: Global, id: u32) -> Result<Text, AllocError>
    ensures text { IfOk result (λ text.
        text ≡ codes "no device with transport id '" ++ decimal id ++ codes "'") }
    ensures short { IfOk result (λ text. length text < 2 ^ 16) }
{
    let mut text = Text::from_slice(alloc, b"no device with transport id '")?;
    text.push_slice(Buffer::new().format(id).as_bytes())?;
    text.push_slice(b"'")?;
    Ok(text)
}

/// Returns the part of a serial that a refusal prints.
fn printed(serial: &[u8]) -> &[u8]
    ensures text { result.now ≡ take MAX_PRINTED_SERIAL serial.now }
    ensures short { length result.now ≤ MAX_PRINTED_SERIAL }
{
    if serial.len() > MAX_PRINTED_SERIAL {
        &serial[..MAX_PRINTED_SERIAL]
    } else {
        serial
    }
}

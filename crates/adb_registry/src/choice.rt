//! Choosing the device that a selector means.

ghost use Rattle.std.specs.Prelude.{◌≡◌};
ghost use Rattle.std.specs.Map.{values_of};
ghost use Rattle.adb_registry.specs.Choice.{is_meant, none_meant, several_meant, ready_id, choice};

use crate::row::Row;
use adb_outside::{Kind, Selector, State};
use std::collections::BTreeMap;

/// The reason why no device was chosen: the selector means none or several, or the one that it
/// means is not ready.
#[derive(Clone, Copy, Debug, PartialEq, Eq, Drop)]
pub enum Refusal {
    /// No device is plugged in.
    NoAny,
    ManyAny,
    NoUsb,
    ManyUsb,
    NoLocal,
    ManyLocal,
    NoSerial,
    ManySerial,
    /// No device has this transport id; several never do.
    NoId,
    /// The one device has not sent its identity.
    Offline,
    /// The one device asked for something that this server does not support.
    Unauthorized,
}

/// Returns whether the selector means this row, whatever its state.
fn means(by: &Selector, row: &Row) -> bool
    ensures { result ≡ is_meant by.now row.now }
{
    match by {
        Selector::Any => true,
        Selector::Usb => row.kind == Kind::Usb,
        Selector::Local => row.kind == Kind::Local,
        Selector::Serial(serial) => row.serial.as_slice() == serial.as_slice(),
        Selector::Id(id) => row.id == *id,
    }
}

fn no_row(by: &Selector) -> Refusal
    ensures { result ≡ none_meant by.now }
{
    match by {
        Selector::Any => Refusal::NoAny,
        Selector::Usb => Refusal::NoUsb,
        Selector::Local => Refusal::NoLocal,
        Selector::Serial(_) => Refusal::NoSerial,
        Selector::Id(_) => Refusal::NoId,
    }
}

fn several_rows(by: &Selector) -> Refusal
    ensures { result ≡ several_meant by.now }
{
    match by {
        Selector::Any => Refusal::ManyAny,
        Selector::Usb => Refusal::ManyUsb,
        Selector::Local => Refusal::ManyLocal,
        Selector::Serial(_) => Refusal::ManySerial,
        Selector::Id(_) => Refusal::NoId,
    }
}

/// Returns the row's id, if the device has sent its identity.
fn if_ready(row: &Row) -> Result<u32, Refusal>
    ensures { result ≡ ready_id row.now.state row.now.id }
{
    match row.state {
        State::Offline => Err(Refusal::Offline),
        State::Unauthorized => Err(Refusal::Unauthorized),
        _ => Ok(row.id),
    }
}

/// Returns the id of the one row that the selector means.
pub(crate) fn choose(rows: &BTreeMap<u32, Row>, by: &Selector, ready: bool) -> Result<u32, Refusal>
    ensures { result ≡ choice (values_of rows.now.entries) by.now ready }
{
    let mut meant = None;
    for row in rows.values() {
        if means(by, row) {
            if meant.is_some() {
                return Err(several_rows(by));
            }
            meant = Some(row);
        }
    }
    match meant {
        None => Err(no_row(by)),
        Some(row) if ready => if_ready(row),
        Some(row) => Ok(row.id),
    }
}

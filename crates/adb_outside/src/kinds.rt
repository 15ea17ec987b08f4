//! The small enums that entries and requests consist of.

use crate::text::Text;

/// The kind of a device's connection.
#[derive(Clone, Copy, Debug, PartialEq, Eq, Drop)]
pub enum Kind {
    Usb,
    Local,
}

/// The reason why an input ended: the port ended, it failed, an allocation failed, or no thread
/// could be started.
#[derive(Clone, Copy, Debug, PartialEq, Eq, Drop)]
pub enum Cause {
    Eof,
    Fault,
    Starved,
    NoThread,
}

/// The devices that a request means (SERVICES.TXT: `host:transport` and its kin).
#[derive(Drop)]
pub enum Selector {
    Any,
    Usb,
    Local,
    /// The device with this serial.
    Serial(Text),
    /// The device with this transport id.
    Id(u32),
}

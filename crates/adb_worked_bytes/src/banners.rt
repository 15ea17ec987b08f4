//! Cases of banners: the identity that a device announces.

use crate::cases::cut;
use crate::telling::{tell_bytes, tell_value};
use adb_banner::{has_feature, read};
use adb_outside::{Identity, Text, state_of, state_text};
use std::alloc::{AllocError, Global};

/// Appends the state of a device that is announced, and its texts: system, serial, product, model,
/// device and features.
pub fn tell(alloc: Global, bytes: &[u8], told: &mut Text) -> Result<(), AllocError> {
    match read(alloc, bytes) {
        Ok(identity) => tell_identity(&identity, told),
        Err(error) => tell_value(alloc, told, error),
    }
}

fn tell_identity(identity: &Identity, told: &mut Text) -> Result<(), AllocError> {
    told.push_slice(b"\n")?;
    told.push_slice(state_text(state_of(identity)))?;
    tell_bytes(told, b" ", identity.system.as_slice())?;
    tell_bytes(told, b" ", identity.serial.as_slice())?;
    tell_bytes(told, b" ", identity.product.as_slice())?;
    tell_bytes(told, b" ", identity.model.as_slice())?;
    tell_bytes(told, b" ", identity.device.as_slice())?;
    tell_bytes(told, b" ", identity.features.as_slice())
}

/// Appends, for a text `NAME of BYTES`, whether the device that announces BYTES has the feature
/// NAME.
pub fn tell_feature(alloc: Global, text: &[u8], told: &mut Text) -> Result<(), AllocError> {
    let (name, bytes) = cut(text, b" of ");
    match read(alloc, bytes) {
        Ok(identity) => tell_value(alloc, told, has_feature(&identity, name)),
        Err(error) => tell_value(alloc, told, error),
    }
}

//! The attachment of a device, and its reader, which submits its bytes to the hall.
#![tactic(auto)]

mod device;
mod ending;
mod feeding;
mod next;
mod packets;
mod reader;

pub use adb_connections::Device;
pub use device::{Plugged, plug_in};
pub use packets::Packets;
pub use reader::read_device;

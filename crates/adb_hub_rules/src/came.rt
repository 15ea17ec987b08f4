//! Packets that came.

use adb_outside::Identity;
use adb_wire::Head;
use bytes::Bytes;

/// A packet that came on a link: its header, its payload, and, for a CNXN, the device's identity if
/// the payload is one.
#[derive(Drop)]
pub struct Came {
    pub head: Head,
    pub payload: Bytes,
    pub identity: Option<Identity>,
}

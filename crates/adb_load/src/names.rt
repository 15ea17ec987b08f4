//! The numbers of a stream at its client and its device.

ghost use Rattle.std.specs.Prelude.{◌≡◌};
ghost use Rattle.adb_load.specs.Acts.{client_of, link_of, remote_of};

use crate::numbers::{DEVICES, FIRST_REMOTE};

/// Returns the client of a stream.
pub(crate) fn client_of(stream: u16) -> u32
    ensures { result ≡ client_of stream }
{
    u32::from(stream) + 1
}

/// Returns the link of a stream's device.
pub(crate) fn link_of(stream: u16) -> u32
    ensures { result ≡ link_of stream }
{
    u32::from(stream % DEVICES) + 1
}

/// Returns the device's id of a stream.
pub(crate) fn remote_of(stream: u16) -> u32
    ensures { result ≡ remote_of stream }
{
    FIRST_REMOTE + u32::from(stream)
}

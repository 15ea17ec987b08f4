//! The identity that a device reports.

ghost use Rattle.std.specs.Prelude.{◌≡◌};
ghost use Rattle.adb_outside.specs.Identity.{state_of_system, text_of_state};

use crate::text::Text;

/// The state of a device, as far as clients are concerned (SERVICES.TXT,
/// `<host-prefix>:get-state`).
#[derive(Clone, Copy, Debug, PartialEq, Eq, Drop)]
pub enum State {
    /// Plugged in, but the device has not sent its identity.
    Offline,
    /// The device asked for something that this server does not support: a signature, or TLS.
    Unauthorized,
    Device,
    Bootloader,
    Recovery,
    Sideload,
    Rescue,
    /// The device named a system that is none of these.
    Host,
}

/// The identity in a device's CNXN (protocol.txt, "The CONNECT message"). A text that the device
/// did not send is empty.
#[derive(Drop)]
pub struct Identity {
    pub system: Text,
    pub serial: Text,
    pub product: Text,
    pub model: Text,
    pub device: Text,
    pub features: Text,
}

/// Returns the state that the system of an identity means: `device`, `bootloader`, `recovery`,
/// `sideload` or `rescue`, and `Host` for every other.
pub fn state_of(identity: &Identity) -> State
    ensures { result ≡ state_of_system identity.now.system }
{
    let system = identity.system.as_slice();
    if system == b"device".as_slice() {
        State::Device
    } else if system == b"bootloader".as_slice() {
        State::Bootloader
    } else if system == b"recovery".as_slice() {
        State::Recovery
    } else if system == b"sideload".as_slice() {
        State::Sideload
    } else if system == b"rescue".as_slice() {
        State::Rescue
    } else {
        State::Host
    }
}

/// Returns the state as replies and lists print it.
pub fn state_text(state: State) -> &'static [u8]
    ensures { result.now ≡ text_of_state state }
{
    match state {
        State::Offline => b"offline",
        State::Unauthorized => b"unauthorized",
        State::Device => b"device",
        State::Bootloader => b"bootloader",
        State::Recovery => b"recovery",
        State::Sideload => b"sideload",
        State::Rescue => b"rescue",
        State::Host => b"host",
    }
}

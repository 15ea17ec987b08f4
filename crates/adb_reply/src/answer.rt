//! A reply, and the action that follows it.

use adb_outside::Text;

/// The action of the server once the reply is queued (SERVICES.TXT, OVERVIEW.TXT).
#[derive(Drop)]
pub enum Next {
    /// Stops reading from the client, and drops it once everything was handed out.
    Close,
    /// Selects the device of this transport id, and reads the next request.
    Select(u32),
    /// Sends the list again after each change.
    Track {
        long: bool,
    },
    /// Opens a stream to this service of the device.
    Open {
        transport: u32,
        service: Text,
    },
    /// Listens at the local port, or at any port if it is 0, in which case `chosen` is set. The
    /// reply follows then.
    Bind {
        transport: u32,
        local: u16,
        remote: Text,
        chosen: bool,
    },
    /// Gives the forward of the local port another device and end, and closes.
    Rebind {
        transport: u32,
        local: u16,
        remote: Text,
    },
    /// Ends the forward of the local port, and closes.
    Unbind(u16),
    /// Ends all forwards, and closes.
    UnbindAll,
    /// Stops the server.
    Stop,
}

/// The answer to a request.
#[derive(Drop)]
pub struct Answer {
    /// The reply. It is empty if the answer comes later: from a service's device, or from a
    /// listener.
    pub bytes: Text,
    pub next: Next,
}

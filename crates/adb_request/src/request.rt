//! Requests of clients.

use adb_outside::{Selector, Text};

/// The device that a request asks.
#[derive(Drop)]
pub enum Which {
    /// The device that the connection selected, or any device if it selected none.
    Own,
    By(Selector),
}

/// A request of a client (SERVICES.TXT, "HOST SERVICES").
#[derive(Drop)]
pub enum Request {
    /// The version of the server.
    Version,
    /// Stops the server.
    Kill,
    /// The list of devices.
    Devices {
        long: bool,
    },
    /// The list of devices now and after each change.
    Track {
        long: bool,
    },
    /// Selects a device for this connection; `tell_id` asks for its transport id.
    Transport {
        by: Selector,
        tell_id: bool,
    },
    Serialno(Which),
    Devpath(Which),
    GetState(Which),
    Features(Which),
    /// Listens at a local port, or any port if it is 0, for connections to an end at the device.
    /// `norebind` refuses a port that is already forwarded.
    Forward {
        on: Which,
        norebind: bool,
        local: u16,
        remote: Text,
    },
    /// A forward, or the end of one, with a specification of another form.
    BadForward,
    /// Ends the forward of that local port.
    KillForward(u16),
    KillAll,
    ListForward,
    /// A service of the selected device: any text that does not ask the host.
    Service(Text),
    /// A text that asks the host for an unknown service.
    UnknownHost,
}

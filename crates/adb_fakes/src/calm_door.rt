//! A door and a binder that never fail.

ghost use Rattle.std.specs.Prelude.{◌≡◌, ◌≢◌, [], Some};

use crate::calm_out::CalmOut;
use adb_binder::{Binder, Binding};
use adb_connections::{Arrival, Came, Door, MemoryDeviceIn, MemoryDeviceOut, MemoryIn};
use adb_outside::{Answers, Text};
use std::alloc::Global;
use std::collections::VecDeque;
use std::marker::Model;
use std::sync::Wait;

/// A binder that opens no port. It returns the port that it is asked for, or 40,000 if it is asked
/// for any.
#[derive(Drop)]
pub struct CalmBinder {}

impl CalmBinder {
    /// Returns a binder.
    pub fn new() -> CalmBinder {
        CalmBinder {}
    }
}

impl Binder for CalmBinder {
    ghost use Rattle.std.specs.Prelude.{None, ⊤};

    ghost faults = { λ binder. 0 };

    ghost answered = { λ binder. None };

    ghost steady = { λ binder. ⊤ };

    fn bind(&mut self, port: u16) -> Binding {
        if port == 0 {
            return Binding::Bound(40_000);
        }
        Binding::Bound(port)
    }
}

/// A client that comes to a calm door: the two halves of its connection.
#[derive(Drop)]
pub(crate) struct Caller<W: Wait + Copy + Drop> {
    /// The port of the forward through which it comes, 0 if it comes to the server's own port.
    pub(crate) port: u16,
    pub(crate) input: MemoryIn,
    pub(crate) output: CalmOut<W>,
}

/// A door for a list of clients, in order. After the last one it is closed. A door that lasts has
/// another client at each further call, which sends nothing. Contracts see its answers until an
/// allocation for them fails.
#[derive(Drop)]
pub struct CalmDoor<W: Wait + Copy + Drop> {
    alloc: Global,
    coming: VecDeque<Caller<W>>,
    lasts: bool,
    came: Answers<Arrival>,
}

impl<W: Wait + Copy + Drop> Model for CalmDoor<W> {
    ghost use Rattle.adb_fakes.specs.Fakes.{CalmDoorView};

    ghost Value = { CalmDoorView };

    ghost view = { λ door. record { lasts = door.lasts; came = door.came } };
}

impl<W: Wait + Copy + Drop> CalmDoor<W> {
    /// Returns a door for these clients.
    pub(crate) fn new(alloc: Global, coming: VecDeque<Caller<W>>, lasts: bool) -> CalmDoor<W>
        ensures { result ≡ record { lasts = lasts; came = Some [] } }
    {
        CalmDoor {
            alloc,
            coming,
            lasts,
            came: Answers::new(alloc),
        }
    }

    /// Returns a client that sends nothing.
    fn silent(&self) -> Caller<W> {
        Caller {
            port: 0,
            input: MemoryIn::new(Text::new(self.alloc), 1, Vec::new(self.alloc)),
            output: CalmOut::new(None),
        }
    }
}

impl<W: Wait + Copy + Send + Sync + Drop + 'static> Door for CalmDoor<W> {
    type In = MemoryIn;

    type Out = CalmOut<W>;

    type DeviceIn = MemoryDeviceIn;

    type DeviceOut = MemoryDeviceOut;

    ghost use Rattle.std.specs.Prelude.{◌≡◌, true, ⊤};

    ghost faults = { λ door. 0 };

    ghost came = { λ door. door.came };

    ghost lasting = { λ door. door.lasts ≡ true };

    ghost steady = { λ door. ⊤ };

    fn accept(&mut self) -> Came<MemoryIn, CalmOut<W>, MemoryDeviceIn, MemoryDeviceOut> {
        let next = match self.coming.pop_front() {
            Some(caller) => caller,
            None if self.lasts => self.silent(),
            None => {
                let _ = self.came.note(Arrival::Closed);
                return Came::Closed;
            }
        };
        let Caller {
            port,
            input,
            output,
        } = next;
        if port == 0 {
            let _ = self.came.note(Arrival::Port);
            return Came::Port(input, output);
        }
        let _ = self.came.note(Arrival::Forward(port));
        Came::Forward(port, input, output)
    }
}

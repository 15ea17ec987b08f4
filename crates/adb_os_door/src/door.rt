//! The door of a server, and its bell.

ghost use Rattle.std.specs.Prelude.{◌≡◌, false, IfOk, IfSome};
ghost use Rattle.adb_connections.specs.Door.{FitsCame, is_failed_came};

use crate::accept_queue::{AcceptQueue, Next};
use crate::deliveries::Deliveries;
use crate::listeners::{Listeners, OWN};
use adb_connections::{Bell, Came, Door};
use adb_os_sockets::{Ending, TcpDeviceIn, TcpDeviceOut, TcpIn, TcpOut, accepted};
use mio::Poll;
use std::alloc::{AllocError, Global};
use std::io;
use std::net::{Net, TcpListener, TcpStream};
use std::sync::{Arc, Wait};

/// The door of a server, at its own listener, those of its forwards, and the deliveries of its
/// dialers. If an allocation fails, the connection is closed, and the door waits for the next.
/// Contracts do not see which connections and devices come.
#[derive(Drop)]
pub struct TcpDoor<W: Wait + Drop> {
    rt: W,
    alloc: Global,
    queue: AcceptQueue,
    listeners: Arc<Listeners, Global>,
    faults: u64,
}

/// The bell of a `TcpDoor`. After it has rung, writes to peers that do not read fail.
#[derive(Drop)]
pub struct TcpBell {
    listeners: Arc<Listeners, Global>,
}

/// A door with its bell, and the listeners that they share with the binders of the same server.
#[derive(Drop)]
pub struct Entrance<W: Wait + Drop> {
    pub door: TcpDoor<W>,
    pub bell: TcpBell,
    pub listeners: Arc<Listeners, Global>,
}

impl<W: Net<Listener = TcpListener, Stream = TcpStream> + Wait + Drop> Entrance<W> {
    /// Makes the door at a listener, and its bell. The bell sets `ending` when it rings. The door
    /// takes the devices of the deliveries, which are open from then on.
    ///
    /// Fails if the system refuses a descriptor, or if an allocation fails. The listener is then
    /// closed.
    pub fn new(
        rt: W,
        alloc: Global,
        own: TcpListener,
        ending: &Ending,
        deliveries: &Option<Arc<Deliveries, Global>>,
    ) -> io::Result<Entrance<W>>
        ensures { IfOk result (λ made. made.door.faults ≡ 0) }
    {
        let poll = Poll::new(&rt)?;
        let registry = poll.registry().try_clone()?;
        let listeners = Listeners::new(alloc, registry, own, ending.share()?)?;
        let listeners = Arc::new(alloc, listeners)?;
        let deliveries = match deliveries {
            Some(deliveries) => Some(opened(&rt, deliveries, &listeners)?),
            None => None,
        };
        let queue = AcceptQueue::new(alloc, poll, Arc::try_clone(&listeners)?, deliveries)?;
        let door = TcpDoor {
            rt,
            alloc,
            queue,
            listeners: Arc::try_clone(&listeners)?,
            faults: 0,
        };
        let bell = TcpBell {
            listeners: Arc::try_clone(&listeners)?,
        };
        Ok(Entrance {
            door,
            bell,
            listeners,
        })
    }
}

/// Opens deliveries for the door of these listeners, and returns another handle of them.
fn opened<W: Wait>(
    rt: &W,
    deliveries: &Arc<Deliveries, Global>,
    listeners: &Arc<Listeners, Global>,
) -> Result<Arc<Deliveries, Global>, AllocError> {
    let theirs = Arc::try_clone(deliveries)?;
    deliveries.open(rt, Arc::try_clone(listeners)?);
    Ok(theirs)
}

/// The answer of a `TcpDoor`.
type TcpCame = Came<TcpIn, TcpOut, TcpDeviceIn, TcpDeviceOut>;

impl<W: Wait + Drop> TcpDoor<W> {
    /// Returns how many calls of `accept` failed for lack of a descriptor or of memory.
    pub fn shortages(&self) -> u64 {
        self.queue.shortages()
    }

    /// Returns the next event at the listeners, and before it each connection that the lookout
    /// accepted.
    fn next(&mut self) -> Next
        ensures { self.new.faults ≡ self.old.faults }
    {
        if let Some(stream) = self.listeners.ending().lookout().take_early(&self.rt) {
            return Next::Came(OWN, stream);
        }
        let next = self.queue.next(&self.rt);
        self.listeners.ending().lookout().leave(&self.rt);
        next
    }

    /// Makes the two halves of a connection that came to a listener. If an allocation fails, the
    /// connection is closed.
    fn let_in(&self, number: u16, stream: TcpStream) -> Option<TcpCame>
        ensures { IfSome result (λ came. FitsCame came × (is_failed_came came ≡ false)) }
    {
        let (input, output) = accepted(self.alloc, stream, self.listeners.ending()).ok()?;
        input.enter(&self.rt);
        if number == OWN {
            return Some(Came::Port(input, output));
        }
        Some(Came::Forward(number, input, output))
    }
}

impl<W: Wait + Drop> Door for TcpDoor<W> {
    type In = TcpIn;

    type Out = TcpOut;

    type DeviceIn = TcpDeviceIn;

    type DeviceOut = TcpDeviceOut;

    ghost use Rattle.std.specs.Prelude.{None};

    ghost faults = { λ door. door.faults };

    ghost came = { λ door. None };

    ghost lasting = { λ door. ⊥ };

    ghost steady = { λ door. ⊥ };

    /// Returns `Closed` after the bell has rung, and `Failed` if the server's own listener is
    /// broken. A shortage of descriptors or of memory is no failure: the door continues.
    fn accept(&mut self) -> TcpCame {
        for _ in 0..u64::MAX {
            match self.next() {
                Next::Came(number, stream) => {
                    if let Some(came) = self.let_in(number, stream) {
                        return came;
                    }
                }
                Next::Device(device) => return Came::Device(device),
                Next::Nothing => {}
                Next::Over => return Came::Closed,
                Next::Broken => break,
            }
        }
        self.faults = self.faults.saturating_add(1);
        Came::Failed
    }
}

impl Bell for TcpBell {
    fn ring(&self) {
        self.listeners.ring();
    }
}

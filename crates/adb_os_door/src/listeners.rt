//! The listening sockets of a server, shared by its door, its bell and the binders of its clients.

use crate::forwards::{Candidate, Forwards};
use adb_os_sockets::{Ending, set_up_listener};
use mio::unix::SourceFd;
use mio::{Interest, Registry, Token, Waker};
use std::alloc::Global;
use std::io;
use std::net::{Ipv4Addr, Net, SocketAddr, TcpListener, TcpStream};
use std::os::fd::AsRawFd;
use std::sync::{Mutex, Wait};
use std::thread::Parker;
use std::time::Duration;

/// The number of the server's own listener. A forward's listener has the number of its port, which
/// is not 0.
pub const OWN: u16 = 0;

/// The token of the bell and of deliveries, which is no port number.
const BELL: usize = 65_536;

/// The listening sockets of a server, shared by its door, its bell and the binders of its clients.
/// None of them blocks: the door waits for all at once. A connection waits in the queue of its
/// listener, which takes no thread.
#[derive(Drop)]
pub struct Listeners {
    registry: Registry,
    waker: Waker,
    pause: Parker,
    ending: Ending,
    own: TcpListener,
    forwards: Mutex<Forwards>,
}

impl Listeners {
    /// Makes the listeners of a server that listens at `own`, for the door that polls the registry.
    /// No forward has a listener yet. The bell sets `ending` when it rings.
    ///
    /// Fails if the system refuses a descriptor for the bell, or refuses to watch the listener.
    pub fn new(
        alloc: Global,
        registry: Registry,
        own: TcpListener,
        ending: Ending,
    ) -> io::Result<Listeners> {
        own.set_nonblocking(true)?;
        set_up_listener(&own)?;
        watch(&registry, &own, OWN)?;
        let waker = Waker::new(&registry, Token(BELL))?;
        Ok(Listeners {
            registry,
            waker,
            pause: Parker::new(),
            ending,
            own,
            forwards: Mutex::new(Forwards::new(alloc)),
        })
    }

    /// Returns whether the server ends.
    pub fn is_over(&self) -> bool {
        self.ending.is_set()
    }

    /// Returns the flag that says whether the server ends.
    pub fn ending(&self) -> &Ending {
        &self.ending
    }

    /// Returns another descriptor of the server's own listener. Fails if none is left.
    pub fn spare(&self) -> io::Result<TcpListener> {
        self.own.try_clone()
    }

    /// Listens on a port of this machine, or on any free port if `port` is 0, and returns the port.
    /// A port with a listener is returned again. The caller has a claim to the listener until it
    /// calls `give_back`.
    ///
    /// Fails if the system refuses the port or a descriptor, or if an allocation fails. No listener
    /// is then added.
    pub fn bind<W: Net<Listener = TcpListener, Stream = TcpStream> + Wait>(
        &self,
        rt: &W,
        port: u16,
    ) -> io::Result<u16> {
        let mut forwards = self.forwards.lock(rt);
        if port != OWN && forwards.claim(port) {
            return Ok(port);
        }
        let listener = TcpListener::bind(rt, SocketAddr::from((Ipv4Addr::LOCALHOST, port)))?;
        listener.set_nonblocking(true)?;
        set_up_listener(&listener)?;
        let bound = listener.local_addr()?.port();
        watch(&self.registry, &listener, bound)?;
        forwards.add(bound, listener)?;
        Ok(bound)
    }

    /// Gives back a claim to the listener of a port.
    pub fn give_back<W: Wait>(&self, rt: &W, port: u16) {
        self.forwards.lock(rt).give_back(port);
    }

    /// Chooses the next listener without a claim, in rotation.
    pub fn choose<W: Wait>(&self, rt: &W) -> Option<Candidate> {
        self.forwards.lock(rt).choose()
    }

    /// Closes a listener that was chosen, unless it was claimed since then.
    pub fn close_unclaimed<W: Wait>(&self, rt: &W, candidate: Candidate) {
        self.forwards.lock(rt).close_unclaimed(candidate);
    }

    /// Accepts a connection at a listener. Fails with `WouldBlock` if none waits there, or if there
    /// is no such listener.
    pub fn accept<W: Wait>(&self, rt: &W, number: u16) -> io::Result<TcpStream> {
        if number == OWN {
            return Ok(self.own.accept()?.0);
        }
        let forwards = self.forwards.lock(rt);
        match forwards.listener(number) {
            Some(listener) => Ok(listener.accept()?.0),
            None => Err(io::Error::from(io::ErrorKind::WouldBlock)),
        }
    }

    /// Makes the door find a listener ready again if a connection waits there.
    pub fn watch_again<W: Wait>(&self, rt: &W, number: u16) -> io::Result<()> {
        if number == OWN {
            return watch_again(&self.registry, &self.own, OWN);
        }
        let forwards = self.forwards.lock(rt);
        match forwards.listener(number) {
            Some(listener) => watch_again(&self.registry, listener, number),
            None => Ok(()),
        }
    }

    /// Closes the listener of a forward.
    pub fn close<W: Wait>(&self, rt: &W, port: u16) {
        self.forwards.lock(rt).close(port);
    }

    /// Waits for a time, or until the bell rings. Only the door waits this way.
    pub fn pause<W: Wait>(&self, rt: &W, time: Duration) {
        if !self.is_over() {
            self.pause.park_timeout(rt, time);
        }
    }

    /// Wakes the door, which looks for a delivered device.
    pub fn wake(&self) {
        let _ = self.waker.wake();
    }

    /// Ends the server's accepts, and wakes the door. Only the first call does anything.
    pub fn ring(&self) {
        if self.ending.set() {
            let _ = self.waker.wake();
            self.pause.unpark();
        }
    }
}

/// Makes a registry report a listener under its number when a connection comes.
fn watch(registry: &Registry, listener: &TcpListener, number: u16) -> io::Result<()> {
    let token = Token(usize::from(number));
    let descriptor = listener.as_raw_fd();
    registry.register(&mut SourceFd(&descriptor), token, Interest::READABLE)
}

/// Makes a registry report a listener again if a connection waits there.
fn watch_again(registry: &Registry, listener: &TcpListener, number: u16) -> io::Result<()> {
    let token = Token(usize::from(number));
    let descriptor = listener.as_raw_fd();
    registry.reregister(&mut SourceFd(&descriptor), token, Interest::READABLE)
}

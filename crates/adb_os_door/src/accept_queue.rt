//! Accepted connections from all listeners of a server, and delivered devices.

use crate::deliveries::{Deliveries, TcpDevice};
use crate::listeners::{Listeners, OWN};
use crate::troubles::{Trouble, trouble_of};
use mio::{Events, Poll};
use std::alloc::Global;
use std::io;
use std::net::{TcpListener, TcpStream};
use std::sync::{Arc, Wait};
use std::time::Duration;

/// The first wait in milliseconds after a failed accept.
const FIRST_DELAY: u64 = 10;

/// The longest of these waits in milliseconds.
const MOST_DELAY: u64 = 1_000;

/// The next event at a door.
#[derive(Drop)]
pub enum Next {
    /// A connection that came to the listener with this number.
    Came(u16, TcpStream),
    /// A device that was delivered.
    Device(TcpDevice),
    /// No connection and no device yet.
    Nothing,
    /// The server ends.
    Over,
    /// The server's own listener accepts no more connections.
    Broken,
}

/// The connections that wait at the listeners of a server, taken from one listener after the other,
/// and the devices that dialers deliver. A device that is queued is taken first.
///
/// If no descriptor is left for a connection, the queue accepts the connection with the descriptor
/// that it keeps in reserve, closes it, and takes the reserve again. If that fails too, it waits,
/// twice as long each time.
#[derive(Drop)]
pub struct AcceptQueue {
    listeners: Arc<Listeners, Global>,
    deliveries: Option<Arc<Deliveries, Global>>,
    poll: Poll,
    events: Events,
    reserve: Option<TcpListener>,
    /// The listener that was found ready. It is found ready again only if it is watched again, or
    /// if a connection comes after an accept that found none.
    ready: Option<u16>,
    delay: u64,
    shortages: u64,
}

impl AcceptQueue {
    /// Makes the queue of these listeners, which are in the registry of `poll`, and of these
    /// deliveries.
    ///
    /// Fails if an allocation fails.
    pub fn new(
        alloc: Global,
        poll: Poll,
        listeners: Arc<Listeners, Global>,
        deliveries: Option<Arc<Deliveries, Global>>,
    ) -> io::Result<AcceptQueue> {
        let reserve = listeners.spare().ok();
        Ok(AcceptQueue {
            listeners,
            deliveries,
            poll,
            events: Events::with_capacity(alloc, 1)?,
            reserve,
            ready: None,
            delay: FIRST_DELAY,
            shortages: 0,
        })
    }

    /// Returns how many calls of `accept` failed for lack of a descriptor or of memory.
    pub fn shortages(&self) -> u64 {
        self.shortages
    }

    /// Waits for the next connection or device, for a shortage to pass, or for the bell.
    pub fn next<W: Wait>(&mut self, rt: &W) -> Next {
        if self.listeners.is_over() {
            return Next::Over;
        }
        if let Some(device) = self.delivered(rt) {
            return Next::Device(device);
        }
        let Some(number) = self.ready else {
            return self.wait();
        };
        match self.listeners.accept(rt, number) {
            Ok(stream) => self.took(rt, number, stream),
            Err(error) => self.missed(rt, number, &error),
        }
    }

    /// Takes a device that was delivered.
    fn delivered<W: Wait>(&self, rt: &W) -> Option<TcpDevice> {
        self.deliveries.as_ref()?.take(rt)
    }

    /// Waits until a listener is ready, a device is delivered, or the bell rings.
    fn wait(&mut self) -> Next {
        if self.reserve.is_none() {
            self.reserve = self.listeners.spare().ok();
        }
        if self.poll.poll(&mut self.events, None).is_err() {
            return Next::Broken;
        }
        self.ready = match self.events.iter().next() {
            Some(event) => u16::try_from(event.token().0).ok(),
            None => None,
        };
        Next::Nothing
    }

    /// Notes that a connection came. Watches the listener again, which takes less time than an
    /// accept that finds none, and gives the other listeners their turn.
    fn took<W: Wait>(&mut self, rt: &W, number: u16, stream: TcpStream) -> Next {
        self.delay = FIRST_DELAY;
        if self.listeners.watch_again(rt, number).is_ok() {
            self.ready = None;
        }
        Next::Came(number, stream)
    }

    /// Handles an error of `accept`.
    fn missed<W: Wait>(&mut self, rt: &W, number: u16, error: &io::Error) -> Next {
        match trouble_of(error) {
            Trouble::Passing => Next::Nothing,
            Trouble::Empty => {
                self.ready = None;
                Next::Nothing
            }
            Trouble::Shortage => {
                self.shortages = self.shortages.saturating_add(1);
                self.refuse(rt, number)
            }
            Trouble::Lasting if number == OWN => Next::Broken,
            Trouble::Lasting => {
                self.listeners.close(rt, number);
                self.ready = None;
                Next::Nothing
            }
        }
    }

    /// Accepts a connection with the descriptor in reserve and closes it. Waits if that fails too.
    fn refuse<W: Wait>(&mut self, rt: &W, number: u16) -> Next {
        self.reserve = None;
        let refused = self.listeners.accept(rt, number);
        let trouble = match &refused {
            Ok(_) => Trouble::Passing,
            Err(error) => trouble_of(error),
        };
        drop(refused);
        self.reserve = self.listeners.spare().ok();
        match trouble {
            Trouble::Empty => self.ready = None,
            Trouble::Passing => {}
            Trouble::Shortage | Trouble::Lasting => {
                self.listeners.pause(rt, Duration::from_millis(self.delay));
                self.delay = self.delay.saturating_mul(2).min(MOST_DELAY);
            }
        }
        Next::Nothing
    }
}

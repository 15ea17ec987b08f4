//! Devices that dialers hand over to the door of a server.

use crate::listeners::Listeners;
use adb_connections::Device;
use adb_os_sockets::{Ending, TcpDeviceIn, TcpDeviceOut};
use std::alloc::{AllocError, Global};
use std::collections::VecDeque;
use std::sync::atomic::{AtomicBool, Ordering};
use std::sync::{Arc, Condvar, Mutex, Wait};

/// A device that is connected at a port of this machine.
pub type TcpDevice = Device<TcpDeviceIn, TcpDeviceOut>;

/// The queue between the dialers of a server and its door.
///
/// A dialer has at most one device at a time, so the queue has one place for each dialer and
/// allocates nothing after it is made. Its lock is held only to look and to move a device, never
/// over a system call that can block.
#[derive(Drop)]
pub struct Deliveries {
    ending: Ending,
    /// Whether a device is queued. The door reads it before it takes the lock.
    waiting: AtomicBool,
    queue: Mutex<Queue>,
    /// Notified when the door opens and when the server ends.
    changed: Condvar,
}

/// The devices that are queued, and the listeners of the door that takes them, if it is open.
#[derive(Drop)]
struct Queue {
    door: Option<Arc<Listeners, Global>>,
    devices: VecDeque<TcpDevice>,
}

impl Queue {
    /// Queues a device. Returns whether the door is open and has a place for it; otherwise the
    /// device is dropped.
    fn put(&mut self, device: TcpDevice) -> bool {
        if self.door.is_none() || self.devices.len() >= self.devices.capacity() {
            return false;
        }
        self.devices.push_back_reserved(device);
        true
    }

    fn wake_door(&self) {
        if let Some(door) = &self.door {
            door.wake();
        }
    }
}

impl Deliveries {
    /// Makes an empty queue with this number of places. The door is not open yet. `ending` is the
    /// flag that says whether the server ends.
    ///
    /// Fails if an allocation fails.
    pub fn new(alloc: Global, ending: Ending, places: usize) -> Result<Deliveries, AllocError> {
        Ok(Deliveries {
            ending,
            waiting: AtomicBool::new(false),
            queue: Mutex::new(Queue {
                door: None,
                devices: VecDeque::with_capacity(alloc, places)?,
            }),
            changed: Condvar::new(),
        })
    }

    /// Returns the flag that says whether the server ends.
    pub fn ending(&self) -> &Ending {
        &self.ending
    }

    /// Opens the door with these listeners: it takes the devices from now on.
    pub fn open<W: Wait>(&self, rt: &W, door: Arc<Listeners, Global>) {
        self.queue.lock(rt).door = Some(door);
        self.changed.notify_all();
    }

    /// Waits until the door is open or the server ends. Returns whether the server goes on.
    pub fn wait_open<W: Wait>(&self, rt: &W) -> bool {
        let queue = self.changed.wait_while(rt, self.queue.lock(rt), |queue| {
            queue.door.is_none() && !self.ending.is_set()
        });
        drop(queue);
        !self.ending.is_set()
    }

    /// Queues a device and wakes the door. The device is dropped if the door is not open or has no
    /// place for it.
    pub fn deliver<W: Wait>(&self, rt: &W, device: TcpDevice) {
        let mut queue = self.queue.lock(rt);
        if queue.put(device) {
            self.waiting.store(true, Ordering::SeqCst);
            queue.wake_door();
        }
    }

    /// Takes the device that was queued first.
    pub fn take<W: Wait>(&self, rt: &W) -> Option<TcpDevice> {
        if !self.waiting.load(Ordering::SeqCst) {
            return None;
        }
        let mut queue = self.queue.lock(rt);
        let device = queue.devices.pop_front();
        self.waiting
            .store(!queue.devices.is_empty(), Ordering::SeqCst);
        device
    }

    /// Ends the server for its dialers: the door takes no device any more, and those that are
    /// queued are dropped.
    pub fn close<W: Wait>(&self, rt: &W) {
        self.ending.set();
        let mut queue = self.queue.lock(rt);
        queue.door = None;
        queue.devices.clear();
        drop(queue);
        self.changed.notify_all();
    }
}

//! The bytes that a client or a device is sent, for a test to read.

ghost use Rattle.std.specs.Prelude.{◌≡◌, ◌++◌, false, true};
ghost use Rattle.adb_outside.specs.Outside.{Counts};
ghost use Rattle.adb_outside.specs.Sink.{FitsPiece, is_failed_write};

use adb_connections::{DeviceOut, PortOut};
use adb_outside::{Failing, Text, Wrote};
use std::alloc::{AllocError, Global};
use std::marker::Model;
use std::sync::{Arc, Mutex, Wait};

/// The bytes that were sent so far, and whether those are all.
#[derive(Drop)]
struct Store {
    bytes: Text,
    closed: bool,
}

/// A handle of the bytes that a client or a device is sent. Any thread may read them.
#[derive(Drop)]
pub struct Sent<W: Wait + Copy + Drop> {
    rt: W,
    store: Arc<Mutex<Store>, Global>,
}

impl<W: Wait + Copy + Drop> Sent<W> {
    /// Makes an empty store.
    pub fn new(rt: W, alloc: Global) -> Result<Sent<W>, AllocError> {
        let store = Store {
            bytes: Text::new(alloc),
            closed: false,
        };
        Ok(Sent {
            rt,
            store: Arc::new(alloc, Mutex::new(store))?,
        })
    }

    /// Returns one more handle of the same store.
    pub fn handle(&self) -> Result<Sent<W>, AllocError> {
        Ok(Sent {
            rt: self.rt,
            store: Arc::try_clone(&self.store)?,
        })
    }

    /// Returns whether the output was closed or unplugged.
    pub fn is_closed(&self) -> bool {
        self.store.lock(&self.rt).closed
    }

    /// Returns whether exactly these bytes were sent.
    pub fn holds(&self, bytes: &[u8]) -> bool {
        self.store.lock(&self.rt).bytes.as_slice() == bytes
    }

    /// Sends two parts, the first before the second. Returns whether the allocation for both
    /// succeeded.
    pub(crate) fn push(&self, start: &[u8], rest: &[u8]) -> bool {
        let mut store = self.store.lock(&self.rt);
        let len = store.bytes.len();
        let went = store.bytes.push_slice(start).is_ok() && store.bytes.push_slice(rest).is_ok();
        if !went {
            store.bytes.truncate(len);
        }
        went
    }

    /// Marks the output as closed.
    pub(crate) fn close(&self) {
        self.store.lock(&self.rt).closed = true;
    }
}

/// The output of a client or a device. Contracts do not see its bytes; `Sent` shows them.
#[derive(Drop)]
pub struct SharedOut<W: Wait + Copy + Drop> {
    sent: Sent<W>,
    closed: bool,
    failing: Failing,
}

impl<W: Wait + Copy + Drop> Model for SharedOut<W> {
    ghost use Rattle.adb_fakes.specs.Fakes.{SharedEnd};

    ghost Value = { SharedEnd };

    ghost view = { λ out. record { closed = out.closed; faults = out.failing.faults } };
}

impl<W: Wait + Copy + Drop> SharedOut<W> {
    /// Makes an output. Its writes fail at the calls in `failing`, by their numbers, counted from
    /// 1, and at an allocation failure. A failing write takes nothing. A write in two parts is one
    /// call.
    pub fn new(sent: Sent<W>, failing: Vec<u64>) -> SharedOut<W>
        ensures { result ≡ record { closed = false; faults = 0 } }
    {
        SharedOut {
            sent,
            closed: false,
            failing: Failing::new(failing),
        }
    }

    fn push(&mut self, start: &[u8], rest: &[u8]) -> Wrote
        ensures told { FitsPiece (start.now ++ rest.now) result }
        ensures counts { Counts (λ out. ⊥) (λ out. out.faults)
            self.old self.new (is_failed_write result) }
        ensures closed { self.new.closed ≡ self.old.closed }
    {
        if self.failing.fails() {
            return Wrote::Failed { taken: 0 };
        }
        if self.sent.push(start, rest) {
            return Wrote::All;
        }
        self.failing.count_fault();
        Wrote::Failed { taken: 0 }
    }

    fn shut(&mut self)
        ensures { self.new ≡ record self.old { closed = true } }
    {
        self.closed = true;
        self.sent.close();
    }
}

impl<W: Wait + Copy + Drop> PortOut for SharedOut<W> {
    ghost use Rattle.std.specs.Prelude.{None};

    ghost faults = { λ out. out.faults };

    ghost written = { λ out. None };

    ghost closed = { λ out. out.closed };

    ghost steady = { λ out. ⊥ };

    fn write(&mut self, piece: &[u8]) -> Wrote {
        self.push(&[], piece)
    }

    fn write_both(&mut self, start: &[u8], rest: &[u8]) -> Wrote {
        self.push(start, rest)
    }

    fn close(&mut self) {
        self.shut();
    }
}

impl<W: Wait + Copy + Drop> DeviceOut for SharedOut<W> {
    ghost use Rattle.std.specs.Prelude.{None};

    ghost faults = { λ out. out.faults };

    ghost written = { λ out. None };

    ghost closed = { λ out. out.closed };

    ghost steady = { λ out. ⊥ };

    fn write(&mut self, piece: &[u8]) -> Wrote {
        self.push(&[], piece)
    }

    fn write_both(&mut self, start: &[u8], rest: &[u8]) -> Wrote {
        self.push(start, rest)
    }

    fn unplug(&mut self) {
        self.shut();
    }
}

//! Streams of the system as sources and sinks.

ghost use Rattle.std.specs.Prelude.{◌≡◌};
ghost use Rattle.adb_outside.specs.Outside.{counted_on};

use adb_outside::{Got, Sink, Source, Wrote};
use std::io::{ErrorKind, Read, Write};

/// A stream of the system: a source if it can be read, a sink if it can be written. It shows none
/// of the bytes that pass through, and counts each call that fails. An interrupted call is made
/// again.
#[derive(Drop)]
pub struct Stream<T> {
    inner: T,
    faults: u64,
}

impl<T> Stream<T> {
    /// Returns a stream of which no call failed yet.
    pub fn new(inner: T) -> Stream<T>
        ensures { result.faults ≡ 0 }
    {
        Stream { inner, faults: 0 }
    }

    fn count_fault(&mut self)
        ensures { self.new.faults ≡ counted_on self.old.faults }
    {
        self.faults = self.faults.saturating_add(1);
    }
}

impl<R: Read> Source for Stream<R> {
    ghost use Rattle.std.specs.Prelude.{None};

    ghost faults = { λ s. s.faults };

    ghost left = { λ s. None };

    ghost steady = { λ s. ⊥ };

    fn read(&mut self, into: &mut [u8]) -> Got {
        for _ in 0..u64::MAX {
            match self.inner.read(into) {
                Ok(0) => return Got::End,
                Ok(count) => return Got::Bytes(count),
                Err(error) if error.kind() == ErrorKind::Interrupted => {}
                Err(_) => break,
            }
        }
        self.count_fault();
        Got::Failed
    }
}

impl<W: Write> Sink for Stream<W> {
    ghost use Rattle.std.specs.Prelude.{None};

    ghost faults = { λ s. s.faults };

    ghost written = { λ s. None };

    ghost steady = { λ s. ⊥ };

    fn write(&mut self, piece: &[u8]) -> Wrote {
        let mut taken = 0;
        for _ in 0..u64::MAX {
            match self.inner.write(&piece[taken..]) {
                Ok(0) => break,
                Ok(count) => taken += count,
                Err(error) if error.kind() == ErrorKind::Interrupted => {}
                Err(_) => break,
            }
            if taken == piece.len() {
                return Wrote::All;
            }
        }
        self.count_fault();
        Wrote::Failed { taken }
    }
}

//! A sink that never fails.

use crate::sink::{Sink, Wrote};

/// A sink that takes all bytes and shows none of them. It never fails.
#[derive(Drop)]
pub struct NeverSink {}

impl NeverSink {
    /// Returns a sink. Allocates nothing.
    pub fn new() -> NeverSink {
        NeverSink {}
    }
}

impl Sink for NeverSink {
    ghost use Rattle.std.specs.Prelude.{None};

    ghost faults = { λ s. 0 };

    ghost written = { λ s. None };

    ghost steady = { λ s. Unit {0} };

    fn write(&mut self, _piece: &[u8]) -> Wrote {
        Wrote::All
    }
}

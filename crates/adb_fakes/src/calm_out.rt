//! An output that never fails.

ghost use Rattle.std.specs.Prelude.{◌≡◌};

use crate::sent::Sent;
use adb_connections::PortOut;
use adb_outside::Wrote;
use std::marker::Model;
use std::sync::Wait;

/// The output of a connection that never fails. The bytes that it is sent go to a store that a test
/// reads. Without a store, and if an allocation for the store fails, they are discarded.
#[derive(Drop)]
pub struct CalmOut<W: Wait + Copy + Drop> {
    sent: Option<Sent<W>>,
    closed: bool,
}

impl<W: Wait + Copy + Drop> Model for CalmOut<W> {
    ghost use Rattle.std.specs.Prelude.{Bool};

    ghost Value = { Bool };

    ghost view = { λ out. out.closed };
}

impl<W: Wait + Copy + Drop> CalmOut<W> {
    /// Returns an output that is not closed.
    pub fn new(sent: Option<Sent<W>>) -> CalmOut<W> {
        CalmOut {
            sent,
            closed: false,
        }
    }

    fn keep(&self, start: &[u8], rest: &[u8]) {
        if let Some(sent) = &self.sent {
            let _ = sent.push(start, rest);
        }
    }
}

impl<W: Wait + Copy + Drop> PortOut for CalmOut<W> {
    ghost use Rattle.std.specs.Prelude.{None, ⊤};

    ghost faults = { λ out. 0 };

    ghost written = { λ out. None };

    ghost closed = { λ out. out };

    ghost steady = { λ out. ⊤ };

    fn write(&mut self, piece: &[u8]) -> Wrote {
        self.keep(&[], piece);
        Wrote::All
    }

    fn write_both(&mut self, start: &[u8], rest: &[u8]) -> Wrote {
        self.keep(start, rest);
        Wrote::All
    }

    fn close(&mut self) {
        self.closed = true;
        if let Some(sent) = &self.sent {
            sent.close();
        }
    }
}

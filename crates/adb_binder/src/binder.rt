//! Binders of the ports of forwards.

/// The result of binding a port.
#[derive(Clone, Copy, Debug, PartialEq, Eq, Drop)]
pub enum Binding {
    /// The port, which is not 0, is bound.
    Bound(u16),
    /// The port could not be bound.
    Failed,
}

/// A binder of the ports of forwards.
pub trait Binder {
    ghost use Rattle.std.specs.Prelude.{◌≡◌, ℕ, List, Option, None, false};
    ghost use Rattle.adb_outside.specs.Outside.{Counts, TellsOneMore};
    ghost use Rattle.adb_binder.specs.Binder.{Closes, FitsPort, port_of, is_failed_bind};

    /// The number of calls that failed. A count at its largest value counts as having risen.
    ghost faults: { Self → ℕ };

    /// Each port that was asked for with the port that was answered, 0 if the call failed, in
    /// order, if the binder shows them.
    ghost answered: { Self → Option (List (ℕ × ℕ)) };

    /// Each port whose listener was closed, in order, if the binder shows them.
    ghost closed: { Self → Option (List ℕ) } = { λ binder. None };

    /// No call fails.
    ghost steady: { Self → Type 0 };

    /// Binds a port, or any port if `port` is 0. A port that is already bound is answered again.
    /// The count of faults rises at `Failed` and is unchanged at every other answer.
    fn bind(&mut self, port: u16) -> Binding
        ensures fits { FitsPort port result }
        ensures told { TellsOneMore (answered self.old) (port, port_of result) (answered self.new) }
        ensures counts { Counts steady faults self.old self.new (is_failed_bind result) };

    /// Returns the port of the next listener that may be closed if no forward has its port, or
    /// `None` if there is none. The caller has reported each port that `bind` answered, so the
    /// listeners of these ports are candidates too. The default body returns `None`.
    fn candidate(&mut self) -> Option<u16>
        ensures told { answered self.new ≡ answered self.old }
        ensures counts { Counts steady faults self.old self.new false }
        ensures open { closed self.new ≡ closed self.old }
    {
        None
    }

    /// Closes the listener of a port that `candidate` returned last, unless `bind` answered that
    /// port again since then. The default body closes nothing.
    fn close(&mut self, port: u16)
        ensures told { answered self.new ≡ answered self.old }
        ensures counts { Counts steady faults self.old self.new false }
        ensures closes { Closes (closed self.old) port (closed self.new) }
    {
        let _ = port;
    }
}

//! Flow control by one write each way (protocol.txt).

ghost use Rattle.std.specs.Prelude.{◌≡◌, ◌-◌, ◌≤◌, ◌<◌, not, true, false, IsTrue, ◌↔◌};
ghost use Rattle.adb_stream.specs.Window.{new_window, WindowTakes};

use crate::flow::Took;
use std::marker::Model;

/// Flow control by one write each way (protocol.txt, OKAY and WRTE): after a WRTE the next one
/// waits for an OKAY, and a WRTE of the other end is acknowledged once its bytes were handed out.
/// Both ends of a stream have one. Contracts see whether a WRTE is outstanding, and how many bytes
/// are still to be handed out. No call allocates.
#[derive(Clone, Copy, Drop)]
pub struct Window {
    outstanding: bool,
    to_hand: usize,
}

impl Model for Window {
    ghost use Rattle.adb_stream.specs.Window.{OneWrite};

    ghost Value = { OneWrite };

    ghost view = { λ w. record { outstanding = w.outstanding; to_hand = w.to_hand } };

    ghost inverse = { λ w. record { outstanding = w.outstanding; to_hand = w.to_hand } };
}

impl Window {
    /// Returns the initial window: no WRTE is outstanding, and no bytes are to be handed out.
    pub fn new() -> Window
        ensures { result ≡ new_window }
    {
        Window {
            outstanding: false,
            to_hand: 0,
        }
    }

    /// Returns whether a WRTE may be sent: none is outstanding.
    pub fn can_write(&self) -> bool
        ensures { result ≡ not self.now.outstanding }
    {
        !self.outstanding
    }

    /// Records that a WRTE was sent while none was outstanding.
    pub fn wrote(&mut self)
        requires { self.old.outstanding ≡ false }
        ensures { self.new ≡ record self.old { outstanding = true } }
    {
        self.outstanding = true;
    }

    /// Records that an OKAY came. Returns whether a WRTE was outstanding; none is afterwards.
    pub fn acked(&mut self) -> bool
        ensures was { result ≡ self.old.outstanding }
        ensures after { self.new ≡ record self.old { outstanding = false } }
    {
        let was = self.outstanding;
        self.outstanding = false;
        was
    }

    /// Records that a WRTE of `n` bytes came. It is out of turn exactly if bytes are still to be
    /// handed out, and then nothing changes. Otherwise its bytes are to be handed out; an empty one
    /// is acknowledged now.
    pub fn took(&mut self, n: usize) -> Took
        ensures { WindowTakes self.old n self.new result }
    {
        if self.to_hand > 0 {
            return Took::OutOfTurn;
        }
        self.to_hand = n;
        if n == 0 { Took::AckNow } else { Took::Accepted }
    }

    /// Returns how many bytes are still to be handed out.
    pub fn to_hand(&self) -> usize
        ensures { result ≡ self.now.to_hand }
    {
        self.to_hand
    }

    /// Records that `n` bytes were handed out, at least one and no more than were to be. Returns
    /// whether none are left, so that the WRTE is acknowledged now.
    pub fn handed(&mut self, n: usize) -> bool
        requires some { 0 < n }
        requires most { n ≤ self.old.to_hand }
        ensures last { IsTrue result ↔ (self.new.to_hand ≡ 0) }
        ensures after { self.new ≡ record self.old { to_hand = self.old.to_hand - n } }
    {
        self.to_hand -= n;
        self.to_hand == 0
    }
}

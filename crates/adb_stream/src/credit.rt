//! A credit in bytes.

ghost use Rattle.std.specs.Prelude.{◌≡◌, ◌+◌, ◌-◌, ◌≤◌, ◌<◌, min};
ghost use Rattle.adb_stream.specs.Credit.{IsWhole, new_credit, CreditTakes, given_back};

use crate::flow::Took;
use std::marker::Model;

/// The number of bytes that each end may send before it gets credit back.
pub const CREDIT_WINDOW: u32 = 262_144;

/// The number of handed-out bytes that are given back at once, while more are still to be handed
/// out.
pub const CREDIT_STEP: u32 = 65_536;

/// States the numbers that definitions take from the code.
pub fn limits_are()
    ensures window { CREDIT_WINDOW ≡ 262144 }
    ensures step { CREDIT_STEP ≡ 65536 }
{}

/// A credit in bytes, on a link with two ends that name the feature `hub_credit`, which is this
/// project's own: a WRTE holds no more bytes than there is credit, and an OKAY gives credit for
/// more. Contracts see the credit to send, the credit that the other end has left, how many bytes
/// are still to be handed out, and how many were handed out and not given back yet. No call
/// allocates.
#[derive(Clone, Copy, Drop)]
pub struct Credit {
    to_send: u32,
    left: u32,
    to_hand: u32,
    gathered: u32,
}

impl Model for Credit {
    ghost use Rattle.adb_stream.specs.Credit.{ByteCredit, IsWhole};

    ghost Value = { ByteCredit };

    ghost use Rattle.adb_stream.specs.Held.{seen, held};

    ghost view = { seen };

    ghost invariant = { λ c. IsWhole (seen c) };

    ghost inverse = { held };
}

impl Credit {
    /// Returns the initial credit: nothing may be sent yet, and the other end may send the whole
    /// window.
    pub fn new() -> Credit
        ensures { result ≡ new_credit }
    {
        Credit {
            to_send: 0,
            left: CREDIT_WINDOW,
            to_hand: 0,
            gathered: 0,
        }
    }

    /// Returns how many bytes may be sent.
    pub fn can_send(&self) -> u32
        ensures sendable { result ≡ self.now.to_send }
        ensures whole { IsWhole self.now }
    {
        self.to_send
    }

    /// Records that a WRTE of `n` bytes was sent, for which there was credit.
    pub fn sent(&mut self, n: u32)
        requires { n ≤ self.old.to_send }
        ensures { self.new ≡ record self.old { to_send = self.old.to_send - n } }
    {
        self.to_send -= n;
    }

    /// Records that an OKAY gave credit for `n` more bytes; the credit saturates at 4,294,967,295.
    pub fn grant(&mut self, n: u32)
        ensures { self.new ≡ record self.old { to_send = min (self.old.to_send + n) u32.MAX } }
    {
        self.to_send = self.to_send.saturating_add(n);
    }

    /// Records that a WRTE of `n` bytes came. It is out of turn exactly if it has more bytes than
    /// credit is left, and then nothing changes. Otherwise its bytes are to be handed out, and no
    /// acknowledgement is due yet.
    pub fn took(&mut self, n: usize) -> Took
        ensures took { CreditTakes self.old n self.new result }
        ensures whole { IsWhole self.new }
    {
        if n > self.left as usize {
            return Took::OutOfTurn;
        }
        self.left -= n as u32;
        self.to_hand += n as u32;
        Took::Accepted
    }

    /// Returns how many bytes are still to be handed out.
    pub fn to_hand(&self) -> usize
        ensures { result ≡ self.now.to_hand }
    {
        self.to_hand as usize
    }

    /// Records that `n` bytes were handed out, at least one and no more than were to be. Returns
    /// the credit to give back now. Handed-out bytes accumulate until none are still to be handed
    /// out, or there are 65,536 of them.
    pub fn handed(&mut self, n: usize) -> u32
        requires some { 0 < n }
        requires most { n ≤ self.old.to_hand }
        ensures given { result ≡ given_back (self.old.to_hand - n) (self.old.gathered + n) }
        ensures after { self.new ≡ record self.old {
          left = self.old.left + result;
          to_hand = self.old.to_hand - n;
          gathered = self.old.gathered + n - result;
        } }
        ensures whole { IsWhole self.new }
    {
        let to_hand = self.to_hand - n as u32;
        let gathered = self.gathered + n as u32;
        let back = if to_hand > 0 && gathered < CREDIT_STEP {
            0
        } else {
            gathered
        };
        self.to_hand = to_hand;
        self.gathered = gathered - back;
        self.left += back;
        back
    }
}

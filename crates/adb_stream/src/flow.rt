//! The bytes that an end of a stream may send, and those that it has taken.

ghost use Rattle.std.specs.Prelude.{◌≡◌, ◌<◌, not, true, false};

use crate::credit::Credit;
use crate::window::Window;

/// The result of a WRTE that came.
#[derive(Clone, Copy, Debug, PartialEq, Eq, Drop)]
pub enum Took {
    /// Its bytes are to be handed out.
    Accepted,
    /// The WRTE is acknowledged now.
    AckNow,
    /// The WRTE came before the other end was allowed to send it, so the stream ends.
    OutOfTurn,
}

/// The flow control of a stream: one write each way, or a credit in bytes. No call allocates.
#[derive(Clone, Copy, Drop)]
pub enum Flow {
    /// One write each way, as in protocol.txt.
    One(Window),
    /// A credit in bytes, if both ends of the link name the feature `hub_credit`.
    Credit(Credit),
}

impl Flow {
    ghost use Rattle.adb_stream.specs.Flow.{new_flow, has_credit, may_send, can_send, is_idle};
    ghost use Rattle.adb_stream.specs.Flow.{LetsGo, wrote, first_credit, acknowledged};
    ghost use Rattle.adb_stream.specs.Flow.{is_out_of_turn, accepted, to_hand, flow_back, handed_to};

    /// Returns the initial state, on a link with or without credit in bytes.
    pub fn new(credit: bool) -> Flow
        ensures { result ≡ new_flow credit }
    {
        if credit {
            Flow::Credit(Credit::new())
        } else {
            Flow::One(Window::new())
        }
    }

    /// Returns whether this is a credit in bytes.
    pub fn has_credit(&self) -> bool
        ensures { result ≡ has_credit self.now }
    {
        match self {
            Flow::One(_) => false,
            Flow::Credit(_) => true,
        }
    }

    /// Returns how many bytes may be sent now, if a write may have at most `most`.
    pub fn may_send(&self, most: usize) -> usize
        ensures { result ≡ may_send self.now most }
    {
        match self {
            Flow::One(window) if window.can_write() => most,
            Flow::One(_) => 0,
            Flow::Credit(credit) => credit.can_send() as usize,
        }
    }

    /// Returns whether a non-empty write may be sent now.
    pub fn can_send(&self) -> bool
        ensures { result ≡ can_send self.now }
    {
        match self {
            Flow::One(window) => window.can_write(),
            Flow::Credit(credit) => credit.can_send() > 0,
        }
    }

    /// Returns whether no write waits for its OKAY.
    pub fn is_idle(&self) -> bool
        ensures { result ≡ is_idle self.now }
    {
        match self {
            Flow::One(window) => window.can_write(),
            Flow::Credit(_) => true,
        }
    }

    /// Records that a write of `n` bytes was sent, which was allowed.
    pub fn wrote(&mut self, n: usize)
        requires { LetsGo self.old n }
        ensures { self.new ≡ wrote n self.old }
    {
        match self {
            Flow::One(window) => window.wrote(),
            Flow::Credit(credit) => credit.sent(n.min(credit.can_send() as usize) as u32),
        }
    }

    /// Records that the other end opened the stream, with or without a credit word.
    pub fn opened(&mut self, word: Option<u32>)
        ensures { self.new ≡ first_credit word self.old }
    {
        match self {
            Flow::One(_) => {}
            Flow::Credit(credit) => {
                let before = credit.can_send();
                credit.sent(before);
                credit.grant(word.unwrap_or(0));
            }
        }
    }

    /// Records an OKAY of the open stream, with or without a credit word: it acknowledges the
    /// outstanding write, or adds credit.
    pub fn acked(&mut self, word: Option<u32>)
        ensures { self.new ≡ acknowledged word self.old }
    {
        match self {
            Flow::One(window) => {
                window.acked();
            }
            Flow::Credit(credit) => {
                if let Some(n) = word {
                    credit.grant(n);
                }
            }
        }
    }

    /// Records that a write of `n` bytes came. Returns whether it came in turn; its bytes are to be
    /// handed out then, and otherwise nothing changes.
    pub fn accept(&mut self, n: usize) -> bool
        ensures turn { result ≡ not (is_out_of_turn self.old n) }
        ensures flow { result ≡ true → self.new ≡ accepted n self.old }
        ensures stays { result ≡ false → self.new ≡ self.old }
    {
        match self {
            Flow::One(window) => window.took(n) != Took::OutOfTurn,
            Flow::Credit(credit) => credit.took(n) != Took::OutOfTurn,
        }
    }

    /// Returns how many of the accepted bytes are still to be handed out.
    pub fn to_hand(&self) -> usize
        ensures { result ≡ to_hand self.now }
    {
        match self {
            Flow::One(window) => window.to_hand(),
            Flow::Credit(credit) => credit.to_hand(),
        }
    }

    /// Records that `left` bytes, fewer than before, are left to be handed out. Returns the credit
    /// to give back now.
    pub fn hand_to(&mut self, left: usize) -> u32
        requires { left < to_hand self.old }
        ensures back { result ≡ flow_back left self.old }
        ensures after { self.new ≡ handed_to left self.old }
    {
        match self {
            Flow::One(window) => {
                window.handed(window.to_hand() - left);
                0
            }
            Flow::Credit(credit) => credit.handed(credit.to_hand() - left),
        }
    }
}

//! The reason why a stream ended.

ghost use Rattle.std.specs.Prelude.{◌≡◌};
ghost use Rattle.adb_history.specs.Ending.{ending_text};

use adb_outside::Cause;
use std::fmt;

/// The cause by which a stream ended. `Display` prints it as a user of adb would say it.
#[derive(Clone, Copy, Debug, PartialEq, Eq, Drop)]
pub enum Ending {
    /// The client closed its connection, and all that it wrote was sent to the device.
    ClientClosed,
    /// The device closed the stream, or refused to open it.
    PeerClosed,
    /// The device wrote before the server had acknowledged its last write.
    OutOfTurn,
    /// The link to the device was lost, or the device started it anew.
    Lost,
    /// The device broke the protocol, so its link was closed.
    Broken,
    /// The client's connection failed.
    ClientFailed(Cause),
    /// The server was stopped.
    Stopped,
}

impl Ending {
    /// Returns its text, as `Display` prints it.
    pub fn text(self) -> &'static [u8]
        ensures { result.now ≡ ending_text self }
    {
        match self {
            Ending::ClientClosed => b"closed by its client",
            Ending::PeerClosed => b"closed by its device",
            Ending::OutOfTurn => b"its device wrote out of turn",
            Ending::Lost => b"its device was disconnected",
            Ending::Broken => b"its device broke the protocol",
            Ending::ClientFailed(cause) => failure_text(cause),
            Ending::Stopped => b"the server was stopped",
        }
    }
}

/// Returns the text for a client with a failed connection.
fn failure_text(cause: Cause) -> &'static [u8]
    ensures { result.now ≡ ending_text (Ending.ClientFailed cause) }
{
    match cause {
        Cause::Eof => b"its client was closed",
        Cause::Fault => b"the connection to its client failed",
        Cause::Starved => b"the server ran out of memory for its client",
        Cause::NoThread => b"the server had no thread for its client",
    }
}

impl fmt::Display for Ending {
    fn fmt<W: fmt::Write>(&self, f: &mut fmt::Formatter<W>) -> fmt::Result {
        match self {
            Ending::ClientClosed => write!(f, "closed by its client"),
            Ending::PeerClosed => write!(f, "closed by its device"),
            Ending::OutOfTurn => write!(f, "its device wrote out of turn"),
            Ending::Lost => write!(f, "its device was disconnected"),
            Ending::Broken => write!(f, "its device broke the protocol"),
            Ending::ClientFailed(Cause::Eof) => write!(f, "its client was closed"),
            Ending::ClientFailed(Cause::Fault) => write!(f, "the connection to its client failed"),
            Ending::ClientFailed(Cause::Starved) => {
                write!(f, "the server ran out of memory for its client")
            }
            Ending::ClientFailed(Cause::NoThread) => {
                write!(f, "the server had no thread for its client")
            }
            Ending::Stopped => write!(f, "the server was stopped"),
        }
    }
}

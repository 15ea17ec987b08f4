//! The packets of a stream that comes in pieces.

ghost use Rattle.std.specs.Prelude.{◌≡◌, ◌≢◌, []};
ghost use Rattle.adb_outside.specs.Framing.{Takes, Gives, answer_of};
ghost use Rattle.adb_shell.specs.declared.packet.ShellFault.{ShellFault};
ghost use Rattle.adb_shell.specs.Packets.{front, packet_of, past, StandsFor, error_of};

use crate::format::ShellFormat;
use crate::packet::{ShellError, ShellFault, ShellPacket};
use adb_outside::Framer;
use std::alloc::Global;
use std::marker::Model;

/// A reader of the packets of a stream that comes in any pieces. It holds the bytes past the last
/// whole packet and the packets that were not taken yet, never the whole stream.
#[derive(Drop)]
pub struct ShellReader {
    framer: Framer<ShellFormat, ShellPacket, ShellFault>,
}

impl Model for ShellReader {
    ghost use Rattle.adb_shell.specs.Packets.{Reading};

    ghost Value = { Reading };

    ghost view = { λ r. r.framer };
}

impl ShellReader {
    /// Returns a reader to which nothing was fed. Allocates nothing.
    pub fn new(alloc: Global) -> ShellReader
        ensures { StandsFor [] [] result }
    {
        ShellReader {
            framer: Framer::new(alloc, ShellFormat { offset: 0 }),
        }
    }

    /// Takes the next piece of the stream, of any length.
    ///
    /// `OutOfMemory`: an allocation failed; nothing changed. `BadId` and `TooLong`: the first fault
    /// of all the bytes fed so far: a bad id, or otherwise a bad length, of the first packet that
    /// has one, once its header is there. The packets before it can still be taken with `next`;
    /// every later call takes nothing and returns that fault.
    pub fn feed(&mut self, piece: &[u8]) -> Result<(), ShellError>
        ensures memory { result ≡ Err ShellError.OutOfMemory → self.new ≡ self.old }
        ensures taken { result ≢ Err ShellError.OutOfMemory
            → Takes front packet_of past self.old piece.now self.new }
        ensures answer { result ≢ Err ShellError.OutOfMemory
            → result ≡ answer_of error_of self.new.fault }
        ensures stays { (fault : ShellFault) → self.old.fault ≡ Some fault
            → result ≡ Err (error_of fault) }
    {
        Ok(self.framer.feed(piece)?)
    }

    /// Takes the next packet. Returns `None` if no further whole packet was fed. Allocates nothing.
    pub fn next(&mut self) -> Option<ShellPacket>
        ensures { Gives front packet_of past self.old self.new result }
    {
        self.framer.next()
    }
}

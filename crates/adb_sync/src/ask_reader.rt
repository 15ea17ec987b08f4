//! The requests of a stream that comes in pieces.

ghost use Rattle.std.specs.Prelude.{◌≡◌, ◌≢◌, []};
ghost use Rattle.adb_outside.specs.Framing.{Takes, Gives, answer_of};
ghost use Rattle.adb_sync.specs.declared.error.SyncFault.{SyncFault};
ghost use Rattle.adb_sync.specs.Messages.{error_of};
ghost use Rattle.adb_sync.specs.Asks.{ask_front, ask_of, past_ask, StandsForAsks};

use crate::ask::SyncAsk;
use crate::ask_format::AskFormat;
use crate::error::{SyncError, SyncFault};
use adb_outside::Framer;
use std::alloc::Global;
use std::marker::Model;

/// A reader of the requests of a stream that comes in any pieces, for the service. It holds the
/// bytes past the last whole request and the requests that were not taken yet, never the whole
/// stream.
#[derive(Drop)]
pub struct AskReader {
    framer: Framer<AskFormat, SyncAsk, SyncFault>,
}

impl Model for AskReader {
    ghost use Rattle.adb_sync.specs.Asks.{AskReading};

    ghost Value = { AskReading };

    ghost view = { λ r. r.framer };
}

impl AskReader {
    /// Returns a reader to which nothing was fed. Allocates nothing.
    pub fn new(alloc: Global) -> AskReader
        ensures { StandsForAsks [] [] result }
    {
        AskReader {
            framer: Framer::new(
                alloc,
                AskFormat {
                    offset: 0,
                    sending: false,
                },
            ),
        }
    }

    /// Takes the next piece of the stream, of any length.
    ///
    /// `OutOfMemory`: an allocation failed; nothing changed. Every other error is the first fault
    /// of all the bytes fed so far. Within one request it is that of the id, once its four bytes
    /// are there, or otherwise that of the length, once its word is there, or otherwise a missing
    /// comma, once the text is there. The requests before it can still be taken with `next`; every
    /// later call takes nothing and returns that fault.
    pub fn feed(&mut self, piece: &[u8]) -> Result<(), SyncError>
        ensures memory { result ≡ Err SyncError.OutOfMemory → self.new ≡ self.old }
        ensures taken { result ≢ Err SyncError.OutOfMemory
            → Takes ask_front ask_of past_ask self.old piece.now self.new }
        ensures answer { result ≢ Err SyncError.OutOfMemory
            → result ≡ answer_of error_of self.new.fault }
        ensures stays { (fault : SyncFault) → self.old.fault ≡ Some fault
            → result ≡ Err (error_of fault) }
    {
        Ok(self.framer.feed(piece)?)
    }

    /// Takes the next request. Returns `None` if no further whole request was fed. Allocates
    /// nothing.
    pub fn next(&mut self) -> Option<SyncAsk>
        ensures { Gives ask_front ask_of past_ask self.old self.new result }
    {
        self.framer.next()
    }
}

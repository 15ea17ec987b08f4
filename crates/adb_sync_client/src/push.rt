//! Pushing a file.

ghost use Rattle.std.specs.Prelude.{◌≡◌, ◌≢◌, ◌≤◌, ◌++◌, [], List, ℕ, length, take, drop, IfOk};
ghost use Rattle.std.specs.Io.{StartsWith};
ghost use Rattle.adb_sync_client.specs.Asking.{Asks, Feeds, Gives};
ghost use Rattle.adb_sync_client.specs.Texts.{push_text};
ghost use Rattle.adb_sync_client.specs.Values.{push_value};

use crate::kind::AnswerKind;
use crate::outgoing::Outgoing;
use crate::reading::Reading;
use crate::request::MAX_ASKED_PATH;
use crate::step::Step;
use std::alloc::{AllocError, Global};
use std::marker::Model;

/// SEND of a path. The file exists once it is done.
#[derive(Drop)]
pub struct Push {
    out: Outgoing,
    reading: Reading,
}

impl Model for Push {
    ghost use Rattle.adb_sync_client.specs.Asking.{Asking};

    ghost Value = { Asking };

    ghost view = { λ m. record { left = m.out; read = m.reading } };
}

impl Push {
    /// Returns a machine that sends a file of these bytes to a path, with a mode as in `stat(2)`
    /// and a time in seconds since 1970. The bytes are copied once, and their chunks are made as
    /// they are taken.
    pub fn new(
        alloc: Global,
        path: &[u8],
        mode: u32,
        mtime: u32,
        bytes: &[u8],
    ) -> Result<Push, AllocError>
        requires { length path.now ≤ MAX_ASKED_PATH }
        ensures { IfOk result (λ new.
            Asks AnswerKind.Push (push_text path.now mode mtime bytes.now) new) }
    {
        Ok(Push {
            out: Outgoing::new(alloc, path, mode, mtime, bytes)?,
            reading: Reading::new(alloc, AnswerKind::Push),
        })
    }

    /// Returns the first bytes of the request that were not taken yet: at least one if any are
    /// left. The header of each chunk, and its bytes, come one by one as the bytes before are
    /// taken.
    pub fn out(&self) -> &[u8]
        ensures front { StartsWith self.now.left result.now }
        ensures some { self.now.left ≢ [] → result.now ≢ [] }
    {
        self.out.front()
    }

    /// Removes the first `n` bytes of the request, which were taken. Allocates nothing.
    pub fn taken(&mut self, n: usize)
        requires { n ≤ length self.old.left }
        ensures left { self.new ≡ record self.old { left = drop n self.old.left } }
        ensures whole { (text gone : List ℕ) → Gives text gone self.old.left
            → Gives text (gone ++ take n self.old.left) self.new.left }
    {
        self.out.taken(n);
    }

    /// Takes the next piece of the answer bytes, of any length. Returns the meaning of all of them,
    /// at each call. If an allocation fails, the machine is spent: every later call returns the
    /// error.
    pub fn feed(&mut self, piece: &[u8]) -> Result<Step<()>, AllocError>
        ensures { Feeds AnswerKind.Push push_value self.old piece.now result self.new }
    {
        self.reading.feed(piece)
    }
}

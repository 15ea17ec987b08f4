//! Cutting a stream of bytes into frames, whatever pieces it comes in.

ghost use Rattle.std.specs.Prelude.{◌≡◌, ◌++◌, [], List, ℕ, IfOk, IfSome, length, Option, Some, None, Ok, true, ◌≢◌};
ghost use Rattle.adb_outside.specs.Framing.{cut, uncut, fault_of, answer_of, Takes, Gives, Stands};

use crate::behind::{Behind, advance};
use crate::gather::Gather;
use bytes::Bytes;
use std::alloc::{AllocError, Global};
use std::collections::VecDeque;
use std::marker::Model;

/// The beginning of some bytes, as a format reads it.
#[derive(Clone, Copy, Debug, PartialEq, Eq, Drop)]
pub enum Front<F> {
    /// No whole frame yet, and no fault.
    More,
    /// No frame of the format begins like this.
    Bad(F),
    /// A frame of that many bytes.
    Whole(usize),
}

impl<F: Copy> Front<F> {
    /// Returns the fault, if this is one.
    pub(crate) fn fault(self) -> Option<F>
        ensures { result ≡ fault_of self }
    {
        match self {
            Front::More => None,
            Front::Bad(fault) => Some(fault),
            Front::Whole(_) => None,
        }
    }
}

/// A framing of a byte stream: each frame decodes to a `V`, and faults are `F`. The value of the
/// format determines how the bytes at its place in the stream are read.
pub trait Format<V, F>: Copy {
    ghost use Rattle.std.specs.Prelude.{◌≡◌, List, ℕ, IfOk, length};
    ghost use Rattle.adb_outside.specs.declared.framer.Front.{Front};
    ghost use Rattle.adb_outside.specs.Framing.{IsFraming};

    /// The beginning of some bytes: no whole frame yet, a fault, or a whole frame.
    ghost find: { Self → List ℕ → Front F };

    /// The value of a whole frame.
    ghost item: { Self → List ℕ → V };

    /// The format of the bytes after a whole frame.
    ghost after: { Self → List ℕ → Self };

    /// Returns what the bytes begin with.
    fn front(&self, bytes: &[u8]) -> Front<F>
        ensures { result ≡ find self.now bytes.now };

    /// Decodes a whole frame.
    fn read(&self, alloc: Global, frame: &[u8]) -> Result<V, AllocError>
        requires { find self.now frame.now ≡ Front.Whole (length frame.now) }
        ensures { IfOk result (λ v. v ≡ item self.now frame.now) };

    /// Decodes a whole frame that is already gathered; the value may keep its bytes.
    fn keep(&self, alloc: Global, frame: Bytes) -> Result<V, AllocError>
        requires { find self.now frame ≡ Front.Whole (length frame) }
        ensures { IfOk result (λ v. v ≡ item self.now frame) }
    {
        self.read(alloc, frame.as_slice())
    }

    /// Returns how many bytes at least are missing to a frame that begins with these bytes, if that
    /// is known. No more than that are gathered with them.
    fn missing(&self, _bytes: &[u8]) -> Option<usize> {
        None
    }

    /// Returns the format of the bytes after a whole frame.
    fn past(&self, frame: &[u8]) -> Self
        requires { find self.now frame.now ≡ Front.Whole (length frame.now) }
        ensures { result ≡ after self.now frame.now };

    /// A prefix that is a whole frame or a fault stays one, whatever bytes follow.
    ghost framing: { IsFraming find item after };
}

/// The reason why bytes were not taken.
#[derive(Clone, Copy, Debug, PartialEq, Eq, Drop)]
pub enum FeedError<F> {
    /// An allocation failed. Nothing changed.
    OutOfMemory,
    /// The first fault of all the bytes that were fed. It persists.
    Fault(F),
}

/// The frames of a stream that comes in pieces. A framer holds the bytes past the last whole frame
/// and the frames that were not taken yet, never the whole stream.
#[derive(Drop)]
pub struct Framer<S: Drop, V: Drop, F: Drop> {
    alloc: Global,
    format: S,
    held: Gather,
    ready: VecDeque<V>,
    fault: Option<F>,
}

impl<S: Drop, V: Drop, F: Drop> Model for Framer<S, V, F> {
    ghost use Rattle.adb_outside.specs.Framing.{Cut};

    ghost Value = { Cut S V F };

    ghost view = { λ f. record { given = f.ready.items; reading = f.format; rest = f.held; fault = f.fault } };
}

impl<V: Drop, F: Copy, S: Format<V, F>> Framer<S, V, F> {
    /// Returns a framer to which nothing was fed. Allocates nothing.
    pub fn new(alloc: Global, format: S) -> Framer<S, V, F>
        ensures value { result ≡ record { given = []; reading = format; rest = []; fault = None } }
        ensures stands { Stands S.find S.item S.after format [] [] result }
    {
        Framer {
            alloc,
            format,
            held: Gather::new(alloc),
            ready: VecDeque::new(alloc),
            fault: None,
        }
    }

    /// Returns the format of the next bytes if nothing is held and there is no fault. Allocates
    /// nothing.
    pub fn idle(&self) -> Option<S>
        ensures { IfSome result (λ format. self.now ≡ uncut format [] None) }
    {
        if self.held.is_empty() && self.ready.is_empty() && self.fault.is_none() {
            Some(self.format)
        } else {
            None
        }
    }

    /// Returns the bytes past the last whole frame.
    pub fn rest(&self) -> &[u8]
        ensures { result.now ≡ self.now.rest }
    {
        self.held.as_slice()
    }

    /// Returns the first fault of all the bytes that were fed, if there is one.
    pub fn fault(&self) -> Option<F>
        ensures { result ≡ self.now.fault }
    {
        self.fault
    }

    /// Takes the next frame. Returns `None` if no further whole frame was fed. Allocates nothing.
    pub fn next(&mut self) -> Option<V>
        ensures { Gives S.find S.item S.after self.old self.new result }
    {
        self.ready.pop_front()
    }

    /// Takes the next piece of the stream.
    ///
    /// `OutOfMemory`: an allocation failed; nothing changed. `Fault`: the bytes fed so far have
    /// this fault. The frames before it can still be taken; every later call returns the same fault
    /// and takes nothing.
    pub fn feed(&mut self, piece: &[u8]) -> Result<(), FeedError<F>>
        ensures memory { result ≡ Err FeedError.OutOfMemory → self.new ≡ self.old }
        ensures taken { result ≢ Err FeedError.OutOfMemory
            → Takes S.find S.item S.after self.old piece.now self.new }
        ensures answer { result ≢ Err FeedError.OutOfMemory
            → result ≡ answer_of FeedError.Fault self.new.fault }
        ensures stays { (fault : F) → self.old.fault ≡ Some fault
            → result ≡ Err (FeedError.Fault fault) }
    {
        if let Some(fault) = self.fault {
            return Err(FeedError::Fault(fault));
        }
        match self.wait(piece) {
            Ok(true) => return Ok(()),
            Ok(false) => {}
            Err(_) => return Err(FeedError::OutOfMemory),
        }
        let before = self.ready.len();
        match advance(
            self.alloc,
            self.format,
            &mut self.held,
            &mut self.ready,
            piece,
        ) {
            Ok(behind) => self.go_on(behind),
            Err(_) => {
                self.ready.truncate(before);
                return Err(FeedError::OutOfMemory);
            }
        }
        match self.fault {
            None => Ok(()),
            Some(fault) => Err(FeedError::Fault(fault)),
        }
    }

    /// Gathers a piece if, as far as the format knows, it completes nothing. Returns whether it was
    /// gathered.
    fn wait(&mut self, piece: &[u8]) -> Result<bool, AllocError>
        ensures waits { result ≡ Ok true
            → (self.new ≡ record self.old { rest = self.old.rest ++ piece.now })
            × (S.find self.old.reading (self.old.rest ++ piece.now) ≡ Front.More) }
        ensures stays { result ≢ Ok true → self.new ≡ self.old }
    {
        let held = self.held.as_slice();
        let before = held.len();
        match self.format.missing(held) {
            Some(n) if piece.len() < n => {}
            _ => return Ok(false),
        }
        self.held.push(piece)?;
        if let Front::More = self.format.front(self.held.as_slice()) {
            return Ok(true);
        }
        self.held.truncate(before);
        Ok(false)
    }

    /// Returns another framer that holds the same bytes, but none of the frames, and takes a
    /// further piece. This framer stays as it is. Fails if an allocation fails.
    pub fn with_piece(&mut self, piece: &[u8]) -> Result<Framer<S, V, F>, AllocError>
        requires { self.old.fault ≡ None }
        ensures stays { self.new ≡ self.old }
        ensures next { IfOk result (λ next. next
            ≡ cut S.find S.item S.after self.old.reading (self.old.rest ++ piece.now)) }
    {
        let mut ready = VecDeque::new(self.alloc);
        let behind = advance(self.alloc, self.format, &mut self.held, &mut ready, piece)?;
        Ok(Framer {
            alloc: self.alloc,
            format: behind.format,
            held: behind.held,
            ready,
            fault: behind.fault,
        })
    }

    /// Replaces the held bytes by the remainder after a piece.
    fn go_on(&mut self, behind: Behind<S, F>)
        ensures { self.new ≡ record {
          given = self.old.given;
          reading = behind.format;
          rest = behind.held;
          fault = behind.fault;
        } }
    {
        self.format = behind.format;
        self.held = behind.held;
        self.fault = behind.fault;
    }
}

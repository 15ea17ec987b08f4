//! A client.

ghost use Rattle.std.specs.Prelude.{◌≡◌, ◌<◌, ◌≤◌, ◌+◌, ◌-◌, ◌++◌, [], length, take, drop, max, IsOk, IfOk, OnOk, OnErr};
ghost use Rattle.adb_client.specs.Ask.{asked_in};
ghost use Rattle.adb_client.specs.Client.{new_about};

use crate::about::About;
use crate::ask::Asked;
use crate::input::Input;
use crate::output::{MAX_SLICE, Output};
use crate::phase::Phase;
use adb_outside::{HandOut, SplitBytes};
use bytes::Bytes;
use std::alloc::{AllocError, Global};
use std::marker::Model;

/// A client: its plain fields, its input that is held, and its output queue. While the client asks,
/// held bytes are unread requests; from then on they are to be sent to the device. Contracts see
/// both as lists of bytes, and four numbers beside them: how many of the first held bytes are ready
/// to be cut off without an allocation, in how many pieces, and how many places are reserved for
/// bytes, and how many for slices, that can be queued without an allocation. If an allocation
/// fails, the client is unchanged.
///
/// The client is a pointer, so that a table moves its row cheaply.
#[derive(Drop)]
pub struct Client {
    parts: Box<Parts>,
}

#[derive(Drop)]
struct Parts {
    about: About,
    input: Input,
    output: Output,
}

impl Model for Client {
    ghost use Rattle.adb_client.specs.Client.{SeenClient};

    ghost Value = { SeenClient };

    ghost use Rattle.adb_client.specs.Parts.{seen};

    ghost view = { seen };
}

impl Client {
    ghost use Rattle.std.specs.Borrow.{sem};
    ghost use Rattle.adb_client.specs.Lending.{LendsAbout};

    /// Returns a client that asks and has sent nothing yet, by its number, and whether it came
    /// through a forward. Fails if an allocation fails.
    pub fn new(alloc: Global, number: u32, forwarded: bool) -> Result<Client, AllocError>
        ensures { IfOk result (λ client. client ≡ record {
          about = new_about number forwarded;
          held = [];
          ready = 0;
          cuts = 0;
          due = [];
          spare = 0;
          places = 0;
        }) }
    {
        let parts = Parts {
            about: About {
                number,
                forwarded,
                phase: Phase::Asking,
                selected: None,
                ended: false,
                mark: false,
                long: false,
                want: None,
            },
            input: Input::new(alloc),
            output: Output::new(alloc),
        };
        Ok(Client {
            parts: Box::new(alloc, parts)?,
        })
    }

    /// Returns the plain fields.
    pub fn about(&self) -> &About
        ensures { result.now ≡ self.now.about }
    {
        &self.parts.about
    }

    /// Returns the plain fields for writing.
    pub fn about_mut(&mut self) -> &mut About
        ensures* writes_back { sem 𝓛 (LendsAbout self.entry result) }
        ensures value { result.now ≡ self.old.about }
    {
        &mut self.parts.about
    }

    /// Appends a piece that came to the held bytes.
    pub fn take_in(&mut self, piece: &[u8]) -> Result<(), AllocError>
        ensures ok { OnOk result (self.new ≡ record self.old {
          held = self.old.held ++ piece.now;
        }) }
        ensures err { OnErr result (self.new ≡ self.old) }
    {
        self.parts.input.take_in(piece)
    }

    /// Removes the last `n` held bytes. No bytes are ready afterwards. Allocates nothing.
    pub fn take_back(&mut self, n: usize)
        requires { n ≤ length self.old.held }
        ensures { self.new ≡ record self.old {
          held = take (length self.old.held - n) self.old.held;
          ready = 0;
          cuts = 0;
        } }
    {
        self.parts.input.take_back(n);
    }

    /// Returns the first request from a place on in the held bytes. Nothing changes. Fails only if
    /// the allocation for a text of the request fails.
    pub fn ask_from(&self, at: usize) -> Result<Asked, AllocError>
        requires { at ≤ length self.now.held }
        ensures asked { IfOk result (λ asked. asked ≡ asked_in (drop at self.now.held)) }
        ensures within { IfOk result (λ asked. at + asked.len ≤ length self.now.held) }
    {
        self.parts.input.ask_from(at)
    }

    /// Removes the first `n` held bytes. Allocates nothing.
    pub fn pass_over(&mut self, n: usize)
        requires { n ≤ length self.old.held }
        ensures { self.new ≡ record self.old {
          held = drop n self.old.held;
          ready = self.old.ready - n;
        } }
    {
        self.parts.input.pass_over(n);
    }

    /// Returns how many bytes are held.
    pub fn held(&self) -> usize
        ensures { result ≡ length self.now.held }
    {
        self.parts.input.len()
    }

    /// Makes at least the first `n` held bytes ready to be cut off, in at least `cuts` pieces of
    /// any lengths. The bytes are copied only if they lie in more than two buffers.
    pub fn prepare_cuts(&mut self, n: usize, cuts: usize) -> Result<(), AllocError>
        requires { n ≤ length self.old.held }
        ensures ok { OnOk result (self.new ≡ record self.old {
          ready = max n self.old.ready;
          cuts = max cuts self.old.cuts;
        }) }
        ensures err { OnErr result (self.new ≡ self.old) }
        ensures is_ready { n ≤ self.old.ready → cuts ≤ self.old.cuts → IsOk result }
    {
        self.parts.input.prepare_cuts(n, cuts)
    }

    /// Cuts off the first `n` held bytes, which are ready, without a copy. Allocates nothing.
    pub fn cut_ready(&mut self, n: usize) -> SplitBytes
        requires within { n ≤ self.old.ready }
        requires cut { 0 < self.old.cuts }
        ensures piece { result ≡ take n self.old.held }
        ensures rest { self.new ≡ record self.old {
          held = drop n self.old.held;
          ready = self.old.ready - n;
          cuts = self.old.cuts - 1;
        } }
    {
        self.parts.input.cut_ready(n)
    }

    /// Queues a copy of the bytes for output.
    pub fn owe(&mut self, bytes: &[u8]) -> Result<(), AllocError>
        ensures ok { OnOk result (self.new ≡ record self.old { due = self.old.due ++ bytes.now }) }
        ensures err { OnErr result (self.new ≡ self.old) }
    {
        self.parts.output.owe(bytes)
    }

    /// Makes the spare capacity at least `n`: that many bytes can be queued with `owe_spare`, the
    /// only call that lowers it.
    pub fn reserve(&mut self, n: usize) -> Result<(), AllocError>
        ensures ok { OnOk result (self.new ≡ record self.old { spare = max n self.old.spare }) }
        ensures err { OnErr result (self.new ≡ self.old) }
        ensures has_room { n ≤ self.old.spare → IsOk result }
    {
        self.parts.output.reserve(n)
    }

    /// Queues bytes for output in reserved places. Allocates nothing.
    pub fn owe_spare(&mut self, bytes: &[u8])
        requires { length bytes.now ≤ self.old.spare }
        ensures { self.new ≡ record self.old {
          due = self.old.due ++ bytes.now;
          spare = self.old.spare - length bytes.now;
        } }
    {
        self.parts.output.owe_spare(bytes);
    }

    /// Makes the reserved places at least `n`: that many slices can be queued with
    /// `owe_slice_spare`, the only call that lowers them.
    pub fn reserve_slices(&mut self, n: usize) -> Result<(), AllocError>
        ensures ok { OnOk result (self.new ≡ record self.old { places = max n self.old.places }) }
        ensures err { OnErr result (self.new ≡ self.old) }
        ensures has_room { n ≤ self.old.places → IsOk result }
    {
        self.parts.output.reserve_slices(n)
    }

    /// Queues a slice for output in a reserved place, without a copy. Allocates nothing.
    pub fn owe_slice_spare(&mut self, bytes: Bytes)
        requires place { 0 < self.old.places }
        requires size { length bytes ≤ MAX_SLICE }
        ensures { self.new ≡ record self.old {
          due = self.old.due ++ bytes;
          places = self.old.places - 1;
        } }
    {
        self.parts.output.owe_slice_spare(bytes);
    }

    /// Returns how many bytes are queued for output.
    pub fn owed(&self) -> usize
        ensures { result ≡ length self.now.due }
    {
        self.parts.output.owed()
    }

    /// Returns the first `max` bytes of the queue, or all if there are fewer. The bytes of a single
    /// slice are shared, others are copied. Nothing changes. Fails if an allocation fails.
    pub fn front(&self, max: usize) -> Result<HandOut, AllocError>
        ensures { IfOk result (λ bytes. bytes ≡ take max self.now.due) }
    {
        self.parts.output.front(max)
    }

    /// Returns how many bytes to hand out at once, at most `max`, so that no slice of 4 KiB or more
    /// is copied: those of such a slice or those before it, or `max` if there is none. Allocates
    /// nothing.
    pub fn front_len(&self, max: usize) -> usize
        requires { 0 < max }
        ensures { (0 < result) × (result ≤ max) }
    {
        self.parts.output.front_len(max)
    }

    /// Removes the first `n` queued bytes, which were handed out. Needs no memory.
    pub fn hand(&mut self, n: usize)
        requires { n ≤ length self.old.due }
        ensures { self.new ≡ record self.old { due = drop n self.old.due } }
    {
        self.parts.output.hand(n);
    }
}

//! Reading one request after another.

ghost use Rattle.std.specs.Prelude.{◌≡◌, ◌≤◌, ◌+◌, List, ℕ, [], length, IfOk, OnOk};
ghost use Rattle.adb_hub_clients.specs.Requests.{step_after, selected_after, IsAskedBehind, TakesAnswer, ReadsOne};

use adb_client::{Ask, Asked, Client};
use adb_forward::Forwards;
use adb_outside::Text;
use adb_registry::Registry;
use adb_reply::{Answer, Next, reply};
use adb_request::Request;
use std::alloc::{AllocError, Global};

/// The requests read so far: the replies to them, how many bytes they have, and the transport that
/// they selected.
#[derive(Drop)]
pub(crate) struct Reading {
    pub(crate) replies: Text,
    pub(crate) used: usize,
    pub(crate) selected: Option<u32>,
}

/// The next step: to read another request, or to perform the action after the last.
#[derive(Drop)]
pub(crate) enum Step {
    Again,
    End(Option<Next>),
}

impl Reading {
    /// Returns the state before any request was read. Allocates nothing.
    pub(crate) fn new(alloc: Global, selected: Option<u32>) -> Reading
        ensures { result ≡ record { replies = []; used = 0; selected = selected } }
    {
        Reading {
            replies: Text::new(alloc),
            used: 0,
            selected,
        }
    }

    /// Reads and answers the request after those read so far.
    pub(crate) fn read_one(
        &mut self,
        alloc: Global,
        client: &Client,
        devices: &Registry,
        forwards: &Forwards,
    ) -> Result<Step, AllocError>
        requires within { self.old.used ≤ length client.now.held }
        requires fits { length client.now.held ≤ usize.MAX }
        ensures { IfOk result (λ step. ReadsOne devices.now forwards.now client.now.held
            self.old step self.new) }
    {
        let Asked { ask, len } = client.ask_from(self.used)?;
        match ask {
            Ask::More => Ok(Step::End(None)),
            Ask::Malformed => Ok(Step::End(Some(Next::Close))),
            Ask::Whole(request) => self.answer(alloc, request, len, devices, forwards),
        }
    }

    /// Answers the request after those read so far, which has `len` bytes.
    pub(crate) fn answer(
        &mut self,
        alloc: Global,
        request: Request,
        len: usize,
        devices: &Registry,
        forwards: &Forwards,
    ) -> Result<Step, AllocError>
        requires { self.old.used + len ≤ usize.MAX }
        ensures reads { IfOk result (λ step. (held : List ℕ)
            → IsAskedBehind self.old.used (record { ask = Ask.Whole request; len = len }) held
            → ReadsOne devices.now forwards.now held self.old step self.new) }
        ensures used { OnOk result (self.new.used ≡ self.old.used + len) }
    {
        let answer = reply(alloc, devices, forwards, self.selected, &request)?;
        self.take_in(answer, len)
    }

    /// Adds the answer to a request of `len` bytes.
    fn take_in(&mut self, answer: Answer, len: usize) -> Result<Step, AllocError>
        requires { self.old.used + len ≤ usize.MAX }
        ensures asked { IfOk result (λ step. TakesAnswer answer len self.old step self.new) }
        ensures used { OnOk result (self.new.used ≡ self.old.used + len) }
    {
        let Answer { bytes, next } = answer;
        if self.replies.is_empty() {
            self.replies = bytes;
        } else {
            self.replies.push_slice(bytes.as_slice())?;
        }
        self.used += len;
        Ok(self.follow(next))
    }

    /// Returns the next step: if the answer selects a transport, another request is read.
    fn follow(&mut self, next: Next) -> Step
        ensures step { result ≡ step_after next }
        ensures selected { self.new ≡ record self.old {
          selected = selected_after next self.old.selected;
        } }
    {
        match next {
            Next::Select(id) => {
                self.selected = Some(id);
                Step::Again
            }
            last => Step::End(Some(last)),
        }
    }
}

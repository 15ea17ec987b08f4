//! A session of a world: a client that writes the bytes that it was given and keeps those that it
//! is handed.

ghost use Rattle.std.specs.Prelude.{◌≡◌, ◌≤◌, ◌+◌, ◌++◌, length, take, drop, IfOk, OnOk};
ghost use Rattle.adb_world.specs.declared.session.TheConstants.{REPLIES};
ghost use Rattle.adb_laws_answers.specs.Words.{most_service};
ghost use Rattle.adb_world.specs.Answered.{answer_of};
ghost use Rattle.adb_world.specs.Session.{handed, left_of, new_session, wrote};

use crate::answer::Answer;
use crate::words::Words;
use adb_outside::{HandOut, Parts, Text};
use adb_request::hex4;
use std::alloc::{AllocError, Global};

/// The request by which every session selects the model device.
const SELECTS: &[u8] = b"0016host:transport:model-1";

/// The number of bytes of the replies to the two requests of a session.
pub const REPLIES: usize = 8;

/// A session. It writes two requests and its text, and then neither writes nor closes.
#[derive(Drop)]
pub struct Session {
    /// The service that the session asks for.
    pub service: Text,
    /// All bytes that the session writes.
    pub words: Words,
    /// The number of these bytes that are written.
    pub written: usize,
    /// The bytes that the session was handed.
    pub got: Text,
}

impl Session {
    /// Makes a session that will ask for a service and write a text.
    pub(crate) fn new(alloc: Global, service: &[u8], text: Text) -> Result<Session, AllocError>
        requires { length service.now ≤ most_service }
        ensures { IfOk result (λ session. session ≡ new_session service.now text) }
    {
        let mut requests = Text::from_slice(alloc, SELECTS)?;
        requests.push_slice(&hex4(service.len() as u16))?;
        requests.push_slice(service)?;
        Ok(Session {
            service: Text::from_slice(alloc, service)?,
            words: Words::new(alloc, requests, text),
            written: 0,
            got: Text::new(alloc),
        })
    }

    /// Returns how many bytes the session writes next, at most `max`.
    pub(crate) fn next_len(&self, max: usize) -> usize
        requires { self.now.written ≤ length self.now.words }
        ensures { result ≡ length (take max (left_of self.now)) }
    {
        max.min(self.words.len() - self.written)
    }

    /// Returns the next bytes that the session writes, at most `max`.
    pub(crate) fn next_words(&self, max: usize) -> Parts<'_>
        requires { self.now.written ≤ length self.now.words }
        ensures { result.start.now ++ result.rest.now ≡ take max (left_of self.now) }
    {
        self.words.behind(self.written, max)
    }

    /// Returns the bytes that the session was handed after the replies to its requests.
    pub(crate) fn answer(&self) -> &[u8]
        ensures { result.now ≡ answer_of self.now }
    {
        behind_replies(self.got.as_slice())
    }

    /// Returns the same bytes, moved out of the session. It allocates nothing.
    pub(crate) fn into_answer(self) -> Answer
        ensures { result ≡ answer_of self }
    {
        Answer::new(self.got)
    }

    /// Keeps bytes that the session is handed.
    pub(crate) fn hear(&mut self, piece: &HandOut) -> Result<(), AllocError>
        ensures { OnOk result (self.new ≡ handed piece.now self.old) }
    {
        let Parts { start, rest } = piece.parts();
        self.got.push_slice(start)?;
        self.got.push_slice(rest)
    }

    /// Notes that the session has written `n` more bytes.
    pub(crate) fn advance(&mut self, n: usize)
        requires { self.old.written + n ≤ length self.old.words }
        ensures { self.new ≡ wrote n self.old }
    {
        let left = self.words.len() - self.written - n;
        self.written = self.words.len() - left;
    }
}

/// Returns the bytes after the replies to the requests.
pub(crate) fn behind_replies(got: &[u8]) -> &[u8]
    ensures { result.now ≡ drop REPLIES got.now }
{
    &got[REPLIES.min(got.len())..]
}

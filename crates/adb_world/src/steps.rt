//! The steps of a world: each moves some bytes from one part to the next.

ghost use Rattle.std.specs.Prelude.{◌≡◌, ◌+◌, ◌<◌, ◌≤◌, true, is_some, length, Some, IfOk, IfSome, OnErr, OnOk, option_map};
ghost use Rattle.adb_outside.specs.Tables.{at};
ghost use Rattle.adb_capture.specs.declared.entry.Entry.{Entry};
ghost use Rattle.adb_history.specs.Machine.{History, state};
ghost use Rattle.adb_daemon.specs.Daemon.{owed};
ghost use Rattle.adb_world.specs.Stopped.{Fails};
ghost use Rattle.adb_hub.specs.Answers.{due_on, offered_to};
ghost use Rattle.adb_world.specs.Parts.{Holds, IsHeld, IsRunning, Moves};
ghost use Rattle.adb_world.specs.Session.{Changes, handed, left_of, wrote};
ghost use Rattle.adb_world.specs.declared.session.Session.{Session};

use crate::calls::{feed, put, read_next, receive, send};
use crate::parts::Parts;
use crate::session::Session;
use adb_laws_answers::sessions_ask_for_services;
use adb_laws_model_device::what_a_server_sends_is_taken;
use adb_laws_worlds::a_device_breaks_no_link;
use adb_outside::HandOut;
use std::alloc::AllocError;
use std::collections::BTreeMap;

impl Parts {
    /// Moves at most `max` bytes that are due on the link to the device. Returns whether there were
    /// any.
    pub(crate) fn down(&mut self, max: usize) -> Result<bool, AllocError>
        requires some { 0 < max }
        requires held { IsHeld self.old }
        ensures moves { IfOk result (λ moved. (h : History) → Holds h self.old
            → Moves (Entry.Send 1) max (due_on ((state h).links 1)) moved
            h self.old self.new) }
        ensures fails { OnErr result (Fails self.old self.new) }
        ensures sessions { self.new.sessions ≡ self.old.sessions }
        ensures given { self.new.given ≡ self.old.given }
    {
        what_a_server_sends_is_taken();
        let Some(piece) = send(&mut self.hub, max)? else {
            return Ok(false);
        };
        feed(&mut self.device, &piece)?;
        Ok(true)
    }

    /// Moves at most `max` bytes that the device owes to the hub. Returns whether there were any.
    pub(crate) fn up(&mut self, max: usize) -> Result<bool, AllocError>
        requires some { 0 < max }
        requires held { IsHeld self.old }
        ensures moves { IfOk result (λ moved. (h : History) → Holds h self.old
            → Moves (Entry.Recv 1) max (Some (owed self.old.device)) moved
            h self.old self.new) }
        ensures kept { OnErr result (self.new.device ≡ self.old.device) }
        ensures sessions { self.new.sessions ≡ self.old.sessions }
        ensures given { self.new.given ≡ self.old.given }
    {
        sessions_ask_for_services();
        let out = self.device.out();
        let n = max.min(out.len());
        if n == 0 {
            return Ok(false);
        }
        receive(&mut self.hub, &out[..n])?;
        self.device.taken(n);
        Ok(true)
    }

    /// Hands at most `max` bytes that are due to the client of a session to it. Returns whether
    /// there were any.
    pub(crate) fn hand(&mut self, number: u32, max: usize) -> Result<bool, AllocError>
        requires some { 0 < max }
        requires held { IsHeld self.old }
        requires there { is_some (at number self.old.sessions.entries) ≡ true }
        ensures moves { IfOk result (λ moved. (h : History) → Holds h self.old
            → Moves (Entry.Put number) max
            (offered_to (state h).devices ((state h).clients number)) moved
            h self.old self.new) }
        ensures kept { OnErr result (self.new.device ≡ self.old.device) }
    {
        let Some(piece) = put(&mut self.hub, number, max)? else {
            return Ok(false);
        };
        keep(&mut self.sessions, number, &piece)?;
        Ok(true)
    }

    /// Writes at most `max` of the bytes that a session has still to write. Returns whether there
    /// were any.
    pub(crate) fn write(&mut self, number: u32, max: usize) -> Result<bool, AllocError>
        requires some { 0 < max }
        requires runs { IsRunning self.old }
        ensures moves { IfOk result (λ moved. (h : History) → Holds h self.old
            → Moves (Entry.Read number) max
            (option_map left_of (at number self.old.sessions.entries)) moved
            h self.old self.new) }
        ensures kept { OnErr result (self.new.device ≡ self.old.device) }
    {
        sessions_ask_for_services();
        a_device_breaks_no_link();
        let Some(session) = self.sessions.get(&number) else {
            return Ok(false);
        };
        let n = session.next_len(max);
        if n == 0 {
            return Ok(false);
        }
        read_next(&mut self.hub, number, session, max)?;
        advance(&mut self.sessions, number, n);
        Ok(true)
    }
}

/// Makes a session keep the bytes that it is handed.
fn keep(
    sessions: &mut BTreeMap<u32, Session>,
    number: u32,
    piece: &HandOut,
) -> Result<(), AllocError>
    ensures { OnOk result
        (Changes number (handed piece.now) sessions.old.entries sessions.new.entries) }
{
    match sessions.get_mut(&number) {
        Some(session) => session.hear(piece),
        None => Ok(()),
    }
}

/// Notes that a session has written `n` more bytes.
fn advance(sessions: &mut BTreeMap<u32, Session>, number: u32, n: usize)
    requires { IfSome (at number sessions.old.entries)
        (λ session. session.written + n ≤ length session.words) }
    ensures { Changes number (wrote n) sessions.old.entries sessions.new.entries }
{
    if let Some(session) = sessions.get_mut(&number) {
        session.advance(n);
    }
}

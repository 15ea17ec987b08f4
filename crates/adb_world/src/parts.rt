//! The parts of a world.

ghost use Rattle.std.specs.Prelude.{◌≡◌, ◌+◌, ◌^◌, ◌<◌, [], ◌∷◌, ℕ, Some, None, true, is_some, IfOk, OnErr, OnOk, MatchOption};
ghost use Rattle.adb_outside.specs.Tables.{at, put_at, Puts};
ghost use Rattle.adb_outside.specs.declared.kinds.Cause.{Cause};
ghost use Rattle.adb_capture.specs.declared.entry.Entry.{Entry};
ghost use Rattle.adb_history.specs.Machine.{History};
ghost use Rattle.adb_daemon.specs.Daemon.{owed};
ghost use Rattle.adb_world.specs.Parts.{Adds, Drops, Holds, IsHeld, IsRunning, most_sessions, plugging};
ghost use Rattle.adb_world.specs.Session.{IsNew};
ghost use Rattle.adb_world.specs.Settled.{IsCalm, IsDone, IsOwed, NoneDown, NoneHanded};
ghost use Rattle.adb_world.specs.World.{ends_of};
ghost use Rattle.adb_world.specs.declared.session.Session.{Session};

use crate::calls::{end, join, plug_in};
use crate::session::Session;
use adb_daemon::Daemon;
use adb_files::Files;
use adb_hub::{Hub, Owner};
use adb_laws_answers::{requests_open_their_service, sessions_ask_for_services};
use adb_laws_births::what_came_stays;
use adb_laws_resting::resting::{a_client_sends_up_its_own_stream, most_entries_send_nothing};
use std::alloc::{AllocError, Global};
use std::collections::BTreeMap;

/// The maximum payload of the model device.
const DEVICE_MAXDATA: u32 = 65_536;

/// A hub, the model device on its link, and the sessions by the numbers of their clients.
#[derive(Drop)]
pub struct Parts {
    pub hub: Hub,
    pub device: Daemon,
    pub sessions: BTreeMap<u32, Session>,
    /// The number of sessions that were given.
    pub given: u32,
}

impl Parts {
    /// Makes a hub with a device plugged in, and no session. Neither end has sent its banner.
    pub(crate) fn new(alloc: Global) -> Result<Parts, AllocError>
        ensures holds { IfOk result (Holds (plugging ∷ [])) }
        ensures sessions { IfOk result (λ parts. parts.sessions.entries ≡ []) }
        ensures given { IfOk result (λ parts. parts.given ≡ 0) }
    {
        let device = Daemon::plain(alloc, Files::new(alloc), DEVICE_MAXDATA)?;
        let mut hub = Hub::new(alloc);
        plug_in(&mut hub)?;
        Ok(Parts {
            hub,
            device,
            sessions: BTreeMap::new(alloc),
            given: 0,
        })
    }

    /// Exchanges the banners of both ends of the link.
    pub(crate) fn greet(&mut self) -> Result<(), AllocError>
        requires { Holds (plugging ∷ []) self.old }
        ensures runs { OnOk result (IsRunning self.new) }
        ensures sessions { OnOk result (self.new.sessions ≡ self.old.sessions) }
        ensures given { OnOk result (self.new.given ≡ self.old.given) }
    {
        what_came_stays();
        self.up(usize::MAX)?;
        self.down(usize::MAX)?;
        Ok(())
    }

    /// Admits a client for a session, and keeps the session under its number.
    pub(crate) fn join(&mut self, session: Session) -> Result<u32, AllocError>
        requires held { IsHeld self.old }
        requires room { self.old.given < most_sessions }
        requires fresh { IsNew session }
        ensures number { IfOk result (λ number. number ≡ self.old.given + 1) }
        ensures added { OnOk result (Adds (self.old.given + 1) session self.old self.new) }
        ensures holds { OnOk result ((h : History) → Holds h self.old
            → Holds (Entry.Join (self.old.given + 1) ∷ h) self.new) }
        ensures calm { OnOk result
            (IsCalm self.old.hub (owed self.old.device) (ends_of self.old.device)
            → IsCalm self.new.hub (owed self.new.device) (ends_of self.new.device)) }
        ensures kept { OnErr result (self.new.device ≡ self.old.device) }
    {
        sessions_ask_for_services();
        most_entries_send_nothing();
        let number = join(&mut self.hub)?;
        add(&mut self.sessions, number, session)?;
        self.given = number;
        Ok(number)
    }

    /// Ends the client of a session in order, by which the client is gone. Removes the session and
    /// returns it. It allocates nothing.
    pub(crate) fn end(&mut self, number: u32) -> Session
        requires done { IsDone self.old }
        requires there { is_some (at number self.old.sessions.entries) ≡ true }
        ensures session { Some result ≡ at number self.old.sessions.entries }
        ensures dropped { Drops number self.old self.new }
        ensures holds { (h : History) → Holds h self.old
            → Holds (Entry.End number Cause.Eof ∷ h) self.new }
    {
        sessions_ask_for_services();
        requests_open_their_service();
        most_entries_send_nothing();
        a_client_sends_up_its_own_stream();
        end(&mut self.hub, number);
        take_session(&mut self.sessions, number)
    }

    /// Returns the least number of a session that is greater than `after`.
    pub(crate) fn next_session(&self, after: u32) -> Option<u32>
        ensures { MatchOption result
            ((c : ℕ) → after < c → c < 2 ^ 32 → at c self.now.sessions.entries ≡ None)
            (λ number. (after < number) × (is_some (at number self.now.sessions.entries) ≡ true)
            × ((c : ℕ) → after < c → c < number → at c self.now.sessions.entries ≡ None)) }
    {
        if after == u32::MAX {
            return None;
        }
        let (number, _session) = self.sessions.range(after + 1..=u32::MAX).next()?;
        Some(*number)
    }

    /// Returns the least number of a session to which anything is due. Nothing may be due on the
    /// link. Nothing that contracts see changes. It allocates nothing.
    pub(crate) fn next_owed(&mut self) -> Option<u32>
        requires runs { IsRunning self.old }
        requires down { NoneDown self.old }
        ensures next { MatchOption result (NoneHanded 0 self.old)
            (λ number. (is_some (at number self.old.sessions.entries) ≡ true)
            × IsOwed number self.old) }
        ensures same { self.new ≡ self.old }
    {
        match self.hub.next_due() {
            Some(Owner::Client(number)) => Some(number),
            Some(Owner::Link(_link)) => None,
            None => None,
        }
    }
}

/// Removes and returns the session with a number.
fn take_session(sessions: &mut BTreeMap<u32, Session>, number: u32) -> Session
    requires { is_some (at number sessions.old.entries) ≡ true }
    ensures session { Some result ≡ at number sessions.old.entries }
    ensures puts { Puts number None sessions.old.entries sessions.new.entries }
{
    match sessions.remove(&number) {
        Some(session) => session,
        None => unreachable!(),
    }
}

/// Keeps a session under a number.
fn add(
    sessions: &mut BTreeMap<u32, Session>,
    number: u32,
    session: Session,
) -> Result<(), AllocError>
    ensures puts { OnOk result
        (Puts number (Some session) sessions.old.entries sessions.new.entries) }
    ensures entries { OnOk result
        (sessions.new.entries ≡ put_at number session sessions.old.entries) }
{
    sessions.insert(number, session)?;
    Ok(())
}

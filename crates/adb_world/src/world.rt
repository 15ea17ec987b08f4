//! A world.

ghost use Rattle.std.specs.Prelude.{ℕ, ◌≡◌, ◌+◌, ◌<◌, ◌≤◌, [], true, false, is_some, length, Some, IfOk, OnOk, OnErr, IsErr, option_map, option_copied};
ghost use Rattle.adb_outside.specs.Tables.{at};
ghost use Rattle.adb_device_streams.specs.Asked.{service_of};
ghost use Rattle.adb_files.specs.Served.{served};
ghost use Rattle.adb_laws_answers.specs.Words.{most_service};
ghost use Rattle.adb_world.specs.Answered.{AreEchoes, IsAnswered, IsAnsweredAlone, IsNewAlone, answer_of};
ghost use Rattle.adb_world.specs.Parts.{AreSame, most_sessions};
ghost use Rattle.adb_world.specs.Session.{new_session};
ghost use Rattle.adb_world.specs.Settled.{Each, HasMoved, IsCounted, IsSettled};
ghost use Rattle.adb_world.specs.Stopped.{IsServedInPart};
ghost use Rattle.adb_world.specs.Steps.{most_steps};
ghost use Rattle.adb_world.specs.Together.{AreAnsweredTogether, AreAskedInPart};
ghost use Rattle.adb_world.specs.World.{HasStarted};
ghost use Rattle.adb_world.specs.declared.session.Session.{Session};

use crate::answer::Answer;
use crate::asking::sync_parts;
use crate::ending::finish_parts;
use crate::laws::{new_worlds_have_no_files, settled_worlds_are_counted};
use crate::parts::Parts;
use crate::settling::settle_parts;
use crate::starting::begin;
use adb_files::Files;
use adb_outside::Text;
use std::alloc::{AllocError, Global};
use std::marker::Model;

/// One hub, one model device, and the sessions of scripted clients by their numbers. Between two
/// calls each session has written all its words, or none. After an allocation failure the world is
/// spent: each later call that can fail returns an error and changes nothing, and the files are
/// those after whole commands and whole sync requests.
#[derive(Drop)]
pub struct World {
    alloc: Global,
    parts: Parts,
    spent: bool,
    /// Whether everything that was started has settled.
    settled: bool,
}

impl Model for World {
    ghost use Rattle.adb_world.specs.World.{View};

    ghost Value = { View };

    ghost use Rattle.adb_world.specs.World.{view_of};
    ghost use Rattle.adb_world.specs.Settled.{IsSound};

    ghost view = { λ world. view_of world.parts world.spent world.settled };

    ghost invariant = { λ world. IsSound world.spent world.settled world.parts };
}

impl World {
    /// Makes a world with a hub and a device that have exchanged their banners, and no session.
    pub fn new(alloc: Global) -> Result<World, AllocError>
        ensures empty { IfOk result (λ world. world.sessions ≡ []) }
        ensures given { IfOk result (λ world. world.given ≡ 0) }
        ensures files { IfOk result (λ world. world.files ≡ []) }
        ensures whole { IfOk result (λ world. world.spent ≡ false) }
        ensures settled { IfOk result (λ world. world.settled ≡ true) }
        ensures calm { IfOk result IsSettled }
        ensures counted { IfOk result IsCounted }
    {
        settled_worlds_are_counted();
        new_worlds_have_no_files();
        keep_memory(alloc);
        let mut parts = Parts::new(alloc)?;
        parts.greet()?;
        settle_parts(&mut parts, 0, 0)?;
        Ok(World {
            alloc,
            parts,
            spent: false,
            settled: true,
        })
    }

    /// Adds a session and returns its number, the next one. Its client will select the device, ask
    /// for a service and write a text, and then neither write nor close.
    ///
    /// - `AllocError`: an allocation failed. The world is spent, and its files are unchanged.
    pub fn start(&mut self, service: &[u8], text: &[u8]) -> Result<u32, AllocError>
        requires known { is_some (service_of service.now) ≡ true }
        requires short { length service.now ≤ most_service }
        requires room { self.old.given < most_sessions }
        ensures number { IfOk result (λ number. number ≡ self.old.given + 1) }
        ensures started { OnOk result (HasStarted (self.old.given + 1)
            (new_session service.now text.now) self.old self.new) }
        ensures whole { OnOk result (self.new.spent ≡ false) }
        ensures new { OnOk result (self.new.settled ≡ false) }
        ensures spent { OnErr result (self.new.spent ≡ true) }
        ensures kept { OnErr result (self.new.files ≡ self.old.files) }
        ensures stays { self.old.spent ≡ true → IsErr result × (self.new ≡ self.old) }
    {
        if self.spent {
            return Err(AllocError);
        }
        match Text::from_slice(self.alloc, text) {
            Ok(text) => self.start_text(service, text),
            Err(error) => {
                self.spent = true;
                Err(error)
            }
        }
    }

    /// Adds a session as `start` does, with a text that is moved and not copied.
    ///
    /// - `AllocError`: an allocation failed. The world is spent, and its files are unchanged.
    pub fn start_text(&mut self, service: &[u8], text: Text) -> Result<u32, AllocError>
        requires known { is_some (service_of service.now) ≡ true }
        requires short { length service.now ≤ most_service }
        requires room { self.old.given < most_sessions }
        ensures number { IfOk result (λ number. number ≡ self.old.given + 1) }
        ensures started { OnOk result (HasStarted (self.old.given + 1)
            (new_session service.now text) self.old self.new) }
        ensures whole { OnOk result (self.new.spent ≡ false) }
        ensures new { OnOk result (self.new.settled ≡ false) }
        ensures spent { OnErr result (self.new.spent ≡ true) }
        ensures kept { OnErr result (self.new.files ≡ self.old.files) }
        ensures stays { self.old.spent ≡ true → IsErr result × (self.new ≡ self.old) }
    {
        if self.spent {
            return Err(AllocError);
        }
        match begin(self.alloc, &mut self.parts, service, text) {
            Ok(number) => {
                self.settled = false;
                Ok(number)
            }
            Err(error) => {
                self.spent = true;
                Err(error)
            }
        }
    }

    /// Returns the bytes that a session was handed. `None` exactly if no session has the number.
    pub fn got(&self, session: u32) -> Option<&[u8]>
        ensures { option_copied result
            ≡ option_map (λ session. session.got) (at session self.now.sessions) }
    {
        match self.parts.sessions.get(&session) {
            Some(session) => Some(session.got.as_slice()),
            None => None,
        }
    }

    /// Returns the bytes that a session was handed after the replies to its two requests. `None`
    /// exactly if no session has the number.
    pub fn answer(&self, session: u32) -> Option<&[u8]>
        ensures { option_copied result
            ≡ option_map answer_of (at session self.now.sessions) }
    {
        match self.parts.sessions.get(&session) {
            Some(session) => Some(session.answer()),
            None => None,
        }
    }

    /// Runs a new session of the file service alone and returns its answer to these bytes: the
    /// answers to their whole requests, in order, over the files. The session is then dropped, and
    /// the others are unchanged. Everything that was started must have settled.
    ///
    /// - `AllocError`: an allocation failed. The world is spent, and its files are those after a
    ///   prefix of the whole requests.
    pub fn sync(&mut self, seed: u64, ask: &[u8]) -> Result<Text, AllocError>
        requires settled { self.old.settled ≡ true }
        requires room { self.old.given < most_sessions }
        ensures answer { IfOk result (λ answer.
            answer ≡ (served self.old.files ask.now).answer) }
        ensures files { OnOk result (self.new.files ≡ (served self.old.files ask.now).files) }
        ensures same { OnOk result (AreSame self.old.sessions self.new.sessions) }
        ensures given { OnOk result (self.new.given ≡ self.old.given + 1) }
        ensures calm { OnOk result (IsSettled self.new) }
        ensures counted { OnOk result (IsCounted self.new) }
        ensures settled { OnOk result (self.new.settled ≡ true) }
        ensures whole { OnOk result (self.new.spent ≡ false) }
        ensures spent { OnErr result (self.new.spent ≡ true) }
        ensures in_part { OnErr result (IsServedInPart self.old.files self.new.files ask.now) }
        ensures stays { self.old.spent ≡ true → IsErr result × (self.new ≡ self.old) }
    {
        if self.spent {
            return Err(AllocError);
        }
        match Text::from_slice(self.alloc, ask) {
            Ok(ask) => {
                let answer = self.sync_text(seed, ask)?;
                Ok(answer.into_text())
            }
            Err(error) => {
                self.spent = true;
                Err(error)
            }
        }
    }

    /// Runs a session as `sync` does. The bytes and the answer are moved and not copied.
    ///
    /// - `AllocError`: an allocation failed. The world is spent, and its files are those after a
    ///   prefix of the whole requests.
    pub fn sync_text(&mut self, seed: u64, ask: Text) -> Result<Answer, AllocError>
        requires settled { self.old.settled ≡ true }
        requires room { self.old.given < most_sessions }
        ensures answer { IfOk result (λ answer. answer ≡ (served self.old.files ask).answer) }
        ensures files { OnOk result (self.new.files ≡ (served self.old.files ask).files) }
        ensures same { OnOk result (AreSame self.old.sessions self.new.sessions) }
        ensures given { OnOk result (self.new.given ≡ self.old.given + 1) }
        ensures calm { OnOk result (IsSettled self.new) }
        ensures counted { OnOk result (IsCounted self.new) }
        ensures settled { OnOk result (self.new.settled ≡ true) }
        ensures whole { OnOk result (self.new.spent ≡ false) }
        ensures spent { OnErr result (self.new.spent ≡ true) }
        ensures in_part { OnErr result (IsServedInPart self.old.files self.new.files ask) }
        ensures stays { self.old.spent ≡ true → IsErr result × (self.new ≡ self.old) }
    {
        settled_worlds_are_counted();
        if self.spent {
            return Err(AllocError);
        }
        match sync_parts(self.alloc, &mut self.parts, ask, seed) {
            Ok(answer) => Ok(answer),
            Err(error) => {
                self.spent = true;
                Err(error)
            }
        }
    }

    /// Ends the client of each session in order, one after the other, and drops the sessions. Their
    /// numbers are not given again. The world settles without them. Everything that was started
    /// must have settled.
    ///
    /// - `AllocError`: an allocation failed. The world is spent, and its files are unchanged.
    pub fn finish(&mut self, seed: u64) -> Result<(), AllocError>
        requires settled { self.old.settled ≡ true }
        ensures empty { OnOk result (self.new.sessions ≡ []) }
        ensures calm { OnOk result (IsSettled self.new) }
        ensures counted { OnOk result (IsCounted self.new) }
        ensures given { OnOk result (self.new.given ≡ self.old.given) }
        ensures files { self.new.files ≡ self.old.files }
        ensures settled { OnOk result (self.new.settled ≡ true) }
        ensures whole { OnOk result (self.new.spent ≡ false) }
        ensures spent { OnErr result (self.new.spent ≡ true) }
        ensures stays { self.old.spent ≡ true → IsErr result × (self.new ≡ self.old) }
    {
        settled_worlds_are_counted();
        if self.spent {
            return Err(AllocError);
        }
        match finish_parts(&mut self.parts, seed) {
            Ok(()) => Ok(()),
            Err(error) => {
                self.spent = true;
                Err(error)
            }
        }
    }

    /// Returns the files of the device.
    pub fn files(&self) -> &Files
        ensures { result.now ≡ self.now.files }
    {
        self.parts.device.files()
    }
}

/// The size of a block up to which freed memory is kept for later allocations.
const KEPT_BLOCK: usize = 33_550_000;

/// Allocates a block and frees it, if the allocation succeeds. From then on glibc returns no block
/// of this size or less to the system (`mallopt(3)`, `M_MMAP_THRESHOLD`), so that the bytes that
/// move use the same pages again. The block itself is never touched.
fn keep_memory(alloc: Global) {
    let block: Result<Vec<u8>, AllocError> = Vec::with_capacity(alloc, KEPT_BLOCK);
    drop(block);
}

/// Moves bytes, in pieces and between sides that the seed picks, until none can move, and returns
/// the number of steps, each of which is an entry of the hub's history. There are at most 64 steps
/// for each byte of the sessions' services, of their texts and of the bytes that they were handed,
/// 1,024 for each session, and 1,024 more.
///
/// - `AllocError`: an allocation failed. The world is spent. Its files are those after whole
///   commands and whole sync requests of the sessions that had written nothing, in one order. The
///   requests of each session are a prefix of those that it asks for.
pub fn settle(world: &mut World, seed: u64) -> Result<u64, AllocError>
    ensures settled { OnOk result (IsSettled world.new) }
    ensures counted { OnOk result (IsCounted world.new) }
    ensures same { OnOk result (AreSame world.old.sessions world.new.sessions) }
    ensures given { OnOk result (world.new.given ≡ world.old.given) }
    ensures answered { OnOk result (Each world.new.sessions IsAnswered) }
    ensures alone { (n : ℕ) (session : Session) → IsNewAlone n world.old.sessions
        → at n world.new.sessions ≡ Some session
        → OnOk result (IsAnsweredAlone session world.old.files world.new.files) }
    ensures together { OnOk result (AreAnsweredTogether world.old.files world.new.files
        world.old.sessions world.new.sessions) }
    ensures in_part { OnErr result (AreAskedInPart world.old.files world.new.files
        world.old.sessions) }
    ensures files { AreEchoes world.old.sessions
        → OnOk result (world.new.files ≡ world.old.files) }
    ensures moved { IfOk result (λ steps. HasMoved steps world.old.hub world.new.hub) }
    ensures steps { IfOk result (λ steps. steps ≤ most_steps world.new.sessions) }
    ensures rests { OnOk result (world.new.settled ≡ true) }
    ensures whole { OnOk result (world.new.spent ≡ false) }
    ensures spent { OnErr result (world.new.spent ≡ true) }
    ensures stays { world.old.spent ≡ true → IsErr result × (world.new ≡ world.old) }
{
    settled_worlds_are_counted();
    if world.spent {
        return Err(AllocError);
    }
    match settle_parts(&mut world.parts, seed, 0) {
        Ok(steps) => {
            world.settled = true;
            Ok(steps)
        }
        Err(error) => {
            world.spent = true;
            Err(error)
        }
    }
}

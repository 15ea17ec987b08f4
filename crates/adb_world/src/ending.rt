//! Ending of sessions, one after the other.

ghost use Rattle.std.specs.Prelude.{◌≡◌, [], true, is_some, Some, IfOk, OnErr, OnOk};
ghost use Rattle.adb_outside.specs.Tables.{at};
ghost use Rattle.adb_daemon.specs.Daemon.{files_of};
ghost use Rattle.adb_world.specs.Parts.{AreSameBut};
ghost use Rattle.adb_world.specs.Settled.{IsDone};

use crate::laws::{ended_sessions_change_no_file, sessions_that_end_in_part_change_no_file};
use crate::parts::Parts;
use crate::session::Session;
use crate::settling::settle_parts;
use adb_laws_births::what_came_stays;
use std::alloc::AllocError;

/// Ends the client of each session in order, and keeps no session. The files are unchanged, also if
/// an allocation fails.
pub(crate) fn finish_parts(parts: &mut Parts, seed: u64) -> Result<(), AllocError>
    requires { IsDone parts.old }
    ensures done { OnOk result (IsDone parts.new) }
    ensures none { OnOk result (parts.new.sessions.entries ≡ []) }
    ensures given { OnOk result (parts.new.given ≡ parts.old.given) }
    ensures files { files_of parts.new.device ≡ files_of parts.old.device }
{
    let mut after = 0;
    while let Some(number) = parts.next_session(after) {
        finish_one(parts, number, seed)?;
        after = number;
    }
    Ok(())
}

/// Ends the client of a session in order, settles the world without it, and returns the session.
/// The files are unchanged, also if an allocation fails.
pub(crate) fn finish_one(parts: &mut Parts, number: u32, seed: u64) -> Result<Session, AllocError>
    requires done { IsDone parts.old }
    requires there { is_some (at number parts.old.sessions.entries) ≡ true }
    ensures session { IfOk result (λ session. Some session
        ≡ at number parts.old.sessions.entries) }
    ensures done { OnOk result (IsDone parts.new) }
    ensures same { OnOk result
        (AreSameBut number parts.old.sessions.entries parts.new.sessions.entries) }
    ensures given { OnOk result (parts.new.given ≡ parts.old.given) }
    ensures files { files_of parts.new.device ≡ files_of parts.old.device }
{
    what_came_stays();
    ended_sessions_change_no_file();
    sessions_that_end_in_part_change_no_file();
    let session = parts.end(number);
    settle_parts(parts, seed, u32::MAX)?;
    Ok(session)
}

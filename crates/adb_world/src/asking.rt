//! Sessions that run alone, and are then dropped.

ghost use Rattle.std.specs.Prelude.{◌≡◌, ◌+◌, ◌<◌, IfOk, OnErr, OnOk};
ghost use Rattle.adb_daemon.specs.Daemon.{files_of};
ghost use Rattle.adb_files.specs.Served.{served};
ghost use Rattle.adb_world.specs.Parts.{AreSame, most_sessions};
ghost use Rattle.adb_world.specs.Settled.{IsDone};
ghost use Rattle.adb_world.specs.Stopped.{IsServedInPart};

use crate::answer::Answer;
use crate::ending::finish_one;
use crate::parts::Parts;
use crate::settling::settle_parts;
use crate::starting::begin;
use adb_outside::Text;
use std::alloc::{AllocError, Global};

/// Returns the answer to these bytes of a new session of the file service.
///
/// - `AllocError`: an allocation failed. The files are those after a prefix of the whole requests
///   of the bytes.
pub(crate) fn sync_parts(
    alloc: Global,
    parts: &mut Parts,
    ask: Text,
    seed: u64,
) -> Result<Answer, AllocError>
    requires done { IsDone parts.old }
    requires room { parts.old.given < most_sessions }
    ensures done { OnOk result (IsDone parts.new) }
    ensures answer { IfOk result (λ answer.
        answer ≡ (served (files_of parts.old.device) ask).answer) }
    ensures files { OnOk result (files_of parts.new.device
        ≡ (served (files_of parts.old.device) ask).files) }
    ensures same { OnOk result
        (AreSame parts.old.sessions.entries parts.new.sessions.entries) }
    ensures given { OnOk result (parts.new.given ≡ parts.old.given + 1) }
    ensures in_part { OnErr result (IsServedInPart (files_of parts.old.device)
        (files_of parts.new.device) ask) }
{
    let wrote = parts.given;
    let number = begin(alloc, parts, b"sync:", ask)?;
    settle_parts(parts, seed, wrote)?;
    let session = finish_one(parts, number, seed)?;
    Ok(session.into_answer())
}

//! Starting a session.

ghost use Rattle.std.specs.Prelude.{◌≡◌, ◌+◌, ◌<◌, IfOk, OnErr, OnOk};
ghost use Rattle.adb_laws_answers.specs.Words.{IsKnown};
ghost use Rattle.adb_world.specs.Parts.{Adds, most_sessions};
ghost use Rattle.adb_world.specs.Session.{new_session};
ghost use Rattle.adb_world.specs.Settled.{IsAtEase};

use crate::parts::Parts;
use crate::session::Session;
use adb_outside::Text;
use std::alloc::{AllocError, Global};

/// Makes a session, and admits its client.
pub(crate) fn begin(
    alloc: Global,
    parts: &mut Parts,
    service: &[u8],
    text: Text,
) -> Result<u32, AllocError>
    requires ease { IsAtEase parts.old }
    requires known { IsKnown service.now }
    requires room { parts.old.given < most_sessions }
    ensures number { IfOk result (λ number. number ≡ parts.old.given + 1) }
    ensures added { OnOk result (Adds (parts.old.given + 1)
        (new_session service.now text) parts.old parts.new) }
    ensures ease { OnOk result (IsAtEase parts.new) }
    ensures kept { OnErr result (parts.new.device ≡ parts.old.device) }
{
    let session = Session::new(alloc, service, text)?;
    let number = parts.join(session)?;
    Ok(number)
}

//! Moving of bytes of one kind, if any can move.

ghost use Rattle.std.specs.Prelude.{◌≡◌, ◌<◌, IfOk, OnErr, OnOk};
ghost use Rattle.adb_daemon.specs.Daemon.{files_of};
ghost use Rattle.adb_world.specs.Parts.{IsRunning};
ghost use Rattle.adb_world.specs.Stopped.{Fails};
ghost use Rattle.adb_world.specs.Settled.{Anything, Goes, HaveWritten, NoneDown, NoneHanded, NoneUp, NoneWritten};

use crate::parts::Parts;
use adb_laws_births::what_came_stays;
use std::alloc::AllocError;

/// Moves bytes that are due on the link to the device.
pub(crate) fn down(parts: &mut Parts, most: usize) -> Result<bool, AllocError>
    requires runs { IsRunning parts.old }
    requires some { 0 < most }
    ensures moves { IfOk result (λ moved. Goes NoneDown moved parts.old parts.new) }
    ensures fails { OnErr result (Fails parts.old parts.new) }
{
    what_came_stays();
    let moved = parts.down(most)?;
    Ok(moved)
}

/// Moves bytes that the device owes to the hub.
pub(crate) fn up(parts: &mut Parts, most: usize) -> Result<bool, AllocError>
    requires runs { IsRunning parts.old }
    requires some { 0 < most }
    ensures moves { IfOk result (λ moved. Goes NoneUp moved parts.old parts.new) }
    ensures kept { OnErr result (files_of parts.new.device ≡ files_of parts.old.device) }
{
    what_came_stays();
    let moved = parts.up(most)?;
    Ok(moved)
}

/// Hands bytes to the first session after a number, if any are due to it.
pub(crate) fn hand_one(parts: &mut Parts, after: u32, most: usize) -> Result<bool, AllocError>
    requires runs { IsRunning parts.old }
    requires some { 0 < most }
    ensures moves { IfOk result (λ moved. Goes Anything moved parts.old parts.new) }
    ensures kept { OnErr result (files_of parts.new.device ≡ files_of parts.old.device) }
{
    what_came_stays();
    let Some(number) = parts.next_session(after) else {
        return Ok(false);
    };
    let moved = parts.hand(number, most)?;
    Ok(moved)
}

/// Writes bytes of the first session after a number, if it has any left to write.
pub(crate) fn write_one(parts: &mut Parts, after: u32, most: usize) -> Result<bool, AllocError>
    requires runs { IsRunning parts.old }
    requires some { 0 < most }
    ensures moves { IfOk result (λ moved. Goes Anything moved parts.old parts.new) }
    ensures kept { OnErr result (files_of parts.new.device ≡ files_of parts.old.device) }
{
    what_came_stays();
    let Some(number) = parts.next_session(after) else {
        return Ok(false);
    };
    let moved = parts.write(number, most)?;
    Ok(moved)
}

/// Hands bytes to the first session to which any are due. Nothing may be due on the link. Sessions
/// to which nothing is due are not visited.
pub(crate) fn hand_next(parts: &mut Parts, most: usize) -> Result<bool, AllocError>
    requires runs { IsRunning parts.old }
    requires some { 0 < most }
    requires down { NoneDown parts.old }
    ensures moves { IfOk result (λ moved. Goes (NoneHanded 0) moved parts.old parts.new) }
    ensures kept { OnErr result (files_of parts.new.device ≡ files_of parts.old.device) }
{
    what_came_stays();
    let Some(number) = parts.next_owed() else {
        return Ok(false);
    };
    let moved = parts.hand(number, most)?;
    Ok(moved)
}

/// Writes bytes of the first session that has any left to write. The sessions up to `wrote` have
/// written everything; `wrote` grows past each further session that has, so that none is visited
/// twice.
pub(crate) fn write_next(
    parts: &mut Parts,
    wrote: &mut u32,
    most: usize,
) -> Result<bool, AllocError>
    requires runs { IsRunning parts.old }
    requires some { 0 < most }
    requires wrote { HaveWritten wrote.old parts.old }
    ensures moves { IfOk result (λ moved. Goes (NoneWritten 0) moved parts.old parts.new) }
    ensures kept { OnErr result (files_of parts.new.device ≡ files_of parts.old.device) }
    ensures wrote { OnOk result (HaveWritten wrote.new parts.new) }
{
    what_came_stays();
    while let Some(number) = parts.next_session(*wrote) {
        if parts.write(number, most)? {
            return Ok(true);
        }
        *wrote = number;
    }
    Ok(false)
}

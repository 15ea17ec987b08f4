//! Running of a world until nothing in it can move.

ghost use Rattle.std.specs.Prelude.{ℕ, ◌<◌, ◌≤◌, ◌≡◌, Some, IfOk, OnErr, OnOk};
ghost use Rattle.adb_outside.specs.Tables.{at};
ghost use Rattle.adb_daemon.specs.Daemon.{files_of};
ghost use Rattle.adb_world.specs.Answered.{AreEchoes, IsAnswered, IsAnsweredAlone, IsNewAlone};
ghost use Rattle.adb_world.specs.Parts.{IsRunning};
ghost use Rattle.adb_world.specs.Settled.{Anything, AreWhole, Each, Goes, GoesOn, HasMade, HaveWritten, IsAtEase, IsDone, Rests};
ghost use Rattle.adb_world.specs.Steps.{most_steps};
ghost use Rattle.adb_world.specs.Stopped.{Fails, HasStopped};
ghost use Rattle.adb_world.specs.Together.{AreAnsweredTogether, AreAskedInPart};
ghost use Rattle.adb_world.specs.declared.session.Session.{Session};

use crate::choices::{Side, Turn, turn_of};
use crate::laws::{
    echoes_change_no_file, sessions_alone_are_answered, sessions_are_answered_together,
    sessions_are_asked_in_part, settling_takes_few_steps, worlds_that_rest_are_settled,
};
use crate::moving::{down, hand_next, hand_one, up, write_next, write_one};
use crate::parts::Parts;
use rand_core::SeedableRng;
use rand_core::utils::NextWord;
use rand_pcg::Pcg32;
use std::alloc::AllocError;

/// Makes steps until none is possible, and returns their number. The sessions up to `wrote` have
/// written everything.
///
/// - `AllocError`: an allocation failed. The files are those after whole commands and whole sync
///   requests.
pub(crate) fn settle_parts(parts: &mut Parts, seed: u64, wrote: u32) -> Result<u64, AllocError>
    requires runs { IsRunning parts.old }
    requires wrote { HaveWritten wrote parts.old }
    ensures goes { OnOk result (GoesOn parts.old parts.new) }
    ensures made { IfOk result (λ steps. HasMade steps parts.old parts.new) }
    ensures done { OnOk result (IsDone parts.new) }
    ensures answered { OnOk result (Each parts.new.sessions.entries IsAnswered) }
    ensures alone { IsAtEase parts.old → (n : ℕ) (session : Session)
        → IsNewAlone n parts.old.sessions.entries → at n parts.new.sessions.entries ≡ Some session
        → OnOk result (IsAnsweredAlone session (files_of parts.old.device)
        (files_of parts.new.device)) }
    ensures files { IsAtEase parts.old → AreEchoes parts.old.sessions.entries
        → OnOk result (files_of parts.new.device ≡ files_of parts.old.device) }
    ensures together { IsAtEase parts.old → AreWhole parts.old.sessions.entries
        → OnOk result (AreAnsweredTogether (files_of parts.old.device)
        (files_of parts.new.device) parts.old.sessions.entries parts.new.sessions.entries) }
    ensures steps { IsAtEase parts.old
        → IfOk result (λ steps. steps ≤ most_steps parts.new.sessions.entries) }
    ensures stopped { OnErr result (HasStopped parts.old parts.new) }
    ensures in_part { IsAtEase parts.old → AreWhole parts.old.sessions.entries
        → OnErr result (AreAskedInPart (files_of parts.old.device)
        (files_of parts.new.device) parts.old.sessions.entries) }
{
    settling_takes_few_steps();
    worlds_that_rest_are_settled();
    sessions_alone_are_answered();
    echoes_change_no_file();
    sessions_are_answered_together();
    sessions_are_asked_in_part();
    let mut words = Pcg32::seed_from_u64(seed);
    let mut wrote = wrote;
    for steps in 0..u64::MAX {
        let side = words.next_word();
        let turn = turn_of(side, words.next_word(), parts.given);
        if !step(parts, turn, &mut wrote)? {
            return Ok(steps);
        }
    }
    Err(AllocError)
}

/// Makes one step, if one is possible.
fn step(parts: &mut Parts, turn: Turn, wrote: &mut u32) -> Result<bool, AllocError>
    requires runs { IsRunning parts.old }
    requires some { 0 < turn.most }
    requires wrote { HaveWritten wrote.old parts.old }
    ensures moves { IfOk result (λ moved. Goes Rests moved parts.old parts.new) }
    ensures fails { OnErr result (Fails parts.old parts.new) }
    ensures wrote { OnOk result (HaveWritten wrote.new parts.new) }
{
    if first_step(parts, turn)? {
        return Ok(true);
    }
    if down(parts, turn.most)? {
        return Ok(true);
    }
    if up(parts, turn.most)? {
        return Ok(true);
    }
    if hand_next(parts, turn.most)? {
        return Ok(true);
    }
    let moved = write_next(parts, wrote, turn.most)?;
    Ok(moved)
}

/// Makes a step of the chosen kind, if one is possible.
fn first_step(parts: &mut Parts, turn: Turn) -> Result<bool, AllocError>
    requires runs { IsRunning parts.old }
    requires some { 0 < turn.most }
    ensures moves { IfOk result (λ moved. Goes Anything moved parts.old parts.new) }
    ensures fails { OnErr result (Fails parts.old parts.new) }
{
    match turn.first {
        Side::Down => {
            let moved = down(parts, turn.most)?;
            Ok(moved)
        }
        Side::Up => {
            let moved = up(parts, turn.most)?;
            Ok(moved)
        }
        Side::Hand => {
            let moved = hand_one(parts, turn.after, turn.most)?;
            Ok(moved)
        }
        Side::Write => {
            let moved = write_one(parts, turn.after, turn.most)?;
            Ok(moved)
        }
    }
}

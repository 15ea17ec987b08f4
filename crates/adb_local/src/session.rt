//! Running the lines of a script that have one session.

ghost use Rattle.std.specs.Prelude.{◌≡◌, ◌+◌, ◌<◌, true, is_some, Some, option_map, IfOk, OnErr, OnOk};
ghost use Rattle.adb_outside.specs.Tables.{at};
ghost use Rattle.adb_script.specs.Answers.{line_answer, printed, service_of, text_of};
ghost use Rattle.adb_script.specs.Lines.{Asks, asked_of};
ghost use Rattle.adb_world.specs.Answered.{answer_of};
ghost use Rattle.adb_world.specs.Parts.{most_sessions};
ghost use Rattle.adb_world.specs.Session.{new_session};
ghost use Rattle.adb_world.specs.World.{HasStarted};
ghost use Rattle.adb_local.specs.Running.{IsAskedInPart, IsIdle, MayAsk, RunsLine};

use adb_outside::Text;
use adb_script::SessionLine;
use adb_world::{World, settle};
use std::alloc::{AllocError, Global};

/// Runs the session of the line with this number, and returns its answer line.
pub(crate) fn run_session(
    alloc: Global,
    world: &mut World,
    line: &SessionLine<'_>,
    number: u32,
    seed: u64,
) -> Result<Text, AllocError>
    requires idle { IsIdle world.old }
    requires line { MayAsk (asked_of line.now) }
    requires room { world.old.given < most_sessions }
    ensures text { IfOk result (λ text. text
        ≡ (line_answer world.old.files number (Asks (asked_of line.now))).text) }
    ensures runs { OnOk result
        (RunsLine number (Asks (asked_of line.now)) world.old world.new) }
    ensures in_part { OnErr result (IsAskedInPart number (asked_of line.now)
        world.old.files world.new.files) }
{
    let session = start_session(alloc, world, line, number)?;
    settle(world, seed)?;
    let text = print_session(alloc, world, line, session)?;
    world.finish(seed)?;
    Ok(text)
}

/// Starts the session of the line with this number, and returns the number of the session.
fn start_session(
    alloc: Global,
    world: &mut World,
    line: &SessionLine<'_>,
    number: u32,
) -> Result<u32, AllocError>
    requires line { MayAsk (asked_of line.now) }
    requires room { world.old.given < most_sessions }
    ensures number { IfOk result (λ session. session ≡ world.old.given + 1) }
    ensures started { OnOk result (HasStarted (world.old.given + 1)
        (new_session (service_of (asked_of line.now)) (text_of number (asked_of line.now)))
        world.old world.new) }
    ensures kept { OnErr result (world.new.files ≡ world.old.files) }
{
    let service = line.service(alloc)?;
    let text = line.text(alloc, number)?;
    let session = world.start_text(service.as_slice(), text)?;
    Ok(session)
}

/// Returns the answer line for the bytes that a session was handed.
fn print_session(
    alloc: Global,
    world: &World,
    line: &SessionLine<'_>,
    session: u32,
) -> Result<Text, AllocError>
    requires { is_some (at session world.now.sessions) ≡ true }
    ensures { IfOk result (λ text. Some text ≡ option_map
        (λ session. printed (asked_of line.now) (answer_of session))
        (at session world.now.sessions)) }
{
    match world.answer(session) {
        Some(answer) => line.answer(alloc, answer),
        None => unreachable!(),
    }
}

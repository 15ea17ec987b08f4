//! Running the echo lines of a script: each stream gets back the bytes that it sends.

ghost use Rattle.std.specs.Prelude.{◌≡◌, ◌+◌, ◌≤◌, ◌<◌, ◌++◌, Some, codes, option_map, IfOk, OnErr, OnOk};
ghost use Rattle.adb_outside.specs.Tables.{at};
ghost use Rattle.adb_script.specs.Answers.{line_answer};
ghost use Rattle.adb_script.specs.Lines.{echo_of};
ghost use Rattle.adb_script.specs.Pattern.{pattern};
ghost use Rattle.adb_world.specs.Answered.{answer_of};
ghost use Rattle.adb_world.specs.Parts.{most_sessions};
ghost use Rattle.adb_world.specs.World.{HasStarted};
ghost use Rattle.adb_local.specs.Running.{IsIdle, RunsLine};
ghost use Rattle.adb_local.specs.Streams.{AreEchoed, IsStarting, stream_session};

use adb_outside::Text;
use adb_script::EchoLine;
use adb_world::{World, settle};
use std::alloc::{AllocError, Global};

/// The service that writes back the bytes that it gets.
const ECHO_SERVICE: &[u8] = b"echo:";

/// Runs the streams of an echo line side by side, and returns the answer line, which says that each
/// stream got back what it sent.
pub(crate) fn run_echo(
    alloc: Global,
    world: &mut World,
    echo: EchoLine,
    number: u32,
    seed: u64,
) -> Result<Text, AllocError>
    requires idle { IsIdle world.old }
    requires some { 0 < echo.streams }
    requires room { world.old.given + echo.streams ≤ most_sessions }
    ensures text { IfOk result (λ text. text
        ≡ (line_answer world.old.files number (echo_of echo)).text) }
    ensures runs { OnOk result (RunsLine number (echo_of echo) world.old world.new) }
    ensures kept { OnErr result (world.new.files ≡ world.old.files) }
{
    let first = start_streams(alloc, world, echo)?;
    settle(world, seed)?;
    look_at_streams(world, first, echo);
    world.finish(seed)?;
    let text = echo.answer(alloc)?;
    Ok(text)
}

/// Starts a session for each stream, and returns the number of the first session.
fn start_streams(alloc: Global, world: &mut World, echo: EchoLine) -> Result<u32, AllocError>
    requires idle { IsIdle world.old }
    requires some { 0 < echo.streams }
    requires room { world.old.given + echo.streams ≤ most_sessions }
    ensures first { IfOk result (λ first. first ≡ world.old.given + 1) }
    ensures started { OnOk result (IsStarting echo.streams echo.size world.old world.new) }
    ensures kept { OnErr result (world.new.files ≡ world.old.files) }
{
    let first = start_stream(alloc, world, echo, 0)?;
    for stream in 1..echo.streams {
        start_stream(alloc, world, echo, stream)?;
    }
    Ok(first)
}

/// Starts the session of a stream, and returns its number.
fn start_stream(
    alloc: Global,
    world: &mut World,
    echo: EchoLine,
    stream: u32,
) -> Result<u32, AllocError>
    requires { world.old.given < most_sessions }
    ensures number { IfOk result (λ session. session ≡ world.old.given + 1) }
    ensures started { OnOk result (HasStarted (world.old.given + 1)
        (stream_session echo.size stream) world.old world.new) }
    ensures kept { OnErr result (world.new.files ≡ world.old.files) }
{
    let text = echo.text(alloc, stream)?;
    let session = world.start_text(ECHO_SERVICE, text)?;
    Ok(session)
}

/// Checks that each stream got back what it sent. The sessions of the streams have consecutive
/// numbers.
fn look_at_streams(world: &World, first: u32, echo: EchoLine)
    requires room { first + echo.streams ≤ most_sessions + 1 }
    requires echoed { AreEchoed first echo.streams echo.size world.now.sessions }
{
    for stream in 0..echo.streams {
        look_at_stream(world, first + stream, echo, stream);
    }
}

/// Checks that a stream got back what it sent.
fn look_at_stream(world: &World, session: u32, echo: EchoLine, stream: u32)
    requires { option_map answer_of (at session world.now.sessions)
        ≡ Some (pattern stream echo.size) }
{
    match world.answer(session) {
        Some(answer) => {
            if !echo.is_echoed(stream, answer) {
                unreachable!();
            }
        }
        None => unreachable!(),
    }
}

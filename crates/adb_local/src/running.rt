//! Running a whole script.

ghost use Rattle.std.specs.Prelude.{ℕ, ◌≡◌, ◌≢◌, ◌≤◌, ◌+◌, Some, Err, IfOk, OnErr, OnOk};
ghost use Rattle.adb_script.specs.Answers.{script_answers};
ghost use Rattle.adb_script.specs.Script.{first_bad, lines_in};
ghost use Rattle.adb_script.specs.Told.{texts_of};
ghost use Rattle.adb_world.specs.Parts.{most_sessions};
ghost use Rattle.adb_local.specs.Running.{IsIdle, IsNew, IsRunInPart, answers_left, sessions_in};

use crate::script_run::ScriptRun;
use adb_script::{Line, ScriptError, add_line};
use adb_world::World;
use std::alloc::{AllocError, Global};

/// Runs a script in a new world and returns its answer lines, which the seed does not change. A
/// line has one session, or one for each stream of an echo. The sessions of a line have ended and
/// are dropped before the next line runs.
///
/// - `BadLine`: a line is refused; it is the first one. The whole script is read before any line
///   runs, so the world is unchanged.
/// - `OutOfMemory`: an allocation failed. The world is spent, or some lines were run. The files are
///   those after a prefix of the lines and a part of the next line. The part of a line with a
///   command is the whole command or nothing; that of any other line is a prefix of its whole
///   requests.
pub fn run_script(
    alloc: Global,
    world: &mut World,
    script: &[u8],
    seed: u64,
) -> Result<Vec<Line>, ScriptError>
    requires { IsNew world.old }
    ensures lines { IfOk result (λ lines.
        script_answers script.now ≡ Some (texts_of lines.items)) }
    ensures idle { OnOk result (IsIdle world.new) }
    ensures sessions { OnOk result (world.new.given ≡ sessions_in (lines_in script.now)) }
    ensures bad { (line : ℕ) → result ≡ Err (ScriptError.BadLine line)
        → first_bad script.now ≡ Some line }
    ensures told { (line : ℕ) → first_bad script.now ≡ Some line
        → result ≢ Err ScriptError.OutOfMemory → result ≡ Err (ScriptError.BadLine line) }
    ensures before { (line : ℕ) → result ≡ Err (ScriptError.BadLine line)
        → world.new ≡ world.old }
    ensures in_part { result ≡ Err ScriptError.OutOfMemory
        → IsRunInPart 1 (lines_in script.now) world.old.files world.new.files }
{
    let mut run = ScriptRun::new(alloc, script, seed)?;
    match run_lines(alloc, world, &mut run) {
        Ok(lines) => Ok(lines),
        Err(_) => Err(ScriptError::OutOfMemory),
    }
}

/// Runs the remaining lines, and returns their answers.
fn run_lines(
    alloc: Global,
    world: &mut World,
    run: &mut ScriptRun<'_>,
) -> Result<Vec<Line>, AllocError>
    requires idle { IsIdle world.old }
    requires room { world.old.given + sessions_in run.old.lines ≤ most_sessions }
    ensures lines { IfOk result (λ lines. texts_of lines.items
        ≡ answers_left run.old world.old) }
    ensures idle { OnOk result (IsIdle world.new) }
    ensures given { OnOk result (world.new.given
        ≡ world.old.given + sessions_in run.old.lines) }
    ensures in_part { OnErr result (IsRunInPart run.old.number run.old.lines
        world.old.files world.new.files) }
{
    let mut lines = Vec::new(alloc);
    while let Some(answer) = run.next(alloc, world)? {
        add_line(&mut lines, answer)?;
    }
    Ok(lines)
}

//! A script that is run line by line.

ghost use Rattle.std.specs.Prelude.{ℕ, ◌≡◌, ◌≢◌, ◌≤◌, ◌+◌, Some, None, Err, IfOk, OnErr, OnOk, length};
ghost use Rattle.adb_script.specs.Answers.{line_answer, sessions_of};
ghost use Rattle.adb_script.specs.Lines.{seen};
ghost use Rattle.adb_script.specs.Script.{first_bad, lines_in};
ghost use Rattle.adb_script.specs.declared.script.TheConstants.{MAX_LINES};
ghost use Rattle.adb_world.specs.Parts.{most_sessions};
ghost use Rattle.adb_local.specs.Running.{IsIdle, IsLineInPart, IsRunInPart, MayStand, RunsLine, RunsNext, all_left, sessions_in};

use crate::echoing::run_echo;
use crate::session::run_session;
use adb_outside::Text;
use adb_script::{Script, ScriptError, ScriptLine};
use adb_world::World;
use rand_core::SeedableRng;
use rand_core::utils::NextWord;
use rand_pcg::Pcg32;
use std::alloc::{AllocError, Global};
use std::marker::Model;

/// A script that is run line by line. Contracts see the remaining lines, and the number of the
/// first of them.
#[derive(Drop)]
pub struct ScriptRun<'a> {
    script: Script<'a>,
    /// The number of lines that were run.
    done: u32,
    words: Pcg32,
}

impl<'a> Model for ScriptRun<'a> {
    ghost use Rattle.std.specs.Prelude.{◌≤◌, length};
    ghost use Rattle.adb_script.specs.declared.script.TheConstants.{MAX_LINES};
    ghost use Rattle.adb_local.specs.Running.{AllMayStand, LinesLeft, left_after};

    ghost Value = { LinesLeft };

    ghost view = { λ run. left_after run.done run.script };

    ghost invariant = { λ run. (AllMayStand (left_after run.done run.script).lines)
        × (length run.script ≤ MAX_LINES) };
}

impl<'a> ScriptRun<'a> {
    /// Reads a whole script, and runs no line yet. Each line runs with a seed of its own, which is
    /// derived from `seed`.
    ///
    /// - `BadLine`: a line is refused; it is the first one.
    /// - `OutOfMemory`: an allocation failed.
    pub fn new(alloc: Global, script: &'a [u8], seed: u64) -> Result<ScriptRun<'a>, ScriptError>
        ensures lines { IfOk result (λ run. run ≡ all_left (lines_in script.now)) }
        ensures few { IfOk result (λ run. sessions_in run.lines ≤ 65536) }
        ensures good { OnOk result (first_bad script.now ≡ None) }
        ensures bad { (line : ℕ) → result ≡ Err (ScriptError.BadLine line)
            → first_bad script.now ≡ Some line }
        ensures told { (line : ℕ) → first_bad script.now ≡ Some line
            → result ≢ Err ScriptError.OutOfMemory → result ≡ Err (ScriptError.BadLine line) }
    {
        let script = Script::read(alloc, script)?;
        are_few(&script);
        let words = Pcg32::seed_from_u64(seed);
        Ok(ScriptRun {
            script,
            done: 0,
            words,
        })
    }

    /// Runs the next line in a world and returns its answer line, or `None` after the last line.
    /// The line has one session, or one for each stream of an echo. Its sessions have ended and are
    /// dropped.
    ///
    /// - `AllocError`: an allocation failed. The line may have run in part. The world is spent, or
    ///   it may still hold the sessions of the line. The files are those after a prefix of the
    ///   line's whole requests, or those before or after its command.
    pub fn next(&mut self, alloc: Global, world: &mut World) -> Result<Option<Text>, AllocError>
        requires idle { IsIdle world.old }
        requires room { world.old.given + sessions_in self.old.lines ≤ most_sessions }
        ensures runs { IfOk result (λ answer.
            RunsNext answer self.old self.new world.old world.new) }
        ensures in_part { OnErr result (IsRunInPart self.old.number self.old.lines
            world.old.files world.new.files) }
    {
        let seed = next_seed(&mut self.words);
        let Some(line) = self.script.lines().get(self.done as usize) else {
            return Ok(None);
        };
        let number = self.done + 1;
        let answer = run_line(alloc, world, line, number, seed)?;
        self.done = number;
        Ok(Some(answer))
    }
}

/// States that a script has at most 1,024 lines.
fn are_few(script: &Script<'_>)
    ensures { length script.now ≤ MAX_LINES }
{
    script.lines();
}

/// Returns the next seed, which is made of two words.
fn next_seed(words: &mut Pcg32) -> u64 {
    let high = words.next_word();
    u64::from(high) << 32 | u64::from(words.next_word())
}

/// Runs the line with this number, and returns its answer line.
fn run_line(
    alloc: Global,
    world: &mut World,
    line: &ScriptLine<'_>,
    number: u32,
    seed: u64,
) -> Result<Text, AllocError>
    requires idle { IsIdle world.old }
    requires line { MayStand (seen line.now) }
    requires room { world.old.given + sessions_of (seen line.now) ≤ most_sessions }
    ensures text { IfOk result (λ text.
        text ≡ (line_answer world.old.files number (seen line.now)).text) }
    ensures runs { OnOk result (RunsLine number (seen line.now) world.old world.new) }
    ensures in_part { OnErr result (IsLineInPart number (seen line.now)
        world.old.files world.new.files) }
{
    match line {
        ScriptLine::Session(session) => {
            let text = run_session(alloc, world, session, number, seed)?;
            Ok(text)
        }
        ScriptLine::Echo(echo) => {
            let text = run_echo(alloc, world, *echo, number, seed)?;
            Ok(text)
        }
    }
}

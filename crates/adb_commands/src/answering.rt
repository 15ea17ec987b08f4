//! Answering a script.

ghost use Rattle.std.specs.Prelude.{◌≡◌, ◌≤◌, ℕ, List, [], Ok, Err, Some, IfOk, false, true};
ghost use Rattle.adb_local.specs.Running.{all_left, sessions_in};
ghost use Rattle.adb_outside.specs.Outside.{Counts};
ghost use Rattle.adb_replay.specs.Keeping.{IsLoss};
ghost use Rattle.adb_script.specs.Script.{lines_in};
ghost use Rattle.adb_script.specs.Told.{texts_of};
ghost use Rattle.adb_trees.specs.Shown.{copied_lines};
ghost use Rattle.adb_commands.specs.AnswerLines.{IsLostBy};
ghost use Rattle.adb_commands.specs.ScriptInput.{ReadsWithin};
ghost use Rattle.adb_commands.specs.ScriptStop.{IsRunEnd, stops_reading, stops_writing};
ghost use Rattle.adb_commands.specs.Scripts.{AnswersAs, RefusesAs, first_bad};

use crate::answer_lines::{write_lines, write_run};
use crate::script_input::read_script;
use crate::script_kind::ScriptKind;
use crate::script_stop::ScriptStop;
use adb_copying::copy_tree;
use adb_local::ScriptRun;
use adb_outside::{Sink, Source};
use adb_replay::Stop;
use adb_script::Line;
use adb_world::World;
use std::alloc::Global;

/// Reads a script of a kind, runs it in a new world, and writes its answer lines. The seed decides
/// how the sides of the world move; it does not change the answer lines.
///
/// - `BadLine`: a line is refused; it is the first one, and nothing is written.
/// - `ReadFault`: the source failed. Nothing is written.
/// - `WriteFault`: the sink failed. A prefix of the answer lines is written.
/// - `OutOfMemory`: an allocation failed. A prefix of the answer lines is written.
pub fn answer<S: Source, K: Sink>(
    alloc: Global,
    kind: ScriptKind,
    seed: u64,
    source: &mut S,
    sink: &mut K,
) -> Result<(), ScriptStop>
    ensures refuses { (script : List ℕ) → S.left source.old ≡ Some script
        → RefusesAs result (first_bad kind script) }
    ensures writes { (script had : List ℕ) → S.left source.old ≡ Some script
        → K.written sink.old ≡ Some had → AnswersAs kind result script had (K.written sink.new) }
    ensures whole { result ≡ Ok tt → (script : List ℕ) → S.left source.old ≡ Some script
        → S.left source.new ≡ Some [] }
    ensures within { ReadsWithin (S.left source.old) (S.left source.new) }
    ensures unwritten { (line : ℕ) → result ≡ Err (ScriptStop.BadLine line)
        → sink.new ≡ sink.old }
    ensures reads { Counts S.steady S.faults source.old source.new (stops_reading result) }
    ensures counts { Counts K.steady K.faults sink.old sink.new (stops_writing result) }
{
    match read_script(alloc, source) {
        Ok(script) => answer_text(alloc, kind, seed, script.as_slice(), sink),
        Err(stop) => Err(stop),
    }
}

/// Runs a script that was read, and writes its answer lines.
fn answer_text<K: Sink>(
    alloc: Global,
    kind: ScriptKind,
    seed: u64,
    script: &[u8],
    sink: &mut K,
) -> Result<(), ScriptStop>
    ensures refuses { RefusesAs result (first_bad kind script.now) }
    ensures writes { (had : List ℕ) → K.written sink.old ≡ Some had
        → AnswersAs kind result script.now had (K.written sink.new) }
    ensures unwritten { (line : ℕ) → result ≡ Err (ScriptStop.BadLine line)
        → sink.new ≡ sink.old }
    ensures reads { stops_reading result ≡ false }
    ensures counts { Counts K.steady K.faults sink.old sink.new (stops_writing result) }
{
    match kind {
        ScriptKind::Local => answer_local(alloc, seed, script, sink),
        ScriptKind::Copy => answer_copy(alloc, seed, script, sink),
    }
}

/// Runs a script of `local` in a new world, and writes its answer lines. The whole script is
/// checked before a line runs.
fn answer_local<K: Sink>(
    alloc: Global,
    seed: u64,
    script: &[u8],
    sink: &mut K,
) -> Result<(), ScriptStop>
    ensures refuses { RefusesAs result (first_bad ScriptKind.Local script.now) }
    ensures writes { (had : List ℕ) → K.written sink.old ≡ Some had
        → AnswersAs ScriptKind.Local result script.now had (K.written sink.new) }
    ensures unwritten { (line : ℕ) → result ≡ Err (ScriptStop.BadLine line)
        → sink.new ≡ sink.old }
    ensures reads { stops_reading result ≡ false }
    ensures counts { Counts K.steady K.faults sink.old sink.new (stops_writing result) }
{
    let mut run = match run_of(alloc, script, seed) {
        Ok(run) => run,
        Err(stop) => return Err(stop),
    };
    match write_run(alloc, &mut run, sink) {
        Ok(()) => Ok(()),
        Err(why) => Err(lost_by(why)),
    }
}

/// Returns the lines of a script of `local`, none of which has run yet.
fn run_of<'a>(alloc: Global, script: &'a [u8], seed: u64) -> Result<ScriptRun<'a>, ScriptStop>
    ensures lines { IfOk result (λ run. run ≡ all_left (lines_in script.now)) }
    ensures few { IfOk result (λ run. sessions_in run.lines ≤ 65536) }
    ensures refuses { RefusesAs result (first_bad ScriptKind.Local script.now) }
    ensures ends { IsRunEnd result }
{
    let run = ScriptRun::new(alloc, script, seed)?;
    Ok(run)
}

/// Copies the tree of a script of `copy` to the device of a new world and back, and writes its
/// lines. The whole script is checked before a file is copied.
fn answer_copy<K: Sink>(
    alloc: Global,
    seed: u64,
    script: &[u8],
    sink: &mut K,
) -> Result<(), ScriptStop>
    ensures refuses { RefusesAs result (first_bad ScriptKind.Copy script.now) }
    ensures writes { (had : List ℕ) → K.written sink.old ≡ Some had
        → AnswersAs ScriptKind.Copy result script.now had (K.written sink.new) }
    ensures unwritten { (line : ℕ) → result ≡ Err (ScriptStop.BadLine line)
        → sink.new ≡ sink.old }
    ensures reads { stops_reading result ≡ false }
    ensures counts { Counts K.steady K.faults sink.old sink.new (stops_writing result) }
{
    let lines = match lines_of(alloc, script, seed) {
        Ok(lines) => lines,
        Err(stop) => return Err(stop),
    };
    match write_lines(alloc, lines.as_slice(), sink) {
        Ok(()) => Ok(()),
        Err(why) => Err(lost_by(why)),
    }
}

/// Copies the tree of a script of `copy` in a new world, and returns its lines.
fn lines_of(alloc: Global, script: &[u8], seed: u64) -> Result<Vec<Line>, ScriptStop>
    ensures lines { IfOk result (λ lines. copied_lines script.now ≡ Some (texts_of lines.items)) }
    ensures refuses { RefusesAs result (first_bad ScriptKind.Copy script.now) }
    ensures ends { IsRunEnd result }
{
    let mut world = World::new(alloc)?;
    lines_in(alloc, &mut world, script, seed)
}

/// Copies the tree of a script of `copy` in a world that is new, and returns its lines.
fn lines_in(
    alloc: Global,
    world: &mut World,
    script: &[u8],
    seed: u64,
) -> Result<Vec<Line>, ScriptStop>
    requires settled { world.old.settled ≡ true }
    requires given { world.old.given ≡ 0 }
    requires empty { world.old.files ≡ [] }
    ensures lines { IfOk result (λ lines. copied_lines script.now ≡ Some (texts_of lines.items)) }
    ensures refuses { RefusesAs result (first_bad ScriptKind.Copy script.now) }
    ensures ends { IsRunEnd result }
{
    let lines = copy_tree(alloc, world, script, seed)?;
    Ok(lines)
}

/// Returns the reason why a script is not answered, for a failure that lost its answer lines.
fn lost_by(why: Stop) -> ScriptStop
    requires { IsLoss (Err why) }
    ensures { IsLostBy why result }
{
    match why {
        Stop::WriteFault => ScriptStop::WriteFault,
        Stop::OutOfMemory => ScriptStop::OutOfMemory,
        Stop::ReadFault | Stop::Refused(_) => unreachable!(),
    }
}

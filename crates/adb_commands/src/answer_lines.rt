//! Writing the answer lines of a script, each once it is complete.

ghost use Rattle.std.specs.Prelude.{◌≡◌, ◌≤◌, ◌+◌, ℕ, List, [], Some};
ghost use Rattle.std.specs.List.{concat};
ghost use Rattle.adb_outside.specs.Outside.{Counts};
ghost use Rattle.adb_local.specs.Running.{IsIdle, answers_left, sessions_in};
ghost use Rattle.adb_replay.specs.Keeping.{IsLoss, Keeps, KeepsBytes, WritesOut, is_write_fault};
ghost use Rattle.adb_script.specs.Answers.{answers_from};
ghost use Rattle.adb_script.specs.Told.{texts_of};
ghost use Rattle.adb_world.specs.Parts.{most_sessions};
ghost use Rattle.adb_commands.specs.AnswerLines.{KeepsText};

use adb_local::ScriptRun;
use adb_outside::{Sink, Text};
use adb_replay::{Output, Stop};
use adb_script::Line;
use adb_world::World;
use std::alloc::Global;

/// Runs the lines of a script in a new world and writes the answer of each once it is complete.
/// Short answers are gathered into larger pieces; a long one is written directly and not kept.
///
/// - `WriteFault`: the sink failed. A prefix of the answers is written.
/// - `OutOfMemory`: an allocation failed. A prefix of the answers is written.
pub(crate) fn write_run<K: Sink>(
    alloc: Global,
    run: &mut ScriptRun<'_>,
    sink: &mut K,
) -> Result<(), Stop>
    requires { sessions_in run.old.lines ≤ most_sessions }
    ensures out { (had : List ℕ) → K.written sink.old ≡ Some had → WritesOut result had
        (concat (answers_from run.old.number [] run.old.lines)) (K.written sink.new) }
    ensures loss { IsLoss result }
    ensures counts { Counts K.steady K.faults sink.old sink.new (is_write_fault result) }
{
    let mut world = World::new(alloc)?;
    write_in(alloc, &mut world, run, sink)
}

/// Runs the lines of a script in a world that is new, and writes the answer of each.
fn write_in<K: Sink>(
    alloc: Global,
    world: &mut World,
    run: &mut ScriptRun<'_>,
    sink: &mut K,
) -> Result<(), Stop>
    requires idle { IsIdle world.old }
    requires files { world.old.files ≡ [] }
    requires room { world.old.given + sessions_in run.old.lines ≤ most_sessions }
    ensures out { (had : List ℕ) → K.written sink.old ≡ Some had → WritesOut result had
        (concat (answers_from run.old.number [] run.old.lines)) (K.written sink.new) }
    ensures loss { IsLoss result }
    ensures counts { Counts K.steady K.faults sink.old sink.new (is_write_fault result) }
{
    let mut output = Output::empty(alloc)?;
    let ended = keep_answers(alloc, world, run, &mut output, sink);
    output.write_out(sink)?;
    ended
}

/// Runs the remaining lines, and keeps the answer of each.
fn keep_answers<K: Sink>(
    alloc: Global,
    world: &mut World,
    run: &mut ScriptRun<'_>,
    output: &mut Output,
    sink: &mut K,
) -> Result<(), Stop>
    requires idle { IsIdle world.old }
    requires room { world.old.given + sessions_in run.old.lines ≤ most_sessions }
    ensures kept { (had : List ℕ) → Keeps had [] (K.written sink.old, output.old)
        → KeepsText result had (concat (answers_left run.old world.old))
        (K.written sink.new, output.new) }
    ensures loss { IsLoss result }
    ensures counts { Counts K.steady K.faults sink.old sink.new (is_write_fault result) }
{
    while let Some(answer) = run.next(alloc, world)? {
        keep_answer(output, sink, answer)?;
    }
    Ok(())
}

/// Keeps an answer, and drops it.
fn keep_answer<K: Sink>(output: &mut Output, sink: &mut K, answer: Text) -> Result<(), Stop>
    ensures kept { KeepsBytes result answer
        (K.written sink.old, output.old) (K.written sink.new, output.new) }
    ensures loss { IsLoss result }
    ensures counts { Counts K.steady K.faults sink.old sink.new (is_write_fault result) }
{
    output.keep_bytes(sink, answer.as_slice())
}

/// Writes lines that are all complete, in larger pieces.
///
/// - `WriteFault`: the sink failed. A prefix of the lines is written.
/// - `OutOfMemory`: an allocation failed. A prefix of the lines is written.
pub(crate) fn write_lines<K: Sink>(alloc: Global, lines: &[Line], sink: &mut K) -> Result<(), Stop>
    ensures out { (had : List ℕ) → K.written sink.old ≡ Some had → WritesOut result had
        (concat (texts_of lines.now)) (K.written sink.new) }
    ensures loss { IsLoss result }
    ensures counts { Counts K.steady K.faults sink.old sink.new (is_write_fault result) }
{
    let mut output = Output::empty(alloc)?;
    let ended = keep_lines(lines, &mut output, sink);
    output.write_out(sink)?;
    ended
}

/// Keeps lines for the sink.
fn keep_lines<K: Sink>(lines: &[Line], output: &mut Output, sink: &mut K) -> Result<(), Stop>
    ensures kept { (had : List ℕ) → Keeps had [] (K.written sink.old, output.old)
        → KeepsText result had (concat (texts_of lines.now))
        (K.written sink.new, output.new) }
    ensures loss { IsLoss result }
    ensures counts { Counts K.steady K.faults sink.old sink.new (is_write_fault result) }
{
    for line in lines {
        output.keep_bytes(sink, line.text.as_slice())?;
    }
    Ok(())
}

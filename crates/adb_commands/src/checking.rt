//! Judging the history of a capture, and writing the judgement.

ghost use Rattle.std.specs.Prelude.{◌≡◌, ◌<◌, List, ℕ, Some, IfOk, length};
ghost use Rattle.adb_outside.specs.Outside.{Counts};
ghost use Rattle.adb_check.specs.Formed.{formed};
ghost use Rattle.adb_commands.specs.Check.{JudgesSo, WritesSo, judged_line, stopped_as};
ghost use Rattle.adb_replay.specs.Keeping.{is_read_fault, is_write_fault};

use crate::texts::{push_line, push_number};
use adb_check::{Judgement, judge_capture};
use adb_outside::{Sink, Source, Text, Wrote};
use adb_replay::Stop;
use std::alloc::{AllocError, Global};

/// Judges the history of the capture that a source has, and writes one line, which says that the
/// history is legal or names its first illegal entry.
///
/// - `Refused`: the capture is refused for its form, before any illegal entry. Nothing is written.
/// - `ReadFault`: the source failed. Nothing is written.
/// - `OutOfMemory`: an allocation failed. Nothing is written.
/// - `WriteFault`: the sink failed. A prefix of the line is written.
pub fn check<S: Source, K: Sink>(
    alloc: Global,
    source: &mut S,
    sink: &mut K,
) -> Result<Judgement, Stop>
    ensures judges { (capture : List ℕ) → S.left source.old ≡ Some capture
        → JudgesSo result (formed capture) (S.left source.new) }
    ensures line { (capture had : List ℕ) → S.left source.old ≡ Some capture
        → K.written sink.old ≡ Some had
        → WritesSo result (formed capture) had (K.written sink.new) }
    ensures reads { Counts S.steady S.faults source.old source.new
        (is_read_fault (stopped_as result)) }
    ensures writes { Counts K.steady K.faults sink.old sink.new
        (is_write_fault (stopped_as result)) }
{
    let judgement = judge_capture(alloc, source)?;
    let line = line_of(alloc, judgement)?;
    match sink.write(line.as_slice()) {
        Wrote::All => Ok(judgement),
        Wrote::Failed { taken: _ } => Err(Stop::WriteFault),
    }
}

/// Returns the line of a judgement.
#[tactic(auto, unfolding(crate::specs::Loads::line, crate::specs::Check::illegal_line))]
fn line_of(alloc: Global, judgement: Judgement) -> Result<Text, AllocError>
    ensures line { IfOk result (λ line. line ≡ judged_line judgement) }
    ensures some { IfOk result (λ line. 0 < length line) }
{
    let mut line = Text::new(alloc);
    match judgement {
        Judgement::Legal { entries } => push_line(&mut line, b"legal ", entries)?,
        Judgement::Illegal { place, rule } => {
            line.push_slice(b"illegal at entry ")?;
            push_number(&mut line, place)?;
            line.push_slice(b": ")?;
            line.push_slice(rule.text())?;
            line.push_slice(b"\n")?;
        }
    }
    Ok(line)
}

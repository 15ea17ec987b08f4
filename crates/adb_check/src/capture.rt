//! Judging the history of a capture.

ghost use Rattle.std.specs.Prelude.{◌≡◌, ◌∷◌, List, ℕ, Some, IfOk};
ghost use Rattle.adb_outside.specs.Outside.{Counts};
ghost use Rattle.adb_capture_reader.specs.Counting.{is_fault};
ghost use Rattle.adb_history.specs.Machine.{History};
ghost use Rattle.adb_check.specs.Capture.{JudgesCapture};
ghost use Rattle.adb_check.specs.Formed.{formed};
ghost use Rattle.adb_check.specs.Judging.{Judges, Says};

use crate::judge::Judge;
use crate::verdict::{Rule, Verdict};
use adb_capture::{CaptureError, Entry};
use adb_capture_reader::CaptureReader;
use adb_outside::Source;
use std::alloc::{AllocError, Global};

/// The judgement of the history of a capture.
#[derive(Clone, Copy, Debug, PartialEq, Eq, Drop)]
pub enum Judgement {
    /// The history is legal, and has this many entries.
    Legal { entries: u64 },
    /// The history is not legal: the place, counted from 1, of the first entry that is not legal
    /// after those before it, and the first rule that this entry breaks.
    Illegal { place: u64, rule: Rule },
}

/// Judges the history of the capture that a source has. Reads the source to its end, also after a
/// kill, or to the first illegal entry. Holds one record of the capture and the bytes that were
/// read past it.
///
/// - `ReadFault`: the source failed.
/// - `OutOfMemory`: an allocation failed.
/// - Any other error: the first refusal of the capture for its form. All entries before the refused
///   record are legal.
pub fn judge_capture<S: Source>(alloc: Global, source: &mut S) -> Result<Judgement, CaptureError>
    ensures judges { (capture : List ℕ) → S.left source.old ≡ Some capture
        → JudgesCapture result (formed capture) (S.left source.new) }
    ensures counts { Counts S.steady S.faults source.old source.new (is_fault result) }
{
    let Ok(mut reader) = CaptureReader::new(alloc) else {
        return Err(CaptureError::OutOfMemory);
    };
    let mut judge = Judge::new(alloc);
    let mut entries = 0;
    while let Some((_, entry)) = reader.next(source)? {
        entries += 1;
        match judge_entry(&mut judge, entry) {
            Ok(Verdict::Legal) => {}
            Ok(Verdict::Illegal(rule)) => {
                return Ok(Judgement::Illegal {
                    place: entries,
                    rule,
                });
            }
            Err(AllocError) => return Err(CaptureError::OutOfMemory),
        }
    }
    Ok(Judgement::Legal { entries })
}

/// Judges an entry, and drops it.
fn judge_entry(judge: &mut Judge, entry: Entry) -> Result<Verdict, AllocError>
    ensures judged { (given : History) → Judges judge.old given → IfOk result (λ verdict.
        Says verdict (entry ∷ given) × Judges judge.new (entry ∷ given)) }
{
    judge.next(&entry)
}

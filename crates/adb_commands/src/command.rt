//! The commands that need only a source and a sink.

ghost use Rattle.std.specs.Prelude.{ℕ};
ghost use Rattle.adb_outside.specs.Outside.{Counts};
ghost use Rattle.adb_commands.specs.Ends.{CountsSource, Leaves, fails_sink};
ghost use Rattle.adb_commands.specs.Loads.{IsPromised, made};
ghost use Rattle.adb_commands.specs.Words.{IsLoad};

use crate::answering::answer;
use crate::checking::check;
use crate::end::CommandEnd;
use crate::generating::generate;
use crate::script_kind::ScriptKind;
use adb_outside::{Sink, Source};
use adb_replay::replay;
use adb_words::{Command, WordsError, read_words};
use std::alloc::Global;

/// Runs the command of the words after the program's name, if it is one that neither serves nor
/// dials. It never waits, and always returns.
///
/// `replay` reads a capture from the source, applies its entries in order, hands out all output
/// after each, and writes the whole history to the sink as a capture. It skips Put and Send
/// records. After a kill it applies no more records, and reads no more of the source.
///
/// `gen <seed> <streams>` makes the load of that seed and that many streams, hands out all output
/// after each of its entries, and writes four lines: `streams`, `up` and `down`, the bytes that
/// went up and down the streams, and `entries`, the number of entries of the history. It reads
/// nothing.
///
/// `check` reads a capture with its hand-outs, and writes one line: the number of entries if the
/// history is legal, and otherwise the first illegal entry and the rule that it breaks. It holds
/// one record at a time. After a kill it continues to read, up to the end of the source.
///
/// `local <seed>` reads a script to its end, runs it in a new world, and writes its answer lines.
/// The seed decides only which side of the world moves next, and by how much. Reading stops at the
/// first byte that exceeds the maximum length. If a line is refused, nothing is written.
///
/// `copy <seed>` reads a script to its end; each line of the script names a file. It copies the
/// files to the device of a new world and back, and writes a line for each file that came back. The
/// seed has the same role as for `local`.
#[tactic(auto, using(crate::proofs::Loads::load_promised))]
pub fn run_command<S: Source, K: Sink>(
    alloc: Global,
    words: &[String],
    source: &mut S,
    sink: &mut K,
) -> CommandEnd
    // The returned end is that of the command in the words. It determines what was read and
    // written.
    ensures leaves { Leaves words.now result
        (record { told = S.left; faults = S.faults; steady = S.steady })
        (record { told = K.written; faults = K.faults; steady = K.steady })
        source.old source.new sink.old sink.new }

    // The history of a load is legal, so it is fifo, has its causes and is answered.
    ensures promised { (seed streams : ℕ) → IsLoad seed streams words.now
        → IsPromised (made seed streams) }

    // The end shows whether the source or the sink failed.
    ensures reads { CountsSource result (Counts S.steady S.faults source.old source.new) }
    ensures writes { Counts K.steady K.faults sink.old sink.new (fails_sink result) }
{
    match read_words(alloc, words) {
        Ok(Command::Replay) => CommandEnd::Replayed(replay(alloc, source, sink)),
        Ok(Command::Check) => CommandEnd::Judged(check(alloc, source, sink)),
        Ok(Command::Gen { seed, streams }) => {
            CommandEnd::Generated(generate(alloc, seed, streams, sink))
        }
        Ok(Command::Local { seed }) => {
            CommandEnd::Answered(answer(alloc, ScriptKind::Local, seed, source, sink))
        }
        Ok(Command::Copy { seed }) => {
            CommandEnd::Answered(answer(alloc, ScriptKind::Copy, seed, source, sink))
        }
        Err(WordsError::Usage) => CommandEnd::NotRun(WordsError::Usage),
        Err(WordsError::OutOfMemory) => CommandEnd::NotRun(WordsError::OutOfMemory),
    }
}

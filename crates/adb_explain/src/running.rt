//! The program over its three streams: the source, the sink and the note.

ghost use Rattle.std.specs.Prelude.{◌≡◌, ◌⊎◌, drop, IfErr, IfOk, None, Some};
ghost use Rattle.adb_outside.specs.Outside.{Rises};
ghost use Rattle.adb_entry_lines.specs.declared.payload.Payloads.{Payloads};
ghost use Rattle.adb_explain.specs.Explaining.{WritesLines};
ghost use Rattle.adb_explain.specs.Stopping.{SaysLine};
ghost use Rattle.adb_explain.specs.Words.{payloads_in, texts};

use crate::explaining::explain;
use crate::note::{say_illegal, say_stop, say_usage};
use crate::status::Status;
use crate::words::{payloads_of, words_after};
use adb_check::Judgement;
use adb_outside::{Sink, Source};
use adb_replay::Stop;
use std::alloc::Global;
use std::io;
use std::io::ErrorKind;

/// Runs the program as `run` does. The first of the arguments is the program's name. If an
/// allocation for the arguments failed, the status is OutOfMemory. If an argument is not text, the
/// words are wrong.
pub fn start<S: Source, K: Sink, N: Sink>(
    alloc: Global,
    arguments: io::Result<Vec<String>>,
    source: &mut S,
    sink: &mut K,
    note: &mut N,
) -> Status
    ensures untouched { IfErr arguments (λ _. (source.new ≡ source.old) × (sink.new ≡ sink.old)) }
    ensures writes { IfOk arguments (λ list. (payloads : Payloads)
        → payloads_in (drop 1 (texts list.items)) ≡ Some payloads
        → WritesLines result payloads S.left source.old source.new K.written sink.old sink.new) }
    ensures told { SaysLine result (N.written note.old) (N.written note.new) }
    ensures read_fault { result ≡ Status.ReadFault
        → Rises (S.faults source.old) (S.faults source.new) }
    ensures write_fault { result ≡ Status.WriteFault
        → Rises (K.faults sink.old) (K.faults sink.new)
        ⊎ Rises (N.faults note.old) (N.faults note.new) }
{
    match arguments {
        Ok(list) => run(alloc, words_after(list.as_slice()), source, sink, note),
        Err(error) if error.kind() == ErrorKind::OutOfMemory => {
            say_stop(alloc, note, Stop::OutOfMemory)
        }
        Err(_) => say_usage(note),
    }
}

/// Explains the history of the capture that the source has, as the words after the program's name
/// request. Writes one line to the sink for each entry, a JSON object. For each status but Done,
/// writes one line to the note; if that write fails, the status is WriteFault.
pub fn run<S: Source, K: Sink, N: Sink>(
    alloc: Global,
    words: &[String],
    source: &mut S,
    sink: &mut K,
    note: &mut N,
) -> Status
    // If the words are wrong, nothing is read, and the sink is not written.
    ensures usage { payloads_in (texts words.now) ≡ None
        → (result ≡ Status.Usage) ⊎ (result ≡ Status.WriteFault) }
    ensures untouched { payloads_in (texts words.now) ≡ None
        → (source.new ≡ source.old) × (sink.new ≡ sink.old) }

    // The written lines depend on the status. Done: the history is legal, and all its lines are
    // written. Illegal: the lines up to that of the first illegal entry. BadCapture: the lines of
    // the entries before the refused record. A fault or an allocation failure: a prefix of the
    // lines.
    ensures writes { (payloads : Payloads) → payloads_in (texts words.now) ≡ Some payloads
        → WritesLines result payloads S.left source.old source.new K.written sink.old sink.new }

    // The line of the status is written to the note.
    ensures told { SaysLine result (N.written note.old) (N.written note.new) }

    // A fault is reported only if a read or a write failed.
    ensures read_fault { result ≡ Status.ReadFault
        → Rises (S.faults source.old) (S.faults source.new) }
    ensures write_fault { result ≡ Status.WriteFault
        → Rises (K.faults sink.old) (K.faults sink.new)
        ⊎ Rises (N.faults note.old) (N.faults note.new) }
{
    let Some(payloads) = payloads_of(words) else {
        return say_usage(note);
    };
    match explain(alloc, payloads, source, sink) {
        Ok(Judgement::Legal { .. }) => Status::Done,
        Ok(Judgement::Illegal { .. }) => say_illegal(note),
        Err(stop) => say_stop(alloc, note, stop),
    }
}

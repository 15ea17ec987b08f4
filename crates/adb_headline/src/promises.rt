//! The headline: the promises of the server hold for every legal history.

ghost use Rattle.std.specs.Prelude.{List};
ghost use Rattle.adb_capture.specs.declared.entry.Entry.{Entry};
ghost use Rattle.adb_history.specs.Machine.{IsLegal};
ghost use Rattle.adb_history.specs.Fifo.{IsFifo};
ghost use Rattle.adb_history.specs.Causes.{HasCauses};
ghost use Rattle.adb_history.specs.Answered.{IsAnswered};

/// States that every legal history is fifo. However clients, devices, arrivals, losses and
/// hand-outs interleave and however their bytes are cut, the bytes that a stream handed to either
/// end are, in order and once, those that the other end wrote; and they are all of them, if that
/// end's close ended the stream and the rest was handed out.
pub fn every_legal_history_is_fifo()
    ensures { (history : List Entry) → IsLegal history → IsFifo history }
{}

/// States that in every legal history a stream ends only for a cause that the history contains, at
/// the entry by which it ends.
pub fn every_legal_history_has_causes()
    ensures { (history : List Entry) → IsLegal history → HasCauses history }
{}

/// States that in every legal history each whole request is answered from the state of the server
/// at its own entry, and nothing else is sent.
pub fn every_legal_history_is_answered()
    ensures { (history : List Entry) → IsLegal history → IsAnswered history }
{}

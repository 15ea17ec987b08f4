//! Draining: it ends, and the state in which it ends.

ghost use Rattle.std.specs.Prelude.{List};
ghost use Rattle.adb_capture.specs.declared.entry.Entry.{Entry};
ghost use Rattle.adb_history.specs.Machine.{IsLegal};
ghost use Rattle.adb_history.specs.Settling.{IsDrainedFrom};

/// States that from every legal history on, draining ends with nothing to hand out, and that more
/// turns of it change nothing.
pub fn draining_ends()
    ensures { (history : List Entry) → IsLegal history → IsDrainedFrom history }
{}

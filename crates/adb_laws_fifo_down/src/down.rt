//! Laws of the bytes that the client of a stream is handed.

ghost use Rattle.std.specs.Prelude.{List};
ghost use Rattle.adb_capture.specs.declared.entry.Entry.{Entry};
ghost use Rattle.adb_history.specs.Machine.{IsLegal};
ghost use Rattle.adb_history.specs.Fifo.{HandsTold, HandsWholeTold, KeepsDownWindow};

/// States that in every legal history each client is handed the bytes that the device of its stream
/// wrote, in order and once.
pub fn what_is_handed_was_told()
    ensures { (history : List Entry) → IsLegal history → HandsTold history }
{}

/// States that the client is handed all of them if the device closed the stream and the client was
/// handed all that was queued for it.
pub fn all_is_handed_up_to_the_close()
    ensures { (history : List Entry) → IsLegal history → HandsWholeTold history }
{}

/// States that in every legal history all bytes that are acknowledged to a device were handed to
/// its client.
pub fn what_is_acknowledged_was_handed()
    ensures { (history : List Entry) → IsLegal history → KeepsDownWindow history }
{}

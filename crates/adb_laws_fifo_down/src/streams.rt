//! The life of a stream, as a history shows it.

ghost use Rattle.std.specs.Prelude.{List};
ghost use Rattle.adb_capture.specs.declared.entry.Entry.{Entry};
ghost use Rattle.adb_history.specs.Machine.{IsLegal};
ghost use Rattle.adb_laws_fifo_down.specs.Followed.{EndsBornAlone, HasLives, HasWindows};

/// States that in every legal history each stream waits for its device, is an orphan, is open, or
/// is over. The bytes queued for its client are the replies to the client's requests, and then, if
/// the client saw the opening, `OKAY` and the bytes that the device wrote.
pub fn every_stream_has_its_life()
    ensures { (history : List Entry) → IsLegal history → HasLives history }
{}

/// States that in every legal history no ending is reported for a stream that was not born.
pub fn none_but_the_born_end()
    ensures { (history : List Entry) → IsLegal history → EndsBornAlone history }
{}

/// States that in every legal history each stream keeps its window: with one write each way, the
/// OKAYs queued for its device, with the one that waits for bytes to be handed out, are as many as
/// the writes of the device.
pub fn every_stream_keeps_its_window()
    ensures { (history : List Entry) → IsLegal history → HasWindows history }
{}

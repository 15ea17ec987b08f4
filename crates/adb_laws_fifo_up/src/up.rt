//! Laws of the bytes sent to devices, over all legal histories.

ghost use Rattle.std.specs.Prelude.{List, ◌∷◌};
ghost use Rattle.adb_capture.specs.declared.entry.Entry.{Entry};
ghost use Rattle.adb_history.specs.Machine.{IsLegal};
ghost use Rattle.adb_history.specs.Fifo.{CarriesRest, CarriesWholeRest, KeepsUpWindow};
ghost use Rattle.adb_history.specs.Fifo.{OfEachStream, TellsClose};
ghost use Rattle.adb_history.specs.Held.{HoldsWhatIsRead};
ghost use Rattle.adb_laws_fifo_up.specs.Carrying.{ClosedStreamsAreDone, IsCarried};

/// States that in every legal history the bytes queued for each stream and those that its client
/// holds are, in order and once, the bytes that the client wrote after its requests while the
/// stream lived.
pub fn each_stream_is_carried()
    ensures { (history : List Entry) → IsLegal history
        → OfEachStream history (λ l b. IsCarried l b history) }
{}

/// States that in every legal history a device is written a prefix of the bytes that the client of
/// the stream wrote after its requests, in order and once.
pub fn carries_rest()
    ensures { (history : List Entry) → IsLegal history → CarriesRest history }
{}

/// States that the device is written all of them if the client closed and the device was sent that
/// close.
pub fn carries_whole_rest()
    ensures { (history : List Entry) → IsLegal history → CarriesWholeRest history }
{}

/// States that the device was sent the close if the client's close ended the stream and nothing is
/// queued for its link.
pub fn closes_are_sent()
    ensures { (history : List Entry) → IsLegal history → TellsClose history }
{}

/// States that in every legal history a device is written no more than it allowed: one write by its
/// opening and by each OKAY after it, or as many bytes as its credit words say.
pub fn keeps_up_window()
    ensures { (history : List Entry) → IsLegal history → KeepsUpWindow history }
{}

/// States that in every legal history a stream is done if its client closed: with one write at a
/// time each write was answered, and with credit all that the client wrote was queued.
pub fn closed_streams_are_done()
    ensures { (history : List Entry) → IsLegal history → ClosedStreamsAreDone history }
{}

/// States that after an entry no more bytes of a client are held than before it, except for the
/// bytes that the entry reads from it.
pub fn what_is_held_was_read()
    ensures { (e : Entry) (older : List Entry) → IsLegal (e ∷ older) → HoldsWhatIsRead e older }
{}

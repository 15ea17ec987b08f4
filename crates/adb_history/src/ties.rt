//! Laws that describe the state after a history by the entries of the history alone. Each is the
//! contract of a function that does nothing.

ghost use Rattle.std.specs.Prelude.{ℕ, List};
ghost use Rattle.adb_registry.specs.Registry.{DeviceTable};
ghost use Rattle.adb_forward.specs.declared.row.ForwardRow.{ForwardRow};
ghost use Rattle.adb_capture.specs.declared.entry.Entry.{Entry};
ghost use Rattle.adb_history.specs.Machine.{IsLegal};
ghost use Rattle.adb_history.specs.Pieces.{AreReadAtOnce};
ghost use Rattle.adb_history.specs.Tied.{DueIsPastPut, DueIsPastSent, RestIsPastPackets};
ghost use Rattle.adb_history.specs.Tied.{IsBookOf, UnreadIsPastUsed};

/// States that in every legal history the output queue of a live client is all that was ever queued
/// for it, without the bytes that were put to it.
pub fn due_is_past_put()
    ensures { (history : List Entry) → IsLegal history → DueIsPastPut history }
{}

/// States that in every legal history the output queue of a live link is all that was ever queued
/// for it, without the bytes that were sent to it.
pub fn due_is_past_sent()
    ensures { (history : List Entry) → IsLegal history → DueIsPastSent history }
{}

/// States that in every legal history the held input of a live link, and whether it verifies check
/// words, are the result of cutting all its bytes, which have no fault.
pub fn rest_is_past_packets()
    ensures { (history : List Entry) → IsLegal history → RestIsPastPackets history }
{}

/// States that in every legal history the server knows the devices that the bytes of the links
/// describe, the forwards and the waiting listeners that the requests make, and whether a kill was
/// requested.
pub fn state_is_as_told()
    ensures { (history : List Entry) → IsLegal history → IsBookOf history }
{}

/// States that in every legal history the unread bytes of a client that asks are those read from it
/// after its whole requests, and that its selected device is the one that these requests select.
pub fn unread_is_past_used()
    ensures { (history : List Entry) → IsLegal history → UnreadIsPastUsed history }
{}

/// States that requests that come in pieces are the same as requests that come at once, with the
/// same devices and forwards.
pub fn pieces_are_read_at_once()
    ensures { (devices : DeviceTable) (forwards : List (ℕ × ForwardRow))
        → AreReadAtOnce devices forwards }
{}

//! Laws of the causes of a stream's end. Each is the contract of a function that does nothing.

ghost use Rattle.std.specs.Prelude.{List};
ghost use Rattle.adb_capture.specs.declared.entry.Entry.{Entry};
ghost use Rattle.adb_history.specs.Machine.{IsLegal};
ghost use Rattle.adb_history.specs.Causes.{EndsByPeer, EndsByLoss, EndsByBreak};
ghost use Rattle.adb_history.specs.Causes.{EndsByFailure, EndsByStop};
ghost use Rattle.adb_history.specs.Causes.{EndsByClient, EndsOutOfTurn, HasNoOtherCause, HasCauses};
ghost use Rattle.adb_laws_causes.specs.Flows.{HoldsAsTold};

/// States that the rows of a live stream and its client agree with the history: the flow is as its
/// device wrote and its client was handed, the bytes that its client wrote after its request were
/// sent or are held, and all but one of its writes are answered.
pub fn streams_hold_what_is_told()
    ensures { (history : List Entry) → IsLegal history → HoldsAsTold history }
{}

/// States that a stream ends by its client's close only after that close, and only when all that
/// the client wrote was sent: by the close itself, or by packets that its device sent afterwards.
pub fn ends_by_client()
    ensures { (history : List Entry) → IsLegal history → EndsByClient history }
{}

/// States that a stream ends by its device only if the device closed it, in the bytes that came
/// with that entry.
pub fn ends_by_peer()
    ensures { (history : List Entry) → IsLegal history → EndsByPeer history }
{}

/// States that a stream ends out of turn only if its device wrote so: while bytes of its last write
/// were still to be handed out, or beyond the credit that it was given.
pub fn ends_out_of_turn()
    ensures { (history : List Entry) → IsLegal history → EndsOutOfTurn history }
{}

/// States that a stream ends with a lost link only if the link is detached, or its device sends its
/// identity anew.
pub fn ends_by_loss()
    ensures { (history : List Entry) → IsLegal history → EndsByLoss history }
{}

/// States that a stream ends with a broken link only if the link's bytes have a fault from that
/// entry on, or a CNXN that is not accepted.
pub fn ends_by_break()
    ensures { (history : List Entry) → IsLegal history → EndsByBreak history }
{}

/// States that a stream ends with its client's connection only if that connection fails, and for
/// the cause of that failure.
pub fn ends_by_failure()
    ensures { (history : List Entry) → IsLegal history → EndsByFailure history }
{}

/// States that a stream ends with the server only if the server is stopped by a kill from that
/// entry on.
pub fn ends_by_stop()
    ensures { (history : List Entry) → IsLegal history → EndsByStop history }
{}

/// States that an entry that leaves a stream alive contains no cause that ends a stream, other than
/// its client's orderly end.
pub fn outlives_no_cause()
    ensures { (history : List Entry) → IsLegal history → HasNoOtherCause history }
{}

/// States that every end of a stream has its cause.
pub fn every_end_has_its_cause()
    ensures { (history : List Entry) → IsLegal history → HasCauses history }
{}

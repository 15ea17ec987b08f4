//! The bytes that the client of a stream is handed, in every legal history, and the whole promise.

ghost use Rattle.std.specs.Prelude.{List};
ghost use Rattle.adb_capture.specs.declared.entry.Entry.{Entry};
ghost use Rattle.adb_history.specs.Machine.{IsLegal};
ghost use Rattle.adb_history.specs.Answered.{RepliesOfStream, HasStreamAlone, IsAnswered};
ghost use Rattle.adb_laws_answered.specs.Heard.{OfWhoJoined, OfOthers};

/// States that a service is answered by its device: the bytes queued for the client are `OKAY` and
/// the bytes that the device wrote, or the reason why the stream was not opened, and nothing else.
/// While the stream lives, they contain all that the device wrote; if the device closed it, all
/// before that close; and if another cause ended it, at least the bytes that the device wrote while
/// the stream lived.
pub fn services_are_answered()
    ensures { (history : List Entry) → IsLegal history → OfWhoJoined RepliesOfStream history }
{}

/// States that the bytes queued for a client that came through a forward are those that the device
/// wrote to its stream, up to the stream's end as for a service, and nothing else; if the client
/// has no stream, they are empty.
pub fn forwards_carry_their_stream_alone()
    ensures { (history : List Entry) → IsLegal history → OfOthers HasStreamAlone history }
{}

/// States that each client is answered.
pub fn every_legal_history_is_answered()
    ensures { (history : List Entry) → IsLegal history → IsAnswered history }
{}

//! The bytes of streams, in the terms of their users: streams never see each other's bytes, and the
//! bytes that a client was handed never change and are never handed out again.

ghost use Rattle.std.specs.Prelude.{List, ◌++◌};
ghost use Rattle.adb_capture.specs.declared.entry.Entry.{Entry};
ghost use Rattle.adb_history.specs.Machine.{IsLegal};
ghost use Rattle.adb_headline.specs.Handed.{PutsOnce, StaysHanded};
ghost use Rattle.adb_headline.specs.Written.{HandsWritten};

/// States that two streams never see each other's bytes: in every legal history each byte that a
/// client was handed for its stream belongs to a write that the stream's own link brought, from its
/// own device and to it, and the bytes come in the order in which they were written.
pub fn streams_see_their_own_bytes()
    ensures { (history : List Entry) → IsLegal history → HandsWritten history }
{}

/// States that the bytes that the client of a stream was handed for it until any time of a legal
/// history are a prefix of those that it is handed in the whole history.
pub fn what_was_handed_stays()
    ensures { (newer older : List Entry) → IsLegal (newer ++ older) → StaysHanded newer older }
{}

/// States that in every legal history the bytes put to a client are a prefix of all that was ever
/// queued for it: no byte goes out twice, and none is skipped.
pub fn puts_once()
    ensures { (history : List Entry) → IsLegal history → PutsOnce history }
{}

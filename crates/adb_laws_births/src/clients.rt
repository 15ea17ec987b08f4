//! The clients of the streams. Each function does nothing: its contract is the law.

ghost use Rattle.std.specs.Prelude.{List};
ghost use Rattle.adb_capture.specs.declared.entry.Entry.{Entry};
ghost use Rattle.adb_history.specs.Machine.{IsLegal};
ghost use Rattle.adb_laws_births.specs.Single.{AreOfClients, CameAsKept, HasOneStreamEach};

/// States that in every legal history each stream is that of a client that came by itself, and asks
/// no more once it asked for the stream, or of a client that came through a forward.
pub fn births_are_of_clients()
    ensures { (history : List Entry) → IsLegal history → AreOfClients history }
{}

/// States that a client has at most one stream.
pub fn clients_have_one_stream()
    ensures { (history : List Entry) → IsLegal history → HasOneStreamEach history }
{}

/// States that a live client is kept as it came: through a forward, or by itself.
pub fn clients_are_kept_as_they_came()
    ensures { (history : List Entry) → IsLegal history → CameAsKept history }
{}

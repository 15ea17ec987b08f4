//! The entries that end streams.

ghost use Rattle.std.specs.Prelude.{◌≡◌, [], List, false};
ghost use Rattle.adb_capture.specs.declared.entry.Entry.{Entry};
ghost use Rattle.adb_history.specs.Machine.{IsLegal};
ghost use Rattle.adb_hub_tables.specs.Endings.{endings_at};
ghost use Rattle.adb_hub.specs.Endings.{may_end};

/// States that only bytes and ends of clients and devices end streams: no stream ends at an entry
/// of another kind. It does nothing: its contract is the law.
pub fn others_end_no_stream()
    ensures { (e : Entry) (h : List Entry) → IsLegal h → may_end e ≡ false
        → endings_at e h ≡ [] }
{}

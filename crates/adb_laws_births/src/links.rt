//! The packets that links bring, entry by entry. Each function does nothing: its contract is the
//! law.

ghost use Rattle.std.specs.Prelude.{ℕ, List};
ghost use Rattle.adb_capture.specs.declared.entry.Entry.{Entry};
ghost use Rattle.adb_history.specs.Machine.{IsLegal};
ghost use Rattle.adb_laws_births.specs.Laws.{GoesOn, BringsCut};

/// States that births, the packets that a link brought, and openings stay, whatever entry comes.
pub fn what_came_stays()
    ensures { (e : Entry) (older : List Entry) → GoesOn e older }
{}

/// States that more bytes of a live link bring the packets to which they are cut, after the bytes
/// that it holds; other links bring nothing by them, and a link that is gone has no stream.
pub fn links_bring_what_is_cut()
    ensures { (t : ℕ) (bytes : List ℕ) (older : List Entry) → IsLegal older
        → BringsCut t bytes older }
{}

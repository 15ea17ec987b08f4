//! Laws of every load, entry by entry, with all output handed out after each.

ghost use Rattle.std.specs.Prelude.{◌≡◌, ◌<◌, ◌≤◌, ◌^◌, ◌∷◌, ◌++◌, ℕ, List, [], length, None};
ghost use Rattle.adb_capture.specs.declared.entry.Entry.{Entry};
ghost use Rattle.adb_capture.specs.declared.limits.TheConstants.{MAX_CAPTURE};
ghost use Rattle.adb_capture.specs.Records.{magic, records_of};
ghost use Rattle.adb_history.specs.Accepted.{accepted};
ghost use Rattle.adb_history.specs.Drained.{drained_from};
ghost use Rattle.adb_history.specs.Machine.{IsLegal};
ghost use Rattle.adb_load.specs.Load.{load};
ghost use Rattle.adb_laws_loads.specs.Taken.{IsTaken};
ghost use Rattle.adb_laws_loads.specs.Totals.{down_of, past_leads};

/// States that each entry of a load is allowed at its place, and that none of them stops the
/// server.
pub fn loads_are_accepted()
    ensures { (seed streams : ℕ) (front rest : List Entry) (e : Entry)
        → load seed streams ≡ front ++ e ∷ rest
        → IsLegal (drained_from [] front) → IsTaken (drained_from [] front) e }
{}

/// States that a load, with all output handed out after each entry, makes a legal history, and so
/// do any first entries of it.
pub fn loads_are_legal()
    ensures whole { (seed streams : ℕ) → streams < 2 ^ 32
        → IsLegal (drained_from [] (load seed streams)) }
    ensures fronts { (seed streams : ℕ) (front rest : List Entry) → streams < 2 ^ 32
        → load seed streams ≡ front ++ rest → IsLegal (drained_from [] front) }
{}

/// States that the capture of a load is replayed to its end: each of its records gives an entry
/// that is allowed, and none is refused. A capture has at most `MAX_CAPTURE` bytes.
pub fn captures_of_loads_are_accepted()
    ensures { (seed streams : ℕ) → streams < 2 ^ 32
        → let capture = magic ++ records_of (load seed streams) in length capture ≤ MAX_CAPTURE
        → accepted capture ≡ record { inputs = load seed streams; refused = None } }
{}

/// States that the bytes put to the clients of a load after the two leading replies are those that
/// their devices wrote to their streams. A load has fewer than 65,536 streams, which its caller has
/// to ensure.
pub fn totals_of_loads()
    ensures { (seed streams : ℕ) → streams < 2 ^ 16
        → let h = drained_from [] (load seed streams) in down_of h ≡ past_leads h }
{}

//! Laws of the first entry of a history that is not legal after those before it. Each function does
//! nothing: its contract is the law.

ghost use Rattle.std.specs.Prelude.{◌≡◌};
ghost use Rattle.adb_history.specs.Machine.{History, IsLegal};
ghost use Rattle.adb_check.specs.FirstBad.{Bad, IsFirstBad};

/// States that a legal history has no first illegal entry.
pub fn a_first_bad_entry_is_no_legal_one()
    ensures { (h : History) (bad : Bad) → IsFirstBad h bad → ¬ IsLegal h }
{}

/// States that a history has at most one first illegal entry: its place and its rule are unique.
pub fn there_is_one_first_bad_entry()
    ensures { (h : History) (bad other : Bad) → IsFirstBad h bad → IsFirstBad h other
        → bad ≡ other }
{}

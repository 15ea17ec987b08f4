//! Laws of every load, as functions that do nothing.

ghost use Rattle.std.specs.Prelude.{◌≡◌, None};
ghost use Rattle.adb_load.specs.Course.{Progress, turn};
ghost use Rattle.adb_load.specs.Load.{ahead};

/// States that at any progress of a load the remaining entries are those of the next turn and those
/// that remain after it: the bound on its turns cuts nothing off.
pub fn no_turn_is_cut_off()
    ensures { (p : Progress) → ahead None p ≡ ahead (turn p).act (turn p).after }
{}

//! The values of the constants that the definitions import.

ghost use Rattle.std.specs.Prelude.{◌≡◌};
ghost use Rattle.adb_trees.specs.declared.line.TheConstants.{DIGITS, MAX_FILE};
ghost use Rattle.adb_trees.specs.declared.tree.TheConstants.{MAX_TREE};

/// States the values of the constants that the definitions import.
pub fn limits_are()
    ensures digits { DIGITS ≡ 10 }
    ensures file { MAX_FILE ≡ 16777216 }
    ensures tree { MAX_TREE ≡ 67108864 }
{}

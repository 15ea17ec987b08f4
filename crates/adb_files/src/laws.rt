//! The limits on which the definitions rest.

ghost use Rattle.std.specs.Prelude.{◌≡◌};
ghost use Rattle.adb_files.specs.declared.files.TheConstants.{MAX_STORED};

/// States the number that the definitions take from the code.
pub fn limits_are()
    ensures stored { MAX_STORED ≡ 268435456 }
{}

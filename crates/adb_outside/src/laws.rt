//! The limits as numbers. The function does nothing: its contract is the law.

ghost use Rattle.std.specs.Prelude.{◌≡◌};
ghost use Rattle.adb_outside.specs.declared.asked.TheConstants.{MAX_ASKED};
ghost use Rattle.adb_outside.specs.declared.hand_out.TheConstants.{MAX_START};
ghost use Rattle.adb_outside.specs.declared.remote.TheConstants.{MAX_REMOTE};
ghost use Rattle.adb_outside.specs.declared.serial.TheConstants.{MAX_SERIAL};

/// States the values of the limits, for the definitions that name them.
pub fn limits_are()
    ensures serial { MAX_SERIAL ≡ 64 }
    ensures remote { MAX_REMOTE ≡ 512 }
    ensures start { MAX_START ≡ 32 }
    ensures asked { MAX_ASKED ≡ 1000 }
{}

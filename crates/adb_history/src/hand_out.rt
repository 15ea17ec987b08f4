//! The maximum length of a hand-out.

ghost use Rattle.std.specs.Prelude.{◌≡◌};

/// The maximum number of bytes of one hand-out.
pub const MAX_HAND_OUT: usize = 65_536;

/// States the number that definitions take from the code.
pub fn limits_are()
    ensures hand_out { MAX_HAND_OUT ≡ 65536 }
{}

//! The numbers of a load.

ghost use Rattle.std.specs.Prelude.{◌≡◌};

/// The number of devices that are plugged in.
pub(crate) const DEVICES: u16 = 8;

/// The maximum number of streams that live at once.
pub(crate) const MAX_LIVE: usize = 16;

/// The device's id of the first stream.
pub(crate) const FIRST_REMOTE: u32 = 1000;

/// The length of the first piece of a packet that comes in two.
pub(crate) const HEAD_LEN: usize = 11;

/// States the numbers that definitions take from the code.
pub fn limits_are()
    ensures devices { DEVICES ≡ 8 }
    ensures live { MAX_LIVE ≡ 16 }
    ensures remote { FIRST_REMOTE ≡ 1000 }
    ensures head { HEAD_LEN ≡ 11 }
{}

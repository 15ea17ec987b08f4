//! The numbers of the protocol (protocol.txt).

ghost use Rattle.std.specs.Prelude.{◌≡◌};
ghost use Rattle.adb_wire.specs.declared.headers.TheConstants.{HEADER_LEN, MAX_PAYLOAD};
ghost use Rattle.adb_wire.specs.declared.limits.TheConstants.{MIN_VERSION, VERSION, MIN_MAXDATA};
ghost use Rattle.adb_wire.specs.declared.slicer.TheConstants.{MAX_PACKET};

/// The oldest supported version, in which every packet goes out with its sum.
pub const MIN_VERSION: u32 = 0x0100_0000;

/// The newest supported version, and the first in which check words are not verified.
pub const VERSION: u32 = 0x0100_0001;

/// The least number of bytes that each end has to accept in a payload.
pub const MIN_MAXDATA: u32 = 4_096;

/// States the numbers that definitions take from the code.
pub fn limits_are()
    ensures header { HEADER_LEN ≡ 24 }
    ensures payload { MAX_PAYLOAD ≡ 1048576 }
    ensures packet { MAX_PACKET ≡ 1048600 }
    ensures oldest { MIN_VERSION ≡ 0x01000000 }
    ensures newest { VERSION ≡ 0x01000001 }
    ensures least { MIN_MAXDATA ≡ 4096 }
{}

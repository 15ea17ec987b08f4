//! The values of the constants of frames.

ghost use Rattle.std.specs.Prelude.{◌≡◌};
ghost use Rattle.adb_remote_frames.specs.declared.frame.TheConstants.{EXIT, STDERR, STDOUT};
ghost use Rattle.adb_remote_frames.specs.declared.packets.TheConstants.{MAX_OUTPUT_PACKET};

/// States the ids of packets, and the maximum number of bytes of a packet.
pub fn limits_are()
    ensures stdout { STDOUT ≡ 1 }
    ensures stderr { STDERR ≡ 2 }
    ensures exit { EXIT ≡ 3 }
    ensures output { MAX_OUTPUT_PACKET ≡ 1048576 }
{}

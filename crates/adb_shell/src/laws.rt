//! Laws of all bytes and packets, whichever program reads or writes them.

ghost use Rattle.std.specs.Prelude.{◌≡◌, ◌<◌, ◌^◌, ◌++◌, ◌∷◌, [], List, ℕ, Some};
ghost use Rattle.adb_outside.specs.Bytes.{AreBytes};
ghost use Rattle.adb_outside.specs.Framing.{joined};
ghost use Rattle.adb_shell.specs.declared.packet.ShellPacket.{ShellPacket};
ghost use Rattle.adb_shell.specs.declared.packet.ShellFault.{ShellFault};
ghost use Rattle.adb_shell.specs.declared.format.ShellFormat.{ShellFormat};
ghost use Rattle.adb_shell.specs.declared.format.TheConstants.{HEADER_BYTES, LAST_ID, MAX_SHELL_PAYLOAD};
ghost use Rattle.adb_shell.specs.Packets.{IsPacket, IsCut, Reading, cut_from, past};
ghost use Rattle.adb_shell.specs.Packets.{spelling, packets_in, fault_in};

/// States that a packet that was written is read again, whatever follows it.
pub fn written_is_read()
    ensures { (from : ShellFormat) (packet : ShellPacket) (more : List ℕ) → IsPacket packet
        → cut_from from (spelling packet ++ more)
        ≡ joined (packet ∷ []) (cut_from (past from (spelling packet)) more) }
{}

/// States that the packets read from bytes are encoded there one after another, up to the first
/// place with no whole packet; if there is a bad header at that place, it is the fault.
pub fn cut_is_right()
    ensures { (from : ShellFormat) (bytes : List ℕ) → from.offset < 2 ^ 64 → AreBytes bytes
        → IsCut from bytes (cut_from from bytes) }
{}

/// States that bytes are cut in one way: any packets with a rest, and a fault if there is one, that
/// meet the definition are those that are read.
pub fn cut_is_determined()
    ensures { (from : ShellFormat) (bytes : List ℕ) (cut : Reading)
        → from.offset < 2 ^ 64 → IsCut from bytes cut → cut ≡ cut_from from bytes }
{}

/// States that the bytes after the first fault change neither the fault nor the packets before it.
pub fn faults_stay()
    ensures { (bytes more : List ℕ) (fault : ShellFault) → fault_in bytes ≡ Some fault
        → (fault_in (bytes ++ more) ≡ Some fault)
        × (packets_in (bytes ++ more) ≡ packets_in bytes) }
{}

/// States the numbers that the definitions take from the code.
pub fn limits_are()
    ensures header { HEADER_BYTES ≡ 5 }
    ensures last_id { LAST_ID ≡ 5 }
    ensures payload { MAX_SHELL_PAYLOAD ≡ 1048576 }
{}

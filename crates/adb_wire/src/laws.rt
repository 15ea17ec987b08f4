//! Laws of packets and their cutting, over all streams. Each function does nothing: its contract is
//! the law.

ghost use Rattle.std.specs.Prelude.{◌≡◌, ◌^◌, ◌<◌, ◌≤◌, ◌++◌, List, ℕ, Ok, IsTrue, drop, length};
ghost use Rattle.adb_wire.specs.declared.headers.Head.{Head};
ghost use Rattle.adb_wire.specs.declared.packets.Packet.{Packet};
ghost use Rattle.adb_wire.specs.declared.headers.TheConstants.{HEADER_LEN};
ghost use Rattle.adb_wire.specs.declared.limits.TheConstants.{VERSION};
ghost use Rattle.adb_wire.specs.Header.{IsBytes, IsHead, header_bytes, head_at};
ghost use Rattle.adb_wire.specs.Packet.{IsPacket, spelling, check_of};
ghost use Rattle.adb_wire.specs.Cutting.{Begins, Parts, Cuts, Adds, Continues, MayCarry};
ghost use Rattle.adb_wire.specs.Cutting.{parts_of, goes_with_sum, wants_sums};
ghost use Rattle.adb_wire.specs.Slicing.{HasSliced, Follow, whole_of, open_of};

/// States that a header that was written is read, whatever follows it.
pub fn headers_are_read()
    ensures { (head : Head) (more : List ℕ) → IsHead head
        → head_at (header_bytes head ++ more) ≡ Ok head }
{}

/// States that a header that is read is written to the same bytes.
pub fn headers_are_written()
    ensures { (bytes : List ℕ) (head : Head) → IsBytes bytes → HEADER_LEN ≤ length bytes
        → head_at bytes ≡ Ok head
        → IsHead head × (bytes ≡ header_bytes head ++ drop HEADER_LEN bytes) }
{}

/// States that every stream of bytes is cut, and that the framing computes how.
pub fn every_stream_is_cut()
    ensures { (bytes : List ℕ) → IsBytes bytes → Cuts bytes (parts_of bytes) }
{}

/// States that a stream is cut in one way only.
pub fn cutting_is_determined()
    ensures { (bytes : List ℕ) (parts others : Parts) → Cuts bytes parts → Cuts bytes others
        → parts ≡ others }
{}

/// States that the remainder begins with no valid packet that is whole.
pub fn no_packet_is_left()
    ensures { (bytes : List ℕ) (parts : Parts) → Cuts bytes parts
        → (p : Packet) (more : List ℕ) → Begins parts.packets p parts.rest more → ⊥ }
{}

/// States that the packets of a prefix of a stream come first in the whole stream, and that a fault
/// in the prefix persists.
pub fn fronts_are_cut_alike()
    ensures { (front more : List ℕ) (parts all : Parts) → Cuts front parts
        → Cuts (front ++ more) all → Continues parts all }
{}

/// States that a packet that is encoded after whole packets, with a valid check word, is cut to
/// that packet, whatever follows.
pub fn spelled_packets_are_cut()
    ensures { (front : List ℕ) (p : Packet) (check : ℕ) → IsPacket p → check < 2 ^ 32
        → Adds front (front ++ spelling p check) p check }
{}

/// States that a slicer that was fed any pieces returns the packets of the stream first, in their
/// bytes: these and nothing else if the stream has no fault, and otherwise next the faulty header,
/// or the packet with a wrong check word. After these too its slices are consecutive, and none that
/// is whole is left.
pub fn slices_are_packets()
    ensures { (fed : List ℕ) (gave : List (List ℕ)) (held : List ℕ) (parts : Parts)
        → HasSliced fed gave held → Cuts fed parts
        → Follow (gave ++ whole_of held) (open_of held) parts }
{}

/// States that the check word that a link's version requires for outgoing packets is valid, if sums
/// are verified only while that version is one that verifies them.
pub fn outgoing_check_words_may_stand()
    ensures { (before : List Packet) (p : Packet) (version : ℕ) → 0x01000000 ≤ version
        → (IsTrue (wants_sums before) → version < VERSION)
        → MayCarry before p (check_of (goes_with_sum version p) p) }
{}

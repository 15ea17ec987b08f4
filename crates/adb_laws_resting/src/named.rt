//! The effect of a piece's packets on the streams that they do not name. Each function does
//! nothing: its contract is the law.

ghost use Rattle.std.specs.Prelude.{ℕ, ◌≡◌, List, ◌∷◌, Some};
ghost use Rattle.adb_capture.specs.declared.entry.Entry.{Entry};
ghost use Rattle.adb_capture.specs.declared.entry.Entry.TheVariants.{Recv};
ghost use Rattle.adb_history.specs.Machine.{IsLegal, state};
ghost use Rattle.adb_history.specs.Packets.{treat_all, with_rest};
ghost use Rattle.adb_history.specs.Rows.{Link, to_link};
ghost use Rattle.adb_wire.specs.declared.packets.Packet.{Packet};
ghost use Rattle.adb_hub_rules.specs.Sweep.{IsStill};
ghost use Rattle.adb_laws_resting.specs.Named.{KeepsRest, KeepsStreams, LeavesStill};

/// States that in every state that a legal history reaches no stream has bytes to send.
pub fn streams_are_still_at_rest()
    ensures { (h : List Entry) → IsLegal h → (l : ℕ) → IsStill l (state h) }
{}

/// States that, whatever packets a link brings, each stream after them existed before, and that one
/// that had nothing to send still has nothing, if no OKAY among the packets names it.
pub fn packets_keep_streams()
    ensures treated { (h : List Entry) → IsLegal h → (t : ℕ) (packets : List Packet)
        → KeepsStreams packets (state h) (treat_all t packets (state h)).state }
    ensures rested { (h : List Entry) → IsLegal h → (t : ℕ) (rest : List ℕ) (packets : List Packet)
        → KeepsStreams packets (state h)
        (treat_all t packets (to_link t (with_rest rest) (state h))).state }
{}

/// States that after more bytes of a live link, only those of its streams that an OKAY among the
/// packets names may have bytes to send, and that every stream that still exists existed before.
pub fn named_streams_alone_may_send()
    ensures { (h : List Entry) → IsLegal h → (t : ℕ) (link : Link)
        → (state h).links t ≡ Some link → (bytes : List ℕ) → LeavesStill t bytes link (state h) }
{}

/// States that a link that still lives after more bytes holds the bytes that their packets left.
pub fn links_keep_what_is_cut()
    ensures { (h : List Entry) (t : ℕ) (bytes : List ℕ) → IsLegal (Recv t bytes ∷ h)
        → (link : Link) → (state h).links t ≡ Some link → KeepsRest t bytes link (state h) }
{}

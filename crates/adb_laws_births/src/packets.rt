//! The packets that are sent to the links in every legal history. Each function does nothing: its
//! contract is the law.

ghost use Rattle.std.specs.Prelude.{ℕ, List};
ghost use Rattle.adb_capture.specs.declared.entry.Entry.{Entry};
ghost use Rattle.adb_history.specs.Machine.{IsLegal};
ghost use Rattle.adb_history.specs.Fifo.{HasNoCrossing, SendsPackets};
ghost use Rattle.adb_laws_births.specs.Sending.{OwesOwn};
ghost use Rattle.adb_laws_births.specs.Laws.{SendsFirst};

/// States that in every legal history each packet is sent on the link of its own stream, to the id
/// that its device reported, and that a stream is asked for once.
pub fn no_stream_crosses()
    ensures { (history : List Entry) → IsLegal history → HasNoCrossing history }
{}

/// States that in every legal history the bytes sent to each link are whole packets and a prefix of
/// one, each of them right.
pub fn packets_are_sent()
    ensures { (history : List Entry) → IsLegal history → SendsPackets history }
{}

/// States the same of each packet that was queued for a link, sent or not.
pub fn due_packets_are_own()
    ensures { (history : List Entry) → IsLegal history → OwesOwn history }
{}

/// States that the bytes that were ever queued for a link are its packets in order, and that the
/// bytes sent to it are a prefix of them.
pub fn sent_packets_come_first()
    ensures { (history : List Entry) → IsLegal history → (t : ℕ) → SendsFirst history t }
{}

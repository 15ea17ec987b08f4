//! Laws of a model device after any packets of its host. Each function does nothing: its contract
//! is the law.

ghost use Rattle.std.specs.Prelude.{◌≡◌, ◌<◌, ◌≤◌, ◌+◌, ◌++◌, ℕ, List, length, Some, Err};
ghost use Rattle.adb_outside.specs.Tables.{at};
ghost use Rattle.adb_wire.specs.declared.packets.Packet.{Packet};
ghost use Rattle.adb_device_streams.specs.Stream.{Row};
ghost use Rattle.adb_device_streams.specs.declared.link.Link.{Link};
ghost use Rattle.adb_wire.specs.Header.{IsBytes};
ghost use Rattle.adb_wire.specs.Cutting.{parts_of};
ghost use Rattle.adb_daemon.specs.declared.error.DaemonError.{DaemonError};
ghost use Rattle.adb_daemon.specs.declared.daemon.Daemon.{Daemon};
ghost use Rattle.adb_daemon.specs.Serving.{sent_bytes};
ghost use Rattle.adb_daemon.specs.Daemon.{HasDone, HasDoneFront, answer_to, owed};
ghost use Rattle.adb_daemon.specs.Allowed.{let_out};
ghost use Rattle.adb_daemon.specs.Device.{Setting, device_behind};
ghost use Rattle.adb_daemon.specs.Streams.{Writes, EndsAtClose, IsAcked, HasSettled, over_at, ExactAt, IsAckedInTime};

/// States that the joined payloads that a stream wrote are a prefix of its service's answer to the
/// payloads that came, and all of the answer if the device closed the stream. On a plain link it
/// made at most as many writes as it took OKAYs, including that of its OPEN; if the link has credit
/// in bytes, it wrote at most the sum of their credit words.
pub fn streams_write_their_answers()
    ensures { (setting : Setting) (packets : List Packet) (own : ℕ) → 0 < own
        → let s = (device_behind setting packets).serving
        in Writes own s.made s.acks (at own s.rows) (over_at own s.ended) }
{}

/// States that the CLSE that the device sends for a stream comes after all its writes and OKAYs,
/// and is the only one: nothing of the stream is queued after it.
#[tactic(auto, using(crate::proofs::Lasts::closes_last))]
pub fn closes_come_last()
    ensures { (setting : Setting) (packets : List Packet) (own : ℕ) → 0 < own
        → EndsAtClose own (device_behind setting packets).serving.made }
{}

/// States that the OPEN of a stream and each write that came for it were acknowledged by one OKAY
/// each, in order, and nothing else was. If the link has credit in bytes, the first OKAY holds the
/// whole window, each other one the number of bytes, and an empty write has none.
pub fn writes_are_acknowledged()
    ensures { (setting : Setting) (packets : List Packet) (own : ℕ)
        → let s = (device_behind setting packets).serving
        in IsAcked own s.made (at own s.rows) (over_at own s.ended) }
{}

/// States that a live stream has nothing to write that its window allows, and is not done: once its
/// service has ended, and all is written with nothing outstanding, a stream is closed.
pub fn streams_are_settled()
    ensures { (setting : Setting) (packets : List Packet) (link : Link) (own : ℕ) (row : Row)
        → (device_behind setting packets).link ≡ Some link
        → at own (device_behind setting packets).serving.rows ≡ Some row
        → HasSettled link.most row }
{}

/// States that a device holds no more for its host than the host's packets allow, whether the host
/// reads or not: the bytes that were taken and those still queued are at most the device's own CNXN
/// and the bytes that each packet of the host allows. An OPEN and a WRTE are answered; an OPEN and
/// an OKAY let their stream write, on a plain link one write and otherwise their credit; and each
/// of the three may end its stream. This holds also after an allocation failure.
pub fn what_is_owed_was_let_out()
    ensures due { (setting : Setting) (packets : List Packet)
        → length (sent_bytes (device_behind setting packets).serving.made)
        ≤ let_out setting packets }
    ensures owed { (setting : Setting) (fed taken : List ℕ) (daemon : Daemon)
        → HasDone setting fed taken daemon
        → length taken + length (owed daemon) ≤ let_out setting (parts_of fed).packets }
    ensures front { (setting : Setting) (fed taken : List ℕ) (daemon : Daemon)
        → HasDoneFront setting fed taken daemon
        → length taken + length (owed daemon) ≤ let_out setting (parts_of fed).packets }
{}

/// States that the refusal of a CNXN and a fault of the bytes persist, whatever follows.
pub fn refusals_stay()
    ensures { (setting : Setting) (fed more : List ℕ) (error : DaemonError) → IsBytes fed
        → IsBytes more → answer_to setting fed ≡ Err error
        → answer_to setting (fed ++ more) ≡ Err error }
{}

/// States that a live stream on a plain link, to which no OKAY came before the write that it
/// answers, may write as much as it took OKAYs for.
pub fn windows_are_exact()
    ensures { (setting : Setting) (packets : List Packet) (own : ℕ) → 0 < own
        → IsAckedInTime setting own packets → let s = (device_behind setting packets).serving
        in ExactAt own s.made s.acks (at own s.rows) }
{}

//! Laws of the output of the model device, and of the acknowledgements that its server waits for.

ghost use Rattle.std.specs.Prelude.{ℕ, ◌^◌, ◌≡◌, ◌<◌, ◌≤◌, Bool, true, false, List, Ok, is_none};
ghost use Rattle.adb_wire.specs.declared.packets.Packet.{Packet};
ghost use Rattle.adb_history.specs.Births.{count_from, is_open};
ghost use Rattle.adb_wire.specs.Format.{is_cnxn};
ghost use Rattle.adb_history.specs.Book.{is_refused};
ghost use Rattle.adb_history.specs.Bytes.{bytes_sent};
ghost use Rattle.adb_history.specs.Machine.{History, IsLegal};
ghost use Rattle.adb_device_streams.specs.Link.{link_of};
ghost use Rattle.adb_daemon.specs.Daemon.{answer_to};
ghost use Rattle.adb_daemon.specs.Device.{Setting, device_behind};
ghost use Rattle.adb_laws_model_device.specs.Devices.{IsPlain};
ghost use Rattle.adb_laws_model_device.specs.Paired.{IsPaired};
ghost use Rattle.adb_laws_model_device.specs.Owed.{packets_owed};
ghost use Rattle.adb_laws_model_device.specs.Joined.{IsJoined};
ghost use Rattle.adb_laws_model_device.specs.Came.{TakesCarried};
ghost use Rattle.adb_laws_model_device.specs.Opened.{AnswersOpens, HasOneId};
ghost use Rattle.adb_laws_model_device.specs.Rows.{LiveAreAcknowledged, LivesOrWasClosed};
ghost use Rattle.adb_laws_model_device.specs.Rows.{NoneWaits};

/// States that the model device is a device on a plain link: its output only grows; it sends a
/// stream no more OKAYs than one for each OPEN and one for each write of it; and all its OKAYs to a
/// stream that was asked for once come from one id.
pub fn the_model_device_is_plain()
    ensures { (setting : Setting) → IsPlain (packets_owed setting) }
{}

/// States that if the bytes that a link brought are those of a model device, the packets are too:
/// the bytes that the device sends are framed to the packets that it sends.
pub fn joined_bytes_are_paired_packets()
    ensures { (setting : Setting) (history : History) → setting.most < 2 ^ 32 → IsLegal history
        → IsJoined setting history → IsPaired (packets_owed setting) history }
{}

/// States that a device makes no link of a CNXN exactly if a server refuses the same CNXN of a
/// device.
pub fn a_device_refuses_what_a_server_refuses()
    ensures { (most : ℕ) (credit : Bool) (p : Packet) → is_cnxn p.command ≡ true
        → is_none (link_of most credit p) ≡ is_refused p }
{}

/// States that a model device that is fed the bytes that a server sent to a link returns Ok: the
/// bytes have no fault, and the server's CNXN is not refused.
pub fn what_a_server_sends_is_taken()
    ensures { (setting : Setting) (history : History) (link : ℕ) → IsLegal history
        → answer_to setting (bytes_sent link history) ≡ Ok tt }
{}

/// States that on a plain link the OPEN of a live stream and all its writes are acknowledged, if
/// they come in turn.
pub fn live_streams_are_acknowledged()
    ensures { (setting : Setting) → setting.credit ≡ false → LiveAreAcknowledged setting }
{}

/// States that an OPEN for a known service, of an id that is not 0 and of no live stream, is
/// answered: the device's next id belongs to that host's id, service and files, while the stream
/// lives and after it has ended; an OKAY from the one id to the other is queued; and all packets
/// from the device's id go to the host's.
pub fn opens_are_answered()
    ensures { (setting : Setting) → AnswersOpens setting }
{}

/// States that a stream that was asked for once at most has one id of the device: all packets to it
/// come from that id, except a CLSE that refuses its OPEN, and no other row is for it.
pub fn streams_have_one_id()
    ensures { (setting : Setting) (l : ℕ) (packets : List Packet) → count_from is_open l packets ≤ 1
        → HasOneId l (device_behind setting packets).serving }
{}

/// States that all bytes that the server sent on a stream came to its service, while the device's
/// row of it lives; a prefix of them came to a stream that has ended at the device.
pub fn what_was_sent_up_came()
    ensures { (setting : Setting) (history : History) → setting.most < 2 ^ 32 → IsLegal history
        → IsJoined setting history → TakesCarried setting history }
{}

/// States that a row of the device that took its OPEN lives, or one of the two ends closed it.
pub fn a_row_lives_or_was_closed()
    ensures { (setting : Setting) → LivesOrWasClosed setting }
{}

/// States that if nothing is in transit between a server and its model device, no write is
/// outstanding on a stream that lives at both ends.
pub fn no_write_waits_at_both_ends()
    ensures { (setting : Setting) (history : History) → setting.most < 2 ^ 32
        → setting.credit ≡ false → IsLegal history → IsJoined setting history
        → NoneWaits setting history }
{}

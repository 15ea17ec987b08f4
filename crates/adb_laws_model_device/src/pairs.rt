//! Laws of paired histories.

ghost use Rattle.std.specs.Prelude.{◌≡◌, ℕ};
ghost use Rattle.adb_history.specs.Births.{Birth};
ghost use Rattle.adb_history.specs.Bytes.{sent};
ghost use Rattle.adb_history.specs.Machine.{History, IsLegal};
ghost use Rattle.adb_laws_causes.specs.Flows.{IsTimely};
ghost use Rattle.adb_laws_model_device.specs.Devices.{RemoteEnd, IsPlain};
ghost use Rattle.adb_laws_model_device.specs.InTime.{AllPlain, IsToldInTime};
ghost use Rattle.adb_laws_model_device.specs.InTurn.{SentInTurn};
ghost use Rattle.adb_laws_model_device.specs.Paired.{IsPaired, NoWriteWaits};

/// States that no acknowledgement of a device on a plain link comes before the write that it
/// answers.
pub fn acknowledgements_come_in_time()
    ensures { (owes : RemoteEnd) (history : History) → IsPlain owes → IsLegal history
        → IsPaired owes history → (l : ℕ) (b : Birth) → b.link ≡ 1 → IsTimely l b history }
{}

/// States that no acknowledgement of the server comes to such a device before the write that it
/// answers, if no stream has credit.
pub fn the_device_is_told_in_time()
    ensures { (owes : RemoteEnd) (history : History) → IsPlain owes → IsLegal history
        → IsPaired owes history → AllPlain history → IsToldInTime owes (sent 1 history) }
{}

/// States that the packets that the server sent for a stream came in turn: its OPEN once, and its
/// writes after that, to the id that the device reported.
pub fn streams_are_sent_in_turn()
    ensures { (owes : RemoteEnd) (history : History) → IsPlain owes → IsLegal history
        → IsPaired owes history → SentInTurn history }
{}

/// States that if nothing is in transit between the server and such a device, the device has
/// acknowledged no write of a live stream that is still outstanding.
pub fn no_write_waits_at_rest()
    ensures { (owes : RemoteEnd) (history : History) → IsPlain owes → IsLegal history
        → IsPaired owes history → NoWriteWaits owes history }
{}

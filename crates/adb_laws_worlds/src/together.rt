//! Laws of a server and its model device together.

ghost use Rattle.std.specs.Prelude.{◌^◌, ◌<◌, ◌≡◌, false};
ghost use Rattle.adb_history.specs.Machine.{History, IsLegal};
ghost use Rattle.adb_daemon.specs.Device.{Setting};
ghost use Rattle.adb_laws_model_device.specs.InTime.{AllPlain};
ghost use Rattle.adb_laws_model_device.specs.Joined.{IsJoined};
ghost use Rattle.adb_laws_worlds.specs.InTime.{AllAckedInTime};
ghost use Rattle.adb_laws_worlds.specs.Credit.{FirstArePlain, HasOneDevice};
ghost use Rattle.adb_laws_worlds.specs.Ended.{ClosedGaveAll};
ghost use Rattle.adb_laws_worlds.specs.Held.{AllHaveSettled, HoldsNothing};
ghost use Rattle.adb_laws_worlds.specs.InTurn.{AllInTurn};
ghost use Rattle.adb_laws_worlds.specs.Known.{KnownAreOpened};
ghost use Rattle.adb_laws_worlds.specs.Opening.{AllAreOpen};
ghost use Rattle.adb_laws_worlds.specs.Rows.{OpenHaveRows};
ghost use Rattle.adb_laws_worlds.specs.Took.{AllTookWritten};
ghost use Rattle.adb_laws_worlds.specs.Unbroken.{AllOutliveLink, BringsSound};
ghost use Rattle.adb_laws_worlds.specs.Settled.{OpenAreSettled};

/// States that no OKAY of the server comes to a stream of the device before the write that it
/// answers, if no stream has credit.
pub fn okays_come_in_time()
    ensures { (setting : Setting) (history : History) → setting.most < 2 ^ 32 → IsLegal history
        → IsJoined setting history → AllPlain history → AllAckedInTime setting history }
{}

/// States that if nothing is in transit, each open stream of the server has its row at the device.
pub fn open_streams_have_rows()
    ensures { (setting : Setting) (history : History) → IsLegal history
        → OpenHaveRows setting history }
{}

/// States that at rest, when nothing is in transit on the link and nothing is queued for a client,
/// each open stream lives at both ends and has settled: no write is outstanding, nothing is held or
/// to be handed out, its service took all that the client wrote, and its client was handed the
/// whole answer.
pub fn open_streams_are_settled()
    ensures { (setting : Setting) (history : History) → setting.most < 2 ^ 32 → 0 < setting.most
        → setting.credit ≡ false → IsLegal history → IsJoined setting history
        → AllPlain history → OpenAreSettled setting history }
{}

/// States that if nothing is in transit, each live stream is open: its device replied to its OPEN,
/// and a refusal has ended it.
pub fn streams_are_open_at_rest()
    ensures { (setting : Setting) (history : History) → setting.most < 2 ^ 32 → IsLegal history
        → IsJoined setting history → AllAreOpen setting history }
{}

/// States that the streams of a device that accepts no credit in bytes have none.
pub fn streams_of_a_plain_device_are_plain()
    ensures { (setting : Setting) (history : History) → setting.most < 2 ^ 32
        → setting.credit ≡ false → IsLegal history → IsJoined setting history
        → FirstArePlain history }
{}

/// States that if at most one device was plugged in, and it accepts no credit in bytes, no stream
/// has credit.
pub fn streams_of_one_plain_device_are_plain()
    ensures { (setting : Setting) (history : History) → setting.most < 2 ^ 32
        → setting.credit ≡ false → IsLegal history → IsJoined setting history
        → HasOneDevice history → AllPlain history }
{}

/// States that therefore at rest each live stream has settled.
pub fn streams_have_settled_at_rest()
    ensures { (setting : Setting) (history : History) → setting.most < 2 ^ 32 → 0 < setting.most
        → setting.credit ≡ false → IsLegal history → IsJoined setting history
        → HasOneDevice history → AllHaveSettled setting history }
{}

/// States that at rest nothing is held of a client but a request that is not whole yet.
pub fn clients_hold_nothing_at_rest()
    ensures { (setting : Setting) (history : History) → setting.most < 2 ^ 32 → 0 < setting.most
        → setting.credit ≡ false → IsLegal history → IsJoined setting history
        → HasOneDevice history → HoldsNothing setting history }
{}

/// States that the bytes of a device's link have no fault, and at most one CNXN.
pub fn a_device_breaks_no_link()
    ensures { (setting : Setting) (history : History) → setting.most < 2 ^ 32 → IsLegal history
        → IsJoined setting history → BringsSound history }
{}

/// States that therefore no stream of the device's link ends with the link, if the link was not
/// lost.
pub fn streams_outlive_a_link_that_stays()
    ensures { (setting : Setting) (history : History) → setting.most < 2 ^ 32 → IsLegal history
        → IsJoined setting history → AllOutliveLink history }
{}

/// States that no such stream ends by a write out of turn, if the device accepts no credit in
/// bytes.
pub fn a_device_writes_in_turn()
    ensures { (setting : Setting) (history : History) → setting.most < 2 ^ 32
        → setting.credit ≡ false → IsLegal history → IsJoined setting history
        → AllInTurn history }
{}

/// States that the bytes that came to the service of a stream are a prefix of those that its client
/// wrote after its requests.
pub fn what_services_took_was_written()
    ensures { (setting : Setting) (history : History) → setting.most < 2 ^ 32 → IsLegal history
        → IsJoined setting history → AllTookWritten setting history }
{}

/// States that a stream that its device closed gave the whole answer of its service, if nothing is
/// in transit: all of it was sent before the close, and its client was handed it if the client was
/// put all that was queued for it.
pub fn closed_streams_gave_their_answer()
    ensures { (setting : Setting) (history : History) → setting.most < 2 ^ 32 → IsLegal history
        → IsJoined setting history → ClosedGaveAll setting history }
{}

/// States that a stream that was asked for a service that the device knows was opened, if nothing
/// is in transit.
pub fn streams_of_known_services_are_opened()
    ensures { (setting : Setting) (history : History) → setting.most < 2 ^ 32 → IsLegal history
        → IsJoined setting history → KnownAreOpened setting history }
{}

//! Laws of the bytes that clients were handed.

ghost use Rattle.std.specs.Prelude.{◌^◌, ◌<◌, ◌≡◌, false};
ghost use Rattle.adb_history.specs.Machine.{History, IsLegal};
ghost use Rattle.adb_daemon.specs.Device.{Setting};
ghost use Rattle.adb_laws_model_device.specs.Joined.{IsJoined};
ghost use Rattle.adb_laws_worlds.specs.Credit.{HasOneDevice};
ghost use Rattle.adb_laws_answers.specs.Answers.{ClientsAreAnswered};

use crate::clients_that_go_were_put_all;
use adb_laws_worlds::{
    a_device_writes_in_turn, closed_streams_gave_their_answer, streams_have_settled_at_rest,
    streams_of_known_services_are_opened, streams_outlive_a_link_that_stays,
};

/// States that at rest each client that asked its device for a service that the device knows, and
/// whose input did not end, was put the replies to its requests, an `OKAY`, and the whole answer of
/// its service to the bytes that the client wrote after the requests: to all of them, or to a
/// prefix if the service has ended.
pub fn clients_are_answered()
    ensures { (setting : Setting) (history : History) → setting.most < 2 ^ 32 → 0 < setting.most
        → setting.credit ≡ false → IsLegal history → IsJoined setting history
        → HasOneDevice history → ClientsAreAnswered setting history }
{
    clients_that_go_were_put_all();
    a_device_writes_in_turn();
    closed_streams_gave_their_answer();
    streams_have_settled_at_rest();
    streams_of_known_services_are_opened();
    streams_outlive_a_link_that_stays();
}

//! Laws of the traffic between a server and its model device.

ghost use Rattle.std.specs.Prelude.{◌≤◌, ◌<◌, ◌^◌, ◌≡◌, ◌++◌, false, length};
ghost use Rattle.adb_history.specs.Book.{plugged_count};
ghost use Rattle.adb_history.specs.Machine.{History, IsLegal};
ghost use Rattle.adb_daemon.specs.Device.{Setting};
ghost use Rattle.adb_laws_model_device.specs.Joined.{IsJoined};
ghost use Rattle.adb_laws_worlds.specs.Credit.{HasOneDevice};
ghost use Rattle.adb_laws_steps.specs.Moved.{AreSteps, moved};
ghost use Rattle.adb_laws_steps.specs.Owed.{DeviceAnswersAlone};
ghost use Rattle.adb_laws_steps.specs.Steps.{ClientsPay, Settles, WritesWerePut};
ghost use Rattle.adb_laws_steps.specs.Tolls.{BringWorth, TollsArePaid};

use adb_daemon::streams_write_their_answers;
use adb_laws_answers::clients_are_answered;
use adb_laws_fifo_up::each_stream_is_carried;
use adb_laws_model_device::{joined_bytes_are_paired_packets, streams_have_one_id};
use adb_laws_worlds::ids_were_asked_for;

/// States that after a legal history, if no device opens a stream or writes without bytes, the
/// CNXNs, OKAYs and CLSEs of the server cost at most a CNXN for each link that is plugged in, an
/// OKAY for each time that bytes are put to a client, and a CLSE for each stream that lived or is
/// drawn.
pub fn tolls_are_paid()
    ensures { (before more : History) → IsLegal (more ++ before) → BringWorth (more ++ before)
        → TollsArePaid before more }
{}

/// States that the additional output of a model device after more packets is answers to its host,
/// CLSEs of rows that lived, and writes of at least a byte. It opens no stream, and writes only to
/// ids of the host by which more was asked.
pub fn the_device_answers_alone()
    ensures { (setting : Setting) → DeviceAnswersAlone setting }
{}

/// States that if a model device is the only device, no device opens a stream or writes without
/// bytes.
pub fn a_device_brings_what_is_worth_its_answer()
    ensures { (setting : Setting) (history : History) → setting.most < 2 ^ 32 → IsLegal history
        → IsJoined setting history → plugged_count history ≤ 1 → BringWorth history }
{
    joined_bytes_are_paired_packets();
}

/// States that each step moves at least one byte.
pub fn steps_move_bytes()
    ensures { (before more : History) → AreSteps before more → length more ≤ moved more }
{}

/// States that all bytes that move from one time when nothing is in transit to the next are paid
/// for by the clients whose input had not ended: each pays for its stream, and for each byte that
/// it wrote or was put.
pub fn clients_pay_for_all_that_moves()
    ensures { (setting : Setting) (before more : History) → Settles setting before more
        → ClientsPay before more }
{
    joined_bytes_are_paired_packets();
    each_stream_is_carried();
    streams_have_one_id();
}

/// States that at rest each client whose input did not end was put all that the device wrote to its
/// stream.
pub fn writes_were_put_at_rest()
    ensures { (setting : Setting) (history : History) → setting.most < 2 ^ 32 → 0 < setting.most
        → setting.credit ≡ false → IsLegal history → IsJoined setting history
        → HasOneDevice history → WritesWerePut setting history }
{
    clients_are_answered();
    streams_have_one_id();
    streams_write_their_answers();
    ids_were_asked_for();
}

//! Properties of a world in which no step is possible. The functions do nothing: the contract of
//! each states a property.

ghost use Rattle.adb_world.specs.Parts.{IsRunning};
ghost use Rattle.adb_daemon.specs.Daemon.{files_of};
ghost use Rattle.adb_outside.specs.Tables.{at};
ghost use Rattle.adb_world.specs.Answered.{AreEchoes, IsAnswered, IsAnsweredAlone, IsNewAlone};
ghost use Rattle.adb_world.specs.Settled.{AreWhole, Each, GoesOn, HasEnded, HasMade, IsAtEase, IsCounted, IsDone, Rests};
ghost use Rattle.adb_world.specs.Steps.{most_steps};
ghost use Rattle.adb_world.specs.Stopped.{HasEndedInPart, HasStopped};
ghost use Rattle.adb_world.specs.Together.{AreAnsweredTogether, AreAskedInPart};
ghost use Rattle.std.specs.Prelude.{ℕ, ◌≡◌, ◌≤◌, [], Some, false, true};
ghost use Rattle.adb_world.specs.World.{view_of};
ghost use Rattle.adb_world.specs.declared.parts.Parts.{Parts};
ghost use Rattle.adb_world.specs.declared.session.Session.{Session};

use adb_laws_alone::{
    a_stream_alone_runs_over_its_files, an_ended_service_takes_no_more, echoes_leave_files,
    payloads_in_turn_are_one, streams_run_in_part, streams_run_together,
};
use adb_laws_answers::{
    clients_are_answered, requests_open_their_service, sessions_ask_for_services,
};
use adb_laws_births::what_came_stays;
use adb_laws_fifo_up::carries_rest;
use adb_laws_resting::resting::{a_client_sends_up_its_own_stream, most_entries_send_nothing};
use adb_laws_steps::{clients_pay_for_all_that_moves, steps_move_bytes, writes_were_put_at_rest};
use adb_laws_worlds::{
    a_device_breaks_no_link, clients_hold_nothing_at_rest, streams_are_open_at_rest,
    streams_have_settled_at_rest, streams_of_one_device_are_on_its_link,
    streams_of_one_plain_device_are_plain, streams_that_live_heard_no_close,
};

/// States that, if no step is possible, everything is settled, and each session was answered.
pub(crate) fn worlds_that_rest_are_settled()
    ensures done { (parts : Parts) → IsRunning parts → Rests parts → IsDone parts }
    ensures answered { (parts : Parts) → IsRunning parts → Rests parts
        → Each parts.sessions.entries IsAnswered }
{
    clients_are_answered();
    requests_open_their_service();
    sessions_ask_for_services();
    streams_have_settled_at_rest();
    clients_hold_nothing_at_rest();
    streams_are_open_at_rest();
    streams_of_one_plain_device_are_plain();
    streams_of_one_device_are_on_its_link();
    a_device_breaks_no_link();
    streams_that_live_heard_no_close();
}

/// States that, if everything is settled, the numbers of clients and of streams that were drawn
/// equal the number of sessions that were given.
pub(crate) fn settled_worlds_are_counted()
    ensures { (parts : Parts) → IsDone parts → IsCounted (view_of parts false true) }
{
    requests_open_their_service();
    sessions_ask_for_services();
}

/// States that, if everything is settled, the end of a session's client and everything that follows
/// it change no file.
pub(crate) fn ended_sessions_change_no_file()
    ensures { (number : ℕ) (old mid new : Parts) → IsDone old → HasEnded number old mid new
        → files_of new.device ≡ files_of old.device }
{
    carries_rest();
    what_came_stays();
    most_entries_send_nothing();
    a_client_sends_up_its_own_stream();
    sessions_ask_for_services();
    a_device_breaks_no_link();
    settled_worlds_are_counted();
}

/// States that a world to which no session was given has no files.
pub(crate) fn new_worlds_have_no_files()
    ensures { (parts : Parts) → IsRunning parts → parts.given ≡ 0 → files_of parts.device ≡ [] }
{
    sessions_ask_for_services();
}

/// States that, if no step is possible, a session that ran alone was answered over the files as
/// they were, and produced the files as they are.
pub(crate) fn sessions_alone_are_answered()
    ensures { (old new : Parts) → IsAtEase old → GoesOn old new → Rests new
        → (n : ℕ) (session : Session) → IsNewAlone n old.sessions.entries
        → at n new.sessions.entries ≡ Some session
        → IsAnsweredAlone session (files_of old.device) (files_of new.device) }
{
    carries_rest();
    what_came_stays();
    requests_open_their_service();
    sessions_ask_for_services();
    streams_have_settled_at_rest();
    clients_hold_nothing_at_rest();
    streams_are_open_at_rest();
    streams_of_one_plain_device_are_plain();
    streams_of_one_device_are_on_its_link();
    a_device_breaks_no_link();
    streams_that_live_heard_no_close();
    clients_are_answered();
    payloads_in_turn_are_one();
    an_ended_service_takes_no_more();
    a_stream_alone_runs_over_its_files();
    echoes_leave_files();
}

/// States that, if no step is possible, the number of steps since a time at which nothing was in
/// transit is bounded.
pub(crate) fn settling_takes_few_steps()
    ensures { (old new : Parts) → IsAtEase old → (n : ℕ) → HasMade n old new → Rests new
        → n ≤ most_steps new.sessions.entries }
{
    what_came_stays();
    clients_pay_for_all_that_moves();
    steps_move_bytes();
    writes_were_put_at_rest();
    requests_open_their_service();
    sessions_ask_for_services();
    streams_have_settled_at_rest();
    clients_hold_nothing_at_rest();
    streams_are_open_at_rest();
    streams_of_one_plain_device_are_plain();
    streams_of_one_device_are_on_its_link();
    a_device_breaks_no_link();
    streams_that_live_heard_no_close();
}

/// States that, if no step is possible, sessions that asked only for echoes left the files
/// unchanged.
pub(crate) fn echoes_change_no_file()
    ensures { (old new : Parts) → IsAtEase old → GoesOn old new → Rests new
        → AreEchoes old.sessions.entries → files_of new.device ≡ files_of old.device }
{
    carries_rest();
    what_came_stays();
    requests_open_their_service();
    sessions_ask_for_services();
    streams_have_settled_at_rest();
    clients_hold_nothing_at_rest();
    streams_are_open_at_rest();
    streams_of_one_plain_device_are_plain();
    streams_of_one_device_are_on_its_link();
    a_device_breaks_no_link();
    streams_that_live_heard_no_close();
    clients_are_answered();
    payloads_in_turn_are_one();
    an_ended_service_takes_no_more();
    a_stream_alone_runs_over_its_files();
    echoes_leave_files();
}

/// States that, if no step is possible, concurrent sessions were answered through one order of all
/// their commands and whole sync requests, which leads from the files as they were to the files as
/// they are.
pub(crate) fn sessions_are_answered_together()
    ensures { (old new : Parts) → IsAtEase old → GoesOn old new → Rests new
        → AreWhole old.sessions.entries
        → AreAnsweredTogether (files_of old.device) (files_of new.device)
        old.sessions.entries new.sessions.entries }
{
    carries_rest();
    what_came_stays();
    requests_open_their_service();
    sessions_ask_for_services();
    streams_have_settled_at_rest();
    clients_hold_nothing_at_rest();
    streams_are_open_at_rest();
    streams_of_one_plain_device_are_plain();
    streams_of_one_device_are_on_its_link();
    a_device_breaks_no_link();
    streams_that_live_heard_no_close();
    clients_are_answered();
    payloads_in_turn_are_one();
    an_ended_service_takes_no_more();
    a_stream_alone_runs_over_its_files();
    echoes_leave_files();
    streams_run_together();
}

/// States that, if a step fails, the files are those after whole commands and whole sync requests,
/// in one order, and each session that had written nothing asked for a prefix of its requests.
pub(crate) fn sessions_are_asked_in_part()
    ensures { (old new : Parts) → IsAtEase old → HasStopped old new
        → AreWhole old.sessions.entries
        → AreAskedInPart (files_of old.device) (files_of new.device) old.sessions.entries }
{
    carries_rest();
    what_came_stays();
    requests_open_their_service();
    sessions_ask_for_services();
    streams_have_settled_at_rest();
    clients_hold_nothing_at_rest();
    streams_are_open_at_rest();
    streams_of_one_plain_device_are_plain();
    streams_of_one_device_are_on_its_link();
    a_device_breaks_no_link();
    streams_that_live_heard_no_close();
    clients_are_answered();
    payloads_in_turn_are_one();
    an_ended_service_takes_no_more();
    a_stream_alone_runs_over_its_files();
    echoes_leave_files();
    streams_run_in_part();
}

/// States that, if everything is settled, a session's client ends, and a step fails before
/// everything has settled again, no file has changed.
pub(crate) fn sessions_that_end_in_part_change_no_file()
    ensures { (number : ℕ) (old mid new : Parts) → IsDone old
        → HasEndedInPart number old mid new → files_of new.device ≡ files_of old.device }
{
    carries_rest();
    what_came_stays();
    most_entries_send_nothing();
    a_client_sends_up_its_own_stream();
    sessions_ask_for_services();
    a_device_breaks_no_link();
    settled_worlds_are_counted();
}

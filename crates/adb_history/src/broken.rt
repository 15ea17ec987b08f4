//! The promises are not vacuous: each is broken by a history of `specs/Broken.antt`, which no
//! server can produce.

ghost use Rattle.adb_history.specs.Fifo.{SendsPackets, HasBirths, CarriesRest, CarriesWholeRest};
ghost use Rattle.adb_history.specs.Fifo.{TellsClose};
ghost use Rattle.adb_history.specs.Fifo.{HandsTold, HandsWholeTold, KeepsUpWindow, KeepsDownWindow, HasNoCrossing};
ghost use Rattle.adb_history.specs.Opened.{AsksAtOnce};
ghost use Rattle.adb_history.specs.Causes.{EndsByClient, EndsByPeer, EndsOutOfTurn, EndsByLoss, EndsByBreak};
ghost use Rattle.adb_history.specs.Causes.{EndsByFailure, EndsByStop, HasNoOtherCause};
ghost use Rattle.adb_history.specs.Answered.{RepliesFirst, RepliesWhenBound, RepliesOfStream, ListsTracked};
ghost use Rattle.adb_history.specs.Answered.{HasPresentList, SaysNothingMore, HasStreamAlone};
ghost use Rattle.adb_history.specs.Broken as broken;

/// States that the order and uniqueness of the bytes of a stream can be broken: each field of
/// `IsFifo`.
pub fn fifo_can_be_broken()
    ensures packets { SendsPackets broken.sends_no_packet → ⊥ }
    ensures birth { HasBirths broken.draws_a_number_twice → ⊥ }
    ensures asked_at_once { AsksAtOnce broken.forgets_the_device → ⊥ }
    ensures up { CarriesRest broken.skips_a_byte → ⊥ }
    ensures up_whole { CarriesWholeRest broken.closes_with_a_byte_unsent → ⊥ }
    ensures close_sent { TellsClose broken.writes_none_for_the_close → ⊥ }
    ensures down { HandsTold broken.hands_a_byte_twice → ⊥ }
    ensures down_whole { HandsWholeTold broken.drops_at_close → ⊥ }
    ensures up_window { KeepsUpWindow broken.second_write_before_okay → ⊥ }
    ensures down_window { KeepsDownWindow broken.acks_on_arrival → ⊥ }
    ensures no_crossing { HasNoCrossing broken.writes_to_another_link → ⊥ }
{}

/// States that the cause of a stream's end can be broken: each field of `HasCauses`.
pub fn causes_can_be_broken()
    ensures by_client { EndsByClient broken.ends_with_a_write_outstanding → ⊥ }
    ensures by_peer { EndsByPeer broken.ends_without_a_close → ⊥ }
    ensures out_of_turn { EndsOutOfTurn broken.ends_in_turn → ⊥ }
    ensures lost { EndsByLoss broken.ends_with_a_link_that_stays → ⊥ }
    ensures broken { EndsByBreak broken.ends_with_a_link_unbroken → ⊥ }
    ensures failed { EndsByFailure broken.ends_unborn_with_its_client → ⊥ }
    ensures stopped { EndsByStop broken.ends_unborn_with_the_server → ⊥ }
    ensures no_other { HasNoOtherCause broken.outlives_its_client → ⊥ }
{}

/// States that the answer to each client can be broken: each field of `IsAnsweredAt`, and the bytes
/// handed to a client that came through a forward. A device's write that is not queued breaks it
/// too.
pub fn answers_can_be_broken()
    ensures replies { RepliesFirst broken.stale_device_list 1 → ⊥ }
    ensures bound_reply { RepliesWhenBound broken.keeps_a_listener_secret 1 → ⊥ }
    ensures stream_reply { RepliesOfStream broken.refuses_a_device 1 → ⊥ }
    ensures stream_whole { RepliesOfStream broken.withholds_a_byte 1 → ⊥ }
    ensures stream_at_end { RepliesOfStream broken.withholds_until_loss 1 → ⊥ }
    ensures tracked_lists { ListsTracked broken.lists_too_early 1 → ⊥ }
    ensures present_list { HasPresentList broken.misses_a_list 1 → ⊥ }
    ensures nothing_more { SaysNothingMore broken.answers_after_close 1 → ⊥ }
    ensures stream_alone { HasStreamAlone broken.hands_what_was_not_written 2 → ⊥ }
    ensures alone_whole { HasStreamAlone broken.withholds_all 2 → ⊥ }
{}

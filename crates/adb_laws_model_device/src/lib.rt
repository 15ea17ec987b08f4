//! A server and one device on its first link, paired: laws of a history with a link that brings the
//! packets that any device on a plain link sends in answer to the packets that it was sent. The
//! model device is such a device, so these laws hold for it, from the bytes up. Each function does
//! nothing: its contract is the law.
#![tactic(auto)]

mod laws;
mod pairs;

pub use laws::{
    a_device_refuses_what_a_server_refuses, a_row_lives_or_was_closed,
    joined_bytes_are_paired_packets, live_streams_are_acknowledged, no_write_waits_at_both_ends,
    opens_are_answered, streams_have_one_id, the_model_device_is_plain,
    what_a_server_sends_is_taken, what_was_sent_up_came,
};
pub use pairs::{
    acknowledgements_come_in_time, no_write_waits_at_rest, streams_are_sent_in_turn,
    the_device_is_told_in_time,
};

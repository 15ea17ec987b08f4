//! The direction from client to device: a device receives the bytes that the client of a stream
//! wrote, in order and once. Each function does nothing: its contract is the law.
#![tactic(auto)]

mod up;

pub use up::{
    carries_rest, carries_whole_rest, closed_streams_are_done, closes_are_sent,
    each_stream_is_carried, keeps_up_window, what_is_held_was_read,
};

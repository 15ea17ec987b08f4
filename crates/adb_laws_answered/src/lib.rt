//! The third promise: each whole request of a client is answered from the state of the server at
//! that time, and nothing else is sent. Each function does nothing: its contract is a law of every
//! legal history.
#![tactic(auto)]

mod answered;
mod served;

pub use answered::{
    listeners_are_told, nothing_more_is_said, replies_come_first, trackers_are_handed_lists,
    trackers_have_the_present_list,
};
pub use served::{
    every_legal_history_is_answered, forwards_carry_their_stream_alone, services_are_answered,
};

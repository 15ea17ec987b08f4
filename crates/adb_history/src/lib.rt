//! Histories: the state of the clients, devices and streams of the server after a list of entries,
//! the lists that are legal, the result of handing out all queued bytes after the entries that
//! came, and the promises of the server about every legal history.
#![tactic(auto)]

mod broken;
mod draining;
mod ending;
mod hand_out;
pub mod order;
mod refusal;
mod ties;

pub use broken::{answers_can_be_broken, causes_can_be_broken, fifo_can_be_broken};
pub use draining::draining_ends;
pub use ending::Ending;
pub use hand_out::{MAX_HAND_OUT, limits_are};
pub use refusal::{Reason, Refusal};
pub use ties::{
    due_is_past_put, due_is_past_sent, pieces_are_read_at_once, rest_is_past_packets,
    state_is_as_told, unread_is_past_used,
};

//! A device's link: the packets that come in on it, and its output queue.
#![tactic(auto)]

mod link;
mod outbox;
mod outgoing;

pub use link::Link;
pub use outgoing::{MAX_SHORT, limits_are};

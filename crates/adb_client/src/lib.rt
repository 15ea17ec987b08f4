//! The record that a server keeps of a client: its phase, its input that is held, and its output
//! queue.
#![tactic(auto)]

mod about;
mod ask;
mod client;
mod front;
mod fronts;
mod gathered;
mod input;
mod output;
mod phase;
mod slices;
mod tail;

pub use about::{About, Want};
pub use ask::{Ask, Asked, ask_in};
pub use client::Client;
pub use gathered::MAX_HELD;
pub use output::{MAX_SLICE, limits_are};
pub use phase::Phase;

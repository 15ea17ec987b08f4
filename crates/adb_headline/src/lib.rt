//! The headline: every legal history is fifo, has its causes and is answered; and the properties of
//! the bytes of streams that users ask for first. Each function does nothing: its contract is the
//! law.
#![tactic(auto)]

mod bytes;
mod promises;

pub use bytes::{puts_once, streams_see_their_own_bytes, what_was_handed_stays};
pub use promises::{
    every_legal_history_has_causes, every_legal_history_is_answered, every_legal_history_is_fifo,
};

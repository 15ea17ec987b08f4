//! The hub: the state machine between many clients and many devices (OVERVIEW.TXT).
//!
//! The caller reports each event by a call: `join`, `enter`, `read`, `end` and `bound` for clients,
//! `attach`, `recv` and `detach` for links. It fetches the output with `put` and `send`; `next_due`
//! returns a client or link that has some, and `next_touched` one whose state may have changed.
//! Each call makes one entry of a history, or none, and contracts speak of the history so far.
#![tactic(auto)]

mod answers;
mod clients;
mod completing;
mod endings;
mod error;
mod hand_outs;
mod hub;
mod links;

pub use adb_capture::Owner;
pub use adb_hub_links::Whole;
pub use adb_hub_tables::{Ended, Endings};
pub use answers::{Handed, Life, Room, Summary};
pub use endings::others_end_no_stream;
pub use error::HubError;
pub use hub::{DUE_FOR_STREAM, Hub, MAX_DUE_ON_LINK, MAX_DUE_TO_CLIENT, MAX_HELD, limits_are};

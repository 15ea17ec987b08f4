//! A model of a device, over packets (protocol.txt): its link to the host, its streams, and their
//! services.
//!
//! The caller feeds the bytes of the host to `Daemon::feed`, sends the bytes of `out` to the host,
//! and reports with `taken` how many it sent.
#![tactic(auto)]

mod daemon;
mod error;
mod laws;
mod machine;
mod services;
mod table;

pub use daemon::Daemon;
pub use error::DaemonError;
pub use laws::{
    closes_come_last, refusals_stay, streams_are_settled, streams_write_their_answers,
    what_is_owed_was_let_out, windows_are_exact, writes_are_acknowledged,
};

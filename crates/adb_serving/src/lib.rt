//! Runs the command of the program's words over this machine: its streams, sockets, threads and
//! devices.
#![tactic(auto)]

mod calling;
mod devices;
mod running;
mod serving;
mod started;
mod starting;

pub use adb_os_streams::Stream;
pub use started::{HistorySink, Started};
pub use starting::{start, words_of};

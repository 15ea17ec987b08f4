//! The top calls of `adbhub`: `run` runs any command, and `run_alone` one that neither serves nor
//! dials.
#![tactic(auto)]

mod alone;
mod alone_note;
mod note;
mod ran;
mod running;
mod serving;
mod status;
mod tool_note;
mod tools;
mod wanting;

pub use alone::run_alone;
pub use note::{say_out_of_memory, say_record_fault, say_usage};
pub use ran::Ran;
pub use running::run;
pub use status::Status;
pub use wanting::wanted;

//! A client tool at a server's port: `make_job` reads the input, and `ask` asks the server and
//! writes the answer.
#![tactic(auto)]

mod asking;
mod ends;
mod input;
mod job;
mod lines;
mod telling;
mod writing;

pub use asking::ask;
pub use ends::ToolEnd;
pub use input::{InputError, MAX_INPUT, limits_are, read_input};
pub use job::{Job, failed_input, make_job};

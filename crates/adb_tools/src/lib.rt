//! The client tools. Each asks a server on this machine for one job and writes the answer.
#![tactic(auto)]

mod calling;

pub use adb_asking::{MAX_INPUT, ToolEnd};
pub use calling::run_tool;

//! Runs the scripts of the command `local` in a world: the request of each line goes through a hub
//! to a model device, and its answer comes back.
#![tactic(auto)]

mod echoing;
mod running;
mod script_run;
mod session;

pub use running::run_script;
pub use script_run::ScriptRun;

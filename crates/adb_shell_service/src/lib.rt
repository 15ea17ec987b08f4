//! The commands of a model device's shell, and the service that runs one for a stream
//! (SERVICES.TXT, `shell:` and `shell,v2:`).
#![tactic(auto)]

mod commands;
mod laws;
mod outcome;
mod output;
mod program;
mod service;
mod words;

pub use laws::limits_are;
pub use service::ShellService;

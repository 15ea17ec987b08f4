//! The commands of `adbhub` that neither serve nor dial: they read a source and write a sink.
#![tactic(auto)]

mod answer_lines;
mod answering;
mod checking;
mod command;
mod end;
mod generating;
mod load_stop;
mod script_input;
mod script_kind;
mod script_stop;
mod texts;

pub use command::run_command;
pub use end::CommandEnd;
pub use load_stop::LoadStop;
pub use script_input::limits_are;
pub use script_kind::ScriptKind;
pub use script_stop::ScriptStop;
pub use texts::push_number;

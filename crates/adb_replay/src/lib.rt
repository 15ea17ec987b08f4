//! The replay of a capture: its entries are applied in order, all output is handed out after each,
//! and the whole history is written as a capture. `replay` does this from a source to a sink;
//! `Output` is its buffer.
#![tactic(auto)]

mod output;
mod replaying;
mod stop;

pub use output::Output;
pub use replaying::replay;
pub use stop::Stop;

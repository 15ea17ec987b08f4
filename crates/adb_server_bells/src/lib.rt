//! The state that a hall for many threads keeps under its lock: a desk, and the condition variables
//! of its workers.
#![tactic(auto)]

mod bells;
mod locked;
mod rings;

pub use bells::{Bells, Pair, Side};
pub use locked::Locked;
pub use rings::Rings;

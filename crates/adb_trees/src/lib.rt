//! Trees of files that the scripts of the command `copy` name, and the lines that are refused.
//! `read_tree` parses such a script.
#![tactic(auto)]

mod laws;
mod line;
mod named;
mod reading;
mod tree;

pub use laws::limits_are;
pub use named::NamedTree;
pub use reading::read_tree;

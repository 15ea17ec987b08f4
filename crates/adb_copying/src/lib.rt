//! Copies the tree that a script names: pushes it to the model device of a new world, pulls it
//! back, and shows its files.
#![tactic(auto)]

mod copying;
mod named;
mod showing;
mod shown;

pub use copying::copy_tree;
pub use named::ScriptTree;

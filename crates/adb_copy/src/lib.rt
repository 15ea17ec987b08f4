//! Copies trees of files: pushes a whole tree to the model device of a world, file by file, and
//! pulls it back.
#![tactic(auto)]

mod asking;
mod error;
mod found;
mod laws;
mod pulled;
mod pulling;
mod pushed;
mod pushing;
mod seeds;
mod sending;

pub use error::CopyError;
pub use laws::{directories_are_few, files_are_sent_whole, pushed_files_are_in_place};
pub use pulled::PulledTree;
pub use pulling::{pull_into, pull_tree};
pub use pushed::PushedTree;
pub use pushing::push_tree;

//! A large load: clients and devices with actions that are drawn from a seed, as the entries of a
//! history that come from outside.
#![tactic(auto)]

mod act;
mod course;
mod entries;
mod laws;
mod live;
mod load;
mod names;
mod numbers;
mod patterns;
mod texts;

pub use laws::no_turn_is_cut_off;
pub use load::Load;
pub use numbers::limits_are;

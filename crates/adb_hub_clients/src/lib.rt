//! Entries about a client: how it comes, by itself or through a forward, its requests, its bytes,
//! its listener, its end, and the kill. Memory is allocated first: if an allocation fails, nothing
//! has changed.
#![tactic(auto)]

mod asking;
mod bounds;
mod ends;
mod entering;
mod following;
mod hearing;
mod joins;
mod opening;
mod places;
mod plan;
mod reading;
mod requests;
mod sending;
mod stopping;
mod taking;

pub use bounds::bound;
pub use ends::end;
pub use joins::join;
pub use opening::{Asker, open, open_payload};
pub use plan::{Plan, make_plan};
pub use reading::{enter, read};
pub use stopping::stop;

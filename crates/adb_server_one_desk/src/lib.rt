//! A hall over a desk of its own, for one thread. Contracts see its history.
#![tactic(auto)]

mod calls;
mod one_desk;

pub use one_desk::OneDesk;

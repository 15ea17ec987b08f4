//! The standard streams of the system as sources and sinks.
#![tactic(auto)]

mod streams;

pub use streams::Stream;

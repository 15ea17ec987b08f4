//! Examples of callers: `hub` drives a hub, and `workers` runs the two workers of a client.
#![tactic(auto)]

pub mod hub;
pub mod workers;

//! The server. It accepts clients at a door, and serves each client and each device with two
//! workers.
//!
//! `serve` listens on a port first; `serve_at` serves at a door that is open already.
#![tactic(auto)]

mod accepting;
mod arriving;
mod ending;
mod listening;
mod refusals;
mod server;
mod workers;

pub use server::{Ended, Served, serve, serve_at};

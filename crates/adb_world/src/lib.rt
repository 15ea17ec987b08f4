//! A world: one hub, one model device and scripted clients, without any environment. Its bytes move
//! in pieces and in an order that a seed picks, until none can move.
//!
//! `World::start` adds a session, `settle` moves the bytes, and `World::answer` returns the answer
//! to a session.
#![tactic(auto)]

mod answer;
mod asking;
mod calls;
mod choices;
mod ending;
mod laws;
mod moving;
mod parts;
mod session;
mod settling;
mod starting;
mod steps;
mod words;
mod world;

pub use answer::Answer;
pub use session::{REPLIES, Session};
pub use words::Words;
pub use world::{World, settle};

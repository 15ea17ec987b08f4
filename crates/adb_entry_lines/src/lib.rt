//! Writes the entries of a history as the fields of JSON objects.
#![tactic(auto)]

mod fields;
mod payload;
mod text;

pub use fields::push_entry;
pub use payload::Payloads;
pub use text::{push_named, push_numbered, push_quoted};

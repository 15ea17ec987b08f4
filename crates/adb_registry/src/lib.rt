//! The devices that are plugged in: their identities, the device that a selector means, and the
//! printed lists.
#![tactic(auto)]

mod choice;
mod lists;
mod registry;
mod row;

pub use choice::Refusal;
pub use registry::{AttachError, MAX_FEATURES, Registry, limits_are};
pub use row::Row;

//! The files of a model device, and the service that answers sync requests over them (SYNC.TXT).
#![tactic(auto)]

mod answers;
mod file;
mod files;
mod laws;
mod listing;
mod mode;
mod outbox;
mod part;
mod path;
mod place;
mod pull;
mod service;
mod session;
mod slot;
mod stat;

pub use file::{File, FileError};
pub use files::Files;
pub use laws::limits_are;
pub use service::SyncService;

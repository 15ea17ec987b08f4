//! A client tool's conversation with a server over a port: `converse` writes the requests of a job
//! and returns the outcome (OVERVIEW.TXT, SERVICES.TXT, SYNC.TXT).
#![tactic(auto)]

mod conversing;
mod pushing;
mod saying;
mod sending;
mod turning;

pub use adb_remote_words::{MAX_ANSWER, MAX_WORD, Outcome, Remote, RemoteError};
pub use conversing::{MAX_PIECE, converse};

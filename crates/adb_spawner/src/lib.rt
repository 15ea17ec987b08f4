//! Running the jobs of a server: each in a thread of its own while it runs, or within the call.
#![tactic(auto)]

mod job;
mod pool;
mod worker_pool;

pub use job::Job;
pub use worker_pool::{NoThread, WorkerPool};

//! Yards. A yard is the environment of a server or a client tool: sockets, threads, and the
//! recorder. `NoYard` is the yard of a program that neither serves nor dials.
#![tactic(auto)]

mod no_yard;
mod yard;

pub use no_yard::{NoDoor, NoYard};
pub use yard::{Dialled, Listening, PoolKind, Yard, YardDevice};

//! The calls that the workers of a server make on its desk, and the critical section of each.
//!
//! `Hall` is the interface of the workers. `adb_server_one_desk::OneDesk` implements it for one thread,
//! and `adb_server_locked_hall::LockedHall` for many.
#![tactic(auto)]

mod alone;
mod hall;
mod notes;
mod passes;
mod sections;
mod with_pass;

pub use alone::{Over, mark_handle};
pub use hall::Hall;
pub use notes::is_starved;
pub use passes::{ClientInOf, ClientOutOf, LinkInOf, LinkOutOf, PassOf};
pub use sections::{Arrival, Awaits, Call, Section};

//! The parts of a live server: the door that accepts clients, the connections to forwards and the
//! devices that dialers deliver, its bell, and the listeners of forwards.
//!
//! No clause says which connections and devices come, or that a thread makes progress. Tests show
//! these.
#![tactic(auto)]

mod accept_queue;
mod binder;
mod deliveries;
mod dialer;
mod door;
mod forwards;
mod listeners;
mod troubles;

pub use binder::TcpBinder;
pub use deliveries::{Deliveries, TcpDevice};
pub use dialer::dial;
pub use door::{Entrance, TcpBell, TcpDoor};
pub use listeners::Listeners;

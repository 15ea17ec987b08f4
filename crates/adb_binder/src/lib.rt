//! Binding the ports of forwards, and the set of ports that are bound.
#![tactic(auto)]

mod binder;
mod memory;
mod open_ports;

pub use binder::{Binder, Binding};
pub use memory::MemoryBinder;
pub use open_ports::OpenPorts;

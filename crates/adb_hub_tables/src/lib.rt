//! The tables of a hub: clients, links and streams by number, the devices and the forwards, with
//! the places that are reserved for output, and the mutable parts of rows. A map of rows knows
//! which rows were touched since they were last seen with an empty output queue.
#![tactic(auto)]

mod clients;
mod devices;
mod endings;
mod limits;
mod links;
mod marks;
mod owes;
mod places;
mod ports;
mod ready;
mod streams;
mod tables;
mod touched_map;
mod tracking;
mod words;

pub use endings::{Ended, Endings};
pub use limits::limits_follow_the_payload;
pub use owes::Owes;
pub use places::{reserve_packets, reserve_slices};
pub use ports::Port;
pub use ready::make_ready;
pub use tables::Tables;
pub use touched_map::TouchedMap;

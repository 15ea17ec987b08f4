//! Entries about a device's link: how it comes, the bytes that come on it, and how it goes. Memory
//! is allocated first: if an allocation fails, nothing has changed.
#![tactic(auto)]

mod attaches;
mod counting;
mod cutting;
mod detaches;
mod granting;
mod naming;
mod one_packet;
mod preparing;
mod receiving;
mod reserving;
mod settling;
mod waiting;
mod whole;

pub use attaches::attach;
pub use detaches::detach;
pub use receiving::{recv, recv_whole};
pub use whole::Whole;

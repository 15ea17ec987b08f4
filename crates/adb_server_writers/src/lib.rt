//! The writers of clients and of devices. Each writes the bytes that are handed out to it, in
//! order.
#![tactic(auto)]

mod client_writer;
mod device_writer;
mod next;
mod outlets;
mod writer;

pub use client_writer::write_client;
pub use device_writer::write_device;

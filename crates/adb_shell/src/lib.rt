//! The packets of the shell protocol, version 2, which a device's `shell,v2:` service and its
//! client send each other. `write_packet` encodes a packet; a `ShellReader` is fed a stream in any
//! pieces and returns its packets.
#![tactic(auto)]

mod format;
mod laws;
mod packet;
mod reader;
mod writer;

pub use laws::{cut_is_determined, cut_is_right, faults_stay, limits_are, written_is_read};
pub use packet::{ShellError, ShellFault, ShellPacket};
pub use reader::ShellReader;
pub use writer::write_packet;

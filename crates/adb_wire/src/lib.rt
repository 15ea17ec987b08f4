//! The packets of the Android Debug Bridge (protocol.txt).
//!
//! `frame` encodes a packet. A `Deframer` is fed a stream in any pieces and returns its packets. A
//! `Slicer` cuts a stream into the bytes of its packets without decoding them, and allocates only
//! when it is made.
#![tactic(auto)]

mod command;
mod deframer;
mod format;
mod headers;
pub mod laws;
mod limits;
mod packets;
mod slicer;

pub use command::Command;
pub use deframer::{Deframer, WireError};
pub use format::{PacketFault, PacketFormat};
pub use headers::{HEADER_LEN, Head, HeadFault, MAX_PAYLOAD, byte_sum, header, read_header};
pub use limits::{MIN_MAXDATA, MIN_VERSION, VERSION, limits_are};
pub use packets::{Packet, frame};
pub use slicer::{MAX_PACKET, Slicer};

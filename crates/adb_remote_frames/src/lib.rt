//! The frames of a server's answers to its clients (OVERVIEW.TXT, SERVICES.TXT), byte by byte:
//! refusals, lists, and the packets of a command's output.
#![tactic(auto)]

mod frame;
mod head;
mod laws;
mod packets;
mod place;

pub use frame::{EXIT, Frame, STDERR, STDOUT};
pub use head::{Awaited, Head};
pub use laws::limits_are;
pub use packets::MAX_OUTPUT_PACKET;
pub use place::Place;

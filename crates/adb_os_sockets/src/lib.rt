//! TCP connections: the two halves of a client's and of a device's. Nagle's algorithm is off.
//!
//! No clause says which bytes a socket carries. An interrupted call is repeated, and each call that
//! fails is counted.
#![tactic(auto)]

mod device;
mod ending;
mod line;
mod lookout;
mod port;
mod socket;

pub use device::{TcpDeviceIn, TcpDeviceOut, connected_device};
pub use ending::Ending;
pub use line::Line;
pub use lookout::Lookout;
pub use port::{TcpIn, TcpOut, accepted, halves};
pub use socket::set_up_listener;

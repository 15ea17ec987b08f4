//! Connections from outside: clients and devices by their two halves, the door where both come in,
//! the gates that hold workers, and their fakes in memory.
#![tactic(auto)]

mod device;
mod door;
mod either;
mod gate;
mod memory_device;
mod memory_port;
mod port;

pub use device::{Device, DeviceIn, DeviceOut, Plug};
pub use door::{Arrival, Bell, Came, Door, SilentBell};
pub use either::{EitherIn, EitherOut};
pub use gate::{Gate, OpenGate, Place};
pub use memory_device::{MemoryDeviceIn, MemoryDeviceOut};
pub use memory_port::{MemoryIn, MemoryOut};
pub use port::{PortIn, PortOut};

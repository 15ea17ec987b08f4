//! A model device in a thread of its own, and the two halves of its link to a server. Two pipes
//! connect them.
//!
//! `run_device` runs the device between its ends of the pipes. `PipeDeviceIn` and `PipeDeviceOut`
//! are the halves at the other ends.
#![tactic(auto)]

mod pipe_device;
mod running;

pub use pipe_device::{PipeDeviceIn, PipeDeviceOut};
pub use running::{DeviceEnd, run_device};

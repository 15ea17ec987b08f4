//! The environment of a live server: sockets, threads, the record, and model devices in threads of
//! their own.
#![tactic(auto)]

mod live_door;
mod real_yard;

pub use adb_os_door::{
    Deliveries, Entrance, Listeners, TcpBell, TcpBinder, TcpDevice, TcpDoor, dial,
};
pub use adb_os_model_device::{DeviceEnd, PipeDeviceIn, PipeDeviceOut, run_device};
pub use adb_os_record::{
    Begun, LiveRecorder, Named, PipeSink, RecordState, Settled, Writing, begin_record, end_record,
};
pub use adb_os_sockets::{Ending, TcpDeviceIn, TcpDeviceOut, TcpIn, TcpOut};
pub use live_door::{LiveDevice, LiveDeviceIn, LiveDeviceOut, LiveDoor, ModelDevice, model};
pub use real_yard::RealYard;

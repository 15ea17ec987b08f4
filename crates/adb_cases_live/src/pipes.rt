//! The two halves of a device's link, each at an end of one pipe: the end of the link.

use adb_connections::{DeviceIn, DeviceOut};
use adb_os_model_device::{PipeDeviceIn, PipeDeviceOut};
use adb_outside::{Got, Wrote};
use adb_pipe::pipe;
use std::alloc::{AllocError, Global};
use std::sync::Wait;

/// Returns whether a piece in two parts arrives as one chunk, and the end comes after it.
fn end(output: &mut impl DeviceOut, input: &mut impl DeviceIn) -> bool {
    let mut into = [0u8; 8];
    let all = output.write_both(b"CN", b"XN") == Wrote::All;
    output.unplug();
    all && input.read(&mut into) == Got::Bytes(4)
        && into.starts_with(b"CNXN")
        && input.read(&mut into) == Got::End
        && output.write(b"x") == Wrote::Failed { taken: 0 }
}

pub fn pipes_end<W: Wait + Copy + Drop>(rt: W, alloc: Global) -> Result<bool, AllocError> {
    let (to, from) = pipe(rt, alloc, 2)?;
    let mut output = PipeDeviceOut::new(alloc, to);
    let mut input = PipeDeviceIn::new(alloc, from);
    Ok(end(&mut output, &mut input))
}

/// Returns whether one byte comes, and then a fault in place of the end.
fn is_lost(input: &mut impl DeviceIn) -> bool {
    let mut into = [0u8; 8];
    input.read(&mut into) == Got::Bytes(1) && input.read(&mut into) == Got::Failed
}

/// Returns whether bytes that were put arrive after the output half was dropped, and the next read
/// fails.
pub fn pipes_are_lost<W: Wait + Copy + Drop>(rt: W, alloc: Global) -> Result<bool, AllocError> {
    let (to, from) = pipe(rt, alloc, 2)?;
    let mut output = PipeDeviceOut::new(alloc, to);
    let all = output.write(b"x") == Wrote::All;
    drop(output);
    let mut input = PipeDeviceIn::new(alloc, from);
    Ok(all && is_lost(&mut input))
}

/// Returns whether a write fails after the input half was dropped.
pub fn pipes_refuse<W: Wait + Copy + Drop>(rt: W, alloc: Global) -> Result<bool, AllocError> {
    let (to, from) = pipe(rt, alloc, 2)?;
    drop(from);
    let mut output = PipeDeviceOut::new(alloc, to);
    Ok(output.write(b"x") == Wrote::Failed { taken: 0 })
}

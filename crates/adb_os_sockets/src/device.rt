//! The two halves of a device's link.

ghost use Rattle.std.specs.Prelude.{◌≡◌, false, IfOk};

use crate::ending::Ending;
use crate::line::Line;
use crate::socket::{receive, send, set_up};
use adb_connections::{DeviceIn, DeviceOut, Plug};
use adb_outside::{Got, Wrote};
use std::alloc::Global;
use std::io;
use std::net::{Shutdown, TcpStream};
use std::sync::Arc;

/// The read half of a link to a device at a port of this machine. Contracts do not see its bytes.
#[derive(Drop)]
pub struct TcpDeviceIn {
    stream: Arc<TcpStream, Global>,
    line: Arc<Line, Global>,
    faults: u64,
}

/// The write half of such a link. A write to a device that does not read blocks until the server
/// ends, and then fails. Contracts do not see its bytes.
#[derive(Drop)]
pub struct TcpDeviceOut {
    stream: Arc<TcpStream, Global>,
    line: Arc<Line, Global>,
    ending: Ending,
    closed: bool,
    faults: u64,
}

/// Makes the two halves of the link to a device that is connected. `unplug` ends the line.
///
/// Fails if the system cannot set up the stream, or if an allocation fails. The stream is then
/// closed.
pub fn connected_device(
    alloc: Global,
    stream: TcpStream,
    line: &Arc<Line, Global>,
    ending: &Ending,
) -> io::Result<(TcpDeviceIn, TcpDeviceOut)>
    ensures { IfOk result (λ ends. (ends.0.faults ≡ 0) × (ends.1.faults ≡ 0)
        × (ends.1.closed ≡ false)) }
{
    set_up(&stream)?;
    let stream = Arc::new(alloc, stream)?;
    let input = TcpDeviceIn {
        stream: Arc::try_clone(&stream)?,
        line: Arc::try_clone(line)?,
        faults: 0,
    };
    let output = TcpDeviceOut {
        stream,
        line: Arc::try_clone(line)?,
        ending: ending.share()?,
        closed: false,
        faults: 0,
    };
    Ok((input, output))
}

impl DeviceIn for TcpDeviceIn {
    ghost use Rattle.std.specs.Prelude.{None};

    ghost faults = { λ device. device.faults };

    ghost left = { λ device. None };

    ghost plugs = { λ device. None };

    ghost steady = { λ device. ⊥ };

    /// Returns `Here`: the device is connected.
    fn plug(&mut self) -> Plug {
        Plug::Here
    }

    fn read(&mut self, into: &mut [u8]) -> Got {
        let got = receive(&self.stream, into);
        match got {
            Got::Bytes(_) => self.line.speak(),
            Got::Failed => self.faults = self.faults.saturating_add(1),
            Got::End => {}
        }
        got
    }
}

impl DeviceOut for TcpDeviceOut {
    ghost use Rattle.std.specs.Prelude.{None};

    ghost faults = { λ device. device.faults };

    ghost written = { λ device. None };

    ghost closed = { λ device. device.closed };

    ghost steady = { λ device. ⊥ };

    fn write(&mut self, piece: &[u8]) -> Wrote {
        self.write_both(&[], piece)
    }

    /// Writes both parts with one system call, if that call takes them whole.
    fn write_both(&mut self, start: &[u8], rest: &[u8]) -> Wrote {
        let wrote = send(&self.stream, &self.ending, start, rest);
        if wrote != Wrote::All {
            self.faults = self.faults.saturating_add(1);
        }
        wrote
    }

    /// Shuts down both directions, which also ends the reads of the other half, and ends the line.
    fn unplug(&mut self) {
        let _ = self.stream.shutdown(Shutdown::Both);
        self.line.end();
        self.closed = true;
    }
}

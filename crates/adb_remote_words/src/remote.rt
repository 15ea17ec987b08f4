//! The jobs of a client tool, and their outcomes.

use adb_outside::Text;

/// A job that a client tool asks a server for.
#[derive(Drop)]
pub enum Remote {
    /// List the devices.
    Devices,
    /// Write these bytes to the file at a path of a device, with a time in seconds since 1970.
    Push { path: Text, mtime: u32, bytes: Text },
    /// Read the bytes of a device's file.
    Pull { path: Text },
    /// Run a command on a device, without input.
    Shell { command: Text },
    /// Wait until a device has this state.
    Wait { serial: Text, state: Text },
}

/// The outcome of a job.
#[derive(Drop)]
pub enum Outcome {
    /// The list of devices.
    Listed(Text),
    /// The file was stored.
    Pushed,
    /// The bytes of the file.
    Pulled(Text),
    /// The output and the error output of the command, and its exit status.
    Ran { out: Text, err: Text, status: u8 },
    /// The device has the state.
    Ready,
}

/// The reason why there is no outcome.
#[derive(Drop)]
pub enum RemoteError {
    /// The server or the device answered a FAIL with this text.
    Refused(Text),
    /// The offset of the first byte after which no answer can follow, counted from the first byte
    /// of the answer. It is the number of bytes if the answer ended first, and the greatest offset
    /// if that many bytes decided nothing.
    BadAnswer { offset: u64 },
    /// A read or a write failed.
    PortFault,
    /// An allocation failed.
    OutOfMemory,
}

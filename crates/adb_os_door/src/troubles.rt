//! Errors of `accept`, classified by their handling.

use std::io;

/// The meaning of an error of `accept` for the listener.
#[derive(Clone, Copy, Debug, PartialEq, Eq, Drop)]
pub enum Trouble {
    /// No connection waits.
    Empty,
    /// The call was interrupted, or the connection is gone.
    Passing,
    /// A descriptor or memory is missing, or there is another cause that can pass.
    Shortage,
    /// The listener accepts no more connections.
    Lasting,
}

const EBADF: i32 = 9;

const EFAULT: i32 = 14;

const EINVAL: i32 = 22;

const ENOTSOCK: i32 = 88;

const EOPNOTSUPP: i32 = 95;

/// Classifies an error of `accept`. An error that is not known to last is a shortage: EMFILE,
/// ENFILE, ENOBUFS and ENOMEM, and the errors of the network that accept(2) passes on.
pub fn trouble_of(error: &io::Error) -> Trouble {
    match error.kind() {
        io::ErrorKind::WouldBlock => Trouble::Empty,
        io::ErrorKind::Interrupted | io::ErrorKind::ConnectionAborted => Trouble::Passing,
        _ => match error.raw_os_error() {
            Some(EBADF | EFAULT | EINVAL | ENOTSOCK | EOPNOTSUPP) => Trouble::Lasting,
            _ => Trouble::Shortage,
        },
    }
}

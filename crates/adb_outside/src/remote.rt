//! The maximum length of the remote end of a forward.

/// The maximum length in bytes of the remote end of a forward.
pub const MAX_REMOTE: usize = 512;

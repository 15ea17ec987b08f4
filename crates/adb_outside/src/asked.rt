//! The maximum length of a word of a request that this project's own clients send.

/// The maximum length in bytes of a path, a command or a word that a client tool or a script sends.
pub const MAX_ASKED: usize = 1_000;

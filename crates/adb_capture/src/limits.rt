//! The limits of captures.

/// The number of bytes before a record's data: its kind, its number, and the length of its data.
pub const RECORD_HEADER_LEN: usize = 9;

/// The maximum number of bytes of a record's data.
pub const MAX_DATA: usize = 2_097_152;

/// The maximum number of bytes of a capture.
pub const MAX_CAPTURE: u64 = 1_073_741_824;

/// The maximum number of bytes that one read of a capture's source asks for.
pub const MAX_READ: usize = 65_536;

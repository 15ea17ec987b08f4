//! The detail in which bytes are shown.

/// The detail in which the bytes of an entry are shown.
#[derive(Clone, Copy, Debug, PartialEq, Eq, Drop)]
pub enum Payloads {
    /// The number of bytes, and the bytes as a string.
    Whole,
    /// Only the number of bytes.
    Lengths,
}

//! Captures of histories: the entries of a history as records of bytes, and the functions that
//! write them to a sink.
#![tactic(auto)]

mod entry;
mod error;
mod laws;
mod lent;
mod limits;
mod writer;

pub use entry::{Entry, Owner};
pub use error::{CaptureError, FormFault, Why};
pub use laws::{limits_are, read_is_spelled, records_are_framed, spelled_is_read};
pub use lent::Lent;
pub use limits::{MAX_CAPTURE, MAX_DATA, MAX_READ, RECORD_HEADER_LEN};
pub use writer::{
    Head, LARGE, MAGIC, Spelled, append_entry, append_magic, append_start, write_both, write_entry,
    write_magic,
};

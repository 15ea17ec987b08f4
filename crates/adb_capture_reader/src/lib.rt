//! Reading captures: the records of a source one by one.
//!
//! `CaptureReader::next` returns the entries with copies of their bytes. `await_next`, `first` and
//! `pass` give the same records without a copy.
#![tactic(auto)]

mod awaiting;
mod form;
mod held;
mod reader;
mod record;

pub use reader::CaptureReader;
pub use record::Record;

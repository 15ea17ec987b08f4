//! The record of a live server: a recorder that writes a capture into a pipe, and the thread that
//! writes the chunks of the pipe to a sink.
//!
//! `begin_record` opens the pipe and starts the thread, and a `LiveRecorder` over a `PipeSink`
//! writes into the pipe. When the server has ended, `end_record` joins both: the sink was given the
//! magic and the records of the entries that the recorder has kept, or a prefix of them if a write
//! failed.
//!
//! If nobody reads what the thread writes, the pipe fills, and the recorder waits. A server that
//! ends, or is asked to end, waits for its record for a second at most, and then goes without it.
//!
//! Not claimed: that the thread runs, how long a call waits, and that a failed write ends the
//! server early. Tests show these.
#![tactic(auto)]

mod live;
mod pipe_sink;
mod record_state;
mod writing;

pub use live::{LiveRecorder, end_record};
pub use pipe_sink::{Named, PipeSink};
pub use record_state::RecordState;
pub use writing::{Begun, Settled, WillWrite, Writing, Written, begin_record};

//! Recorders, which keep the entries of a running server, in memory or as a capture that is written
//! to a sink. The relation `Recorder::stands` says which entries a recorder has kept.
#![tactic(auto)]

mod memory_recorder;
mod recorder;
mod sink_recorder;

pub use memory_recorder::MemoryRecorder;
pub use recorder::{NullRecorder, RecordError, Recorder};
pub use sink_recorder::SinkRecorder;

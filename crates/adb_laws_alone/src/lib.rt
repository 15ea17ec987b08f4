//! The streams of a single client at a model device, echoes, and the answer of a service to
//! consecutive payloads. Each function does nothing: its contract is the law.
#![tactic(auto)]

mod laws;
mod payloads;

pub use laws::{
    a_stream_alone_runs_over_its_files, echoes_leave_files, streams_run_in_part,
    streams_run_together,
};
pub use payloads::{an_ended_service_takes_no_more, payloads_in_turn_are_one};

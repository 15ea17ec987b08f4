//! A pipe of chunks between two threads. Chunks are taken in the order in which they were put. When
//! both ends are back in one thread, `PipeEnd::compare` states this for the whole run.
//!
//! Not claimed: that a thread runs, that a call which waits returns, why the channel refuses a
//! chunk or yields nothing, and that `finish` puts its mark. Tests show the last two.
#![tactic(auto)]

mod ends;
mod laws;
mod rule;

pub use ends::{NotPut, PipeEnd, PipeIn, PipeOut, Taken, pipe};
pub use laws::{ended_pipe_is_whole, put_is_taken_and_held};
pub use rule::{Compared, InOrder, Item, Passed, View};

//! The plain types of the host server, the traits of the outside world with their fakes in memory,
//! and the cutting of a stream into frames.
#![tactic(auto)]

mod answers;
mod asked;
mod behind;
mod byte_queue;
mod decimal;
mod failing;
mod framer;
mod gather;
mod hand_out;
mod identity;
mod kinds;
mod laws;
mod memory;
mod never;
mod remote;
mod serial;
mod sink;
mod source;
mod split_bytes;
mod supply;
mod text;

pub use answers::Answers;
pub use asked::MAX_ASKED;
pub use byte_queue::ByteQueue;
pub use decimal::read_number;
pub use failing::Failing;
pub use framer::{FeedError, Format, Framer, Front};
pub use hand_out::{HandOut, MAX_START, MIN_SHARED, Parts};
pub use identity::{Identity, State, state_of, state_text};
pub use kinds::{Cause, Kind, Selector};
pub use laws::limits_are;
pub use memory::{MemorySink, MemorySource};
pub use never::NeverSink;
pub use remote::MAX_REMOTE;
pub use serial::{MAX_SERIAL, is_graphic, is_serial};
pub use sink::{Sink, Wrote};
pub use source::{Got, Source};
pub use split_bytes::SplitBytes;
pub use text::Text;

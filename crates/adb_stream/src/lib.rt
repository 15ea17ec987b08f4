//! The streams between clients and devices: their two ends, and the number of bytes that each end
//! may send.
#![tactic(auto)]

mod credit;
mod flow;
mod row;
mod shelf;
mod streams;
mod window;

pub use credit::{CREDIT_STEP, CREDIT_WINDOW, Credit, limits_are};
pub use flow::{Flow, Took};
pub use row::{Part, Stream};
pub use streams::{DrawError, Streams};
pub use window::Window;

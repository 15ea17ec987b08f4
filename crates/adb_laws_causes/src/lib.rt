//! The causes of the ends of streams: in every legal history a stream ends only for a cause that
//! the history contains, at the entry by which it ends.
#![tactic(auto)]

pub mod ends;

//! The steps of entries at rest: the entries that leave the up rule nothing to do, the streams that
//! can send at all after bytes of a client or a device, and the streams that stay as they are; and
//! that the action after a request can be done. Each function does nothing: its contract is the
//! law.
#![tactic(auto)]

mod named;
pub mod resting;
pub mod wanted;

pub use named::{
    links_keep_what_is_cut, named_streams_alone_may_send, packets_keep_streams,
    streams_are_still_at_rest,
};

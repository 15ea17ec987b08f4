//! The direction from device to client: in every legal history the client of a stream is handed the
//! bytes that its device wrote. Each function does nothing: its contract is the law.
#![tactic(auto)]

mod down;
mod streams;

pub use down::{
    all_is_handed_up_to_the_close, what_is_acknowledged_was_handed, what_is_handed_was_told,
};
pub use streams::{
    every_stream_has_its_life, every_stream_keeps_its_window, none_but_the_born_end,
};

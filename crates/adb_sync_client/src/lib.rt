//! The client of a device's file sync service (SYNC.TXT): one machine for each kind of request.
//!
//! The caller sends the bytes of `out` to the service, reports with `taken` how many it sent, and
//! feeds the bytes of the answer to `feed`, which returns what all of them mean so far.
#![tactic(auto)]

mod asking;
mod entries;
mod expected;
mod kind;
mod laws;
mod list;
mod outgoing;
mod pull;
mod push;
mod reading;
mod request;
mod stat;
mod step;
mod told;

pub use asking::{PathAsk, PathValue};
pub use entries::Entries;
pub use kind::AnswerKind;
pub use laws::{
    ended_answers_stay, first_bad_byte_is_told, limits_are, open_answers_can_end,
    written_files_are_pulled,
};
pub use list::List;
pub use pull::Pull;
pub use push::Push;
pub use request::MAX_ASKED_PATH;
pub use stat::Stat;
pub use step::{StatValue, Step};

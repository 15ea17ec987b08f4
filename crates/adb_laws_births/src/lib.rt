//! Births: the streams of a legal history, how they end, the packets that their links bring, and
//! the packets that are sent for them.
#![tactic(auto)]

mod clients;
mod links;
mod packets;
mod streams;

pub use clients::{births_are_of_clients, clients_are_kept_as_they_came, clients_have_one_stream};
pub use links::{links_bring_what_is_cut, what_came_stays};
pub use packets::{
    due_packets_are_own, no_stream_crosses, packets_are_sent, sent_packets_come_first,
};
pub use streams::{
    entries_draw_at_most_one, streams_are_asked_for_at_once, streams_are_born,
    streams_hear_their_links, streams_live_or_end,
};

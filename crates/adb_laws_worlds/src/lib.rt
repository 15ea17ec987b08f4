//! A server and its model device together: the combined laws of both ends, at each time and when
//! nothing is in transit. Each function does nothing: its contract is the law.
#![tactic(auto)]

mod device;
mod server;
mod together;

pub use device::{ids_were_asked_for, opens_are_replied_to, writes_are_allowed};
pub use server::{
    connected_devices_take_payloads, links_are_greeted, open_streams_are_served,
    streams_of_one_device_are_on_its_link, streams_that_live_heard_no_close,
    streams_that_live_sent_no_close,
};
pub use together::{
    a_device_breaks_no_link, a_device_writes_in_turn, clients_hold_nothing_at_rest,
    closed_streams_gave_their_answer, okays_come_in_time, open_streams_are_settled,
    open_streams_have_rows, streams_are_open_at_rest, streams_have_settled_at_rest,
    streams_of_a_plain_device_are_plain, streams_of_known_services_are_opened,
    streams_of_one_plain_device_are_plain, streams_outlive_a_link_that_stays,
    what_services_took_was_written,
};

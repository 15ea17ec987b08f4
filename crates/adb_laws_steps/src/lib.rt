//! Bounds on the traffic in a world: the packets that a server and its model device send for the
//! bytes that clients write and are handed. Each function does nothing: its contract is the law.
#![tactic(auto)]

mod laws;

pub use laws::{
    a_device_brings_what_is_worth_its_answer, clients_pay_for_all_that_moves, steps_move_bytes,
    the_device_answers_alone, tolls_are_paid, writes_were_put_at_rest,
};

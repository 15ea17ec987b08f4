//! Laws of a server under a load: it accepts all of the load, entry by entry and from its capture;
//! the result is a legal history; and the bytes put to a client after two replies came from its
//! device. Each function does nothing: its contract is the law.
#![tactic(auto)]

mod laws;

pub use laws::{
    captures_of_loads_are_accepted, loads_are_accepted, loads_are_legal, totals_of_loads,
};

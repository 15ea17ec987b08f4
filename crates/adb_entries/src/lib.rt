//! The machine over a hub. `apply` makes the next entry of a history in the hub, and `hand_next`
//! makes its next hand-out.
#![tactic(auto)]

mod applying;
mod handing;
mod refused;

pub use applying::{apply, apply_reporting};
pub use handing::hand_next;
pub use refused::Refused;

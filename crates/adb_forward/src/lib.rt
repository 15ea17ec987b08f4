//! The forwards of a host server: the local port, and the service and device to which it leads
//! (SERVICES.TXT, `<host-prefix>:forward`).
#![tactic(auto)]

mod row;
mod table;

pub use row::{ForwardError, ForwardRow};
pub use table::{Forwards, MAX_FORWARDS, limits_are};

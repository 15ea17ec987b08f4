//! Sessions and their answers: what the clients of a server with one model device ask for, and the
//! bytes that they were handed when nothing is in transit. A client that is gone was put everything
//! first. Each function does nothing: its contract is the law.
#![tactic(auto)]

mod gone;
mod laws;
mod sessions;

pub use gone::clients_that_go_were_put_all;
pub use laws::clients_are_answered;
pub use sessions::{requests_open_their_service, sessions_ask_for_services};

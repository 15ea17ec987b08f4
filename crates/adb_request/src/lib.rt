//! The requests of clients (OVERVIEW.TXT, SERVICES.TXT). `cut` finds the first request in a
//! client's bytes, and `read` parses its text.
#![tactic(auto)]

mod cutting;
mod forms;
mod hex;
mod laws;
mod meaning;
mod request;

pub use cutting::{Found, cut};
pub use hex::{hex4, read_hex4};
pub use laws::{
    fixed_texts_are_read, forms_are_read, forwards_are_read, spelled_is_read, transports_are_read,
};
pub use meaning::read;
pub use request::{Request, Which};

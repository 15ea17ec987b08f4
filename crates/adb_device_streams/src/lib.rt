//! The services of a model device and their streams (SERVICES.TXT, SYNC.TXT).
#![tactic(auto)]

mod answers;
mod asked;
mod due;
mod laws;
mod link;
mod service;
mod stream;
mod writes;

pub use answers::{answer_okay, answer_open, answer_write};
pub use asked::{Asked, read_service, service_name};
pub use due::push_packet;
pub use laws::links_are_as_a_host_makes_them;
pub use link::{Link, credit_word_in, read_cnxn};
pub use service::Service;
pub use stream::Stream;
pub use writes::Outgoing;

//! Answers to requests. `reply` computes the bytes of the reply, and the action of the server that
//! follows, from the devices, the forwards, the device that the connection selected, and the
//! request. It changes nothing itself.
#![tactic(auto)]

mod about_devices;
mod about_forwards;
mod answer;
mod chosen;
mod laws;
mod refusals;
mod replies;
mod strings;

pub use answer::{Answer, Next};
pub use laws::{replies_begin_right, texts_carry_their_length};
pub use refusals::limits_are;
pub use replies::reply;
pub use strings::push_string;

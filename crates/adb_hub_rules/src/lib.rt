//! The rules of the hub: the changes that entries make to its tables. No rule allocates; places for
//! output are reserved beforehand.
#![tactic(auto)]

mod came;
mod ends;
mod handing;
mod losing;
mod okays;
mod packets;
mod sweep;
mod treating;
mod up_rule;
mod writes;

pub use came::Came;
pub use handing::{hand_client, hand_link};
pub use losing::{end_client, end_link, phase_of};
pub use sweep::up_each;
pub use treating::{credit_word, treat, treat_all};
pub use up_rule::{close_idle, up};

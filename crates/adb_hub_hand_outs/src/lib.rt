//! Handing out output to clients and links, and choosing the next one. Memory is allocated first:
//! if an allocation fails, nothing has changed.
#![tactic(auto)]

mod due;
mod lists;
mod places;
mod puts;
mod sends;

pub use due::{front_len, is_owed, next_due, next_touched};
pub use puts::put;
pub use sends::send;

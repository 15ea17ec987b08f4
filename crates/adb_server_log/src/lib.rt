//! The log of a desk, which is everything in it except the hub: the recorder, the counts of entries
//! and of moved bytes with their shares, and the marks.
#![tactic(auto)]

mod error;
mod keeping;
mod log;
mod marked;
mod marks;
mod pass;
mod shares;

pub use error::DeskError;
pub use keeping::{keep_attach, keep_put, keep_sent};
pub use log::Log;
pub use marked::{is_marked, marks_error, marks_handed, marks_room};
pub use marks::{ALL_PARTS, Marks, limits_are};
pub use pass::{ClientIn, ClientOut, LinkIn, LinkOut, Mark, Pass};

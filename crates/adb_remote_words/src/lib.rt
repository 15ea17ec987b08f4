//! The words that a client tool writes to a server, and the meaning of the server's answer
//! (OVERVIEW.TXT, SERVICES.TXT, SYNC.TXT).
#![tactic(auto)]

mod body;
mod frames;
mod laws;
mod opening;
mod reading;
mod remote;
mod step;
mod told;
mod words;

pub use laws::{decided_answers_stay, limits_are};
pub use reading::{MAX_ANSWER, Reading};
pub use remote::{Outcome, Remote, RemoteError};
pub use step::is_more;
pub use words::{FILE_MODE, MAX_WORD, first_word, second_word};

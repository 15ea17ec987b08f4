//! Checks whether a history is legal: whether a server could have made it.
#![tactic(auto)]

mod capture;
mod judge;
mod laws;
mod taking;
mod verdict;

pub use capture::{Judgement, judge_capture};
pub use judge::Judge;
pub use laws::{a_first_bad_entry_is_no_legal_one, there_is_one_first_bad_entry};
pub use taking::{rule_of, take};
pub use verdict::{Rule, Verdict};

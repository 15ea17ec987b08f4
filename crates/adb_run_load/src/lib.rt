//! Running a load: its entries are applied to a hub, one after another, all output is handed out
//! after each, and the bytes are counted.
#![tactic(auto)]

mod count;
mod down;
mod run;
mod totals;
mod up;
mod writes;

pub use run::run_load;
pub use totals::Totals;

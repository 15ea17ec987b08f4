//! Rows under numbers that are drawn in order and never used again: a map with the rows in an array
//! by number, so that the row of a number is found without a search if the numbers are close
//! together.
#![tactic(auto)]

mod row_map;
mod shelf;
mod slots;

pub use row_map::RowMap;

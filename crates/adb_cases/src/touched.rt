//! The numbers that a touched map names, as rows come, are lent and go.

use adb_hub_tables::{Owes, TouchedMap};
use std::alloc::{AllocError, Global};

/// A row to which nothing is due.
#[derive(Drop)]
struct Row {}

impl Owes for Row {
    ghost use Rattle.std.specs.Prelude.{false};

    ghost owed = { λ row. false };

    fn owes(&self) -> bool {
        false
    }
}

/// An operation on the row of a number.
#[derive(Clone, Copy, Drop)]
enum Act {
    /// Insert a row.
    Insert,
    /// Lend the row, if there is one.
    Lend,
    /// Remove the row.
    Remove,
    /// Remove all other rows.
    KeepOnly,
}

/// The operations before the first request for a name.
const BEFORE: &[(Act, u32)] = &[
    (Act::Insert, 5),
    (Act::Insert, 70),
    (Act::Insert, 3),
    (Act::Remove, 5),
];

/// An operation on a number, and the number that is named then, or 0.
const NAMES: &[(Act, u32, u32)] = &[
    (Act::Lend, 70, 3),
    (Act::Lend, 3, 3),
    (Act::Lend, 6, 70),
    (Act::Lend, 6, 0),
    (Act::Remove, 3, 3),
    (Act::Lend, 3, 0),
    (Act::Insert, 128, 128),
    (Act::Insert, 129, 129),
    (Act::KeepOnly, 70, 0),
    (Act::Lend, 70, 70),
];

fn take_step(rows: &mut TouchedMap<Row>, act: Act, number: u32) -> Result<(), AllocError> {
    match act {
        Act::Insert => {
            rows.insert(number, Row {})?;
        }
        Act::Lend => {
            rows.get_mut(&number);
        }
        Act::Remove => {
            rows.remove(&number);
        }
        Act::KeepOnly => rows.keep_only(number),
    }
    Ok(())
}

/// Returns the index of the first row of `NAMES` that does not hold.
fn first_fault(rows: &mut TouchedMap<Row>) -> Result<Option<usize>, AllocError> {
    for &(act, number) in BEFORE {
        take_step(rows, act, number)?;
    }
    for (at, &(act, number, named)) in NAMES.iter().enumerate() {
        take_step(rows, act, number)?;
        if rows.next_touched().unwrap_or(0) != named {
            return Ok(Some(at));
        }
    }
    Ok(None)
}

pub fn each_is_named_once(alloc: Global) -> Result<Option<usize>, AllocError> {
    let mut rows = TouchedMap::new(alloc);
    first_fault(&mut rows)
}

//! The ledger of marks.

ghost use Rattle.std.specs.Prelude.{◌≡◌, ◌^◌};

use std::marker::Brand;
use std::sync::ledger::Ledger;

/// The number of parts of each of a desk's three ledgers.
pub const ALL_PARTS: u64 = 1 << 40;

/// States that the constant has the value of the specification, which the definitions import.
pub fn limits_are()
    ensures parts { ALL_PARTS ≡ 2 ^ 40 }
{}

/// A ledger of marks, which also says whether the recorder of its desk never fails.
pub trait Marks: Ledger {
    /// The desk's recorder never fails.
    ghost steady: { Type 0 };
}

impl Marks for Brand {
    ghost steady = { Unit {0} };
}

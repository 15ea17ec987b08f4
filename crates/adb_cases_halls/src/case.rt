//! The cases, each of which is tried by itself.

use crate::{locked_hall, many_waiters, one_desk, waiting};
use std::alloc::{AllocError, Global};
use std::sync::Wait;
use std::thread::Threads;
use std::time::Clock;

#[derive(Clone, Copy, Debug, Drop)]
pub enum Case {
    BellsAreRung,
    AClientIsServedByTwoThreads,
    EveryWaitEnds,
    AHaltEndsManyWaits,
    ADeskAnswersKeepsAndCounts,
}

pub const CASES: &[Case] = &[
    Case::BellsAreRung,
    Case::AClientIsServedByTwoThreads,
    Case::EveryWaitEnds,
    Case::AHaltEndsManyWaits,
    Case::ADeskAnswersKeepsAndCounts,
];

/// Returns the index of the row that does not hold, for a case with one row.
fn fault_of(holds: bool) -> Option<usize> {
    if holds { None } else { Some(0) }
}

impl Case {
    /// Returns the index, from 0, of the first of its rows that does not hold, or `None` if all
    /// hold.
    pub fn first_fault<W: Threads + Wait + Clock + Copy + Send + Sync + Drop + 'static>(
        self,
        rt: W,
        alloc: Global,
    ) -> Result<Option<usize>, AllocError> {
        Ok(match self {
            Case::BellsAreRung => locked_hall::first_wrong_wake(alloc)?,
            Case::AClientIsServedByTwoThreads => {
                fault_of(locked_hall::serves_by_brand(rt, alloc)?)
            }
            Case::EveryWaitEnds => waiting::first_stuck(rt, alloc)?,
            Case::AHaltEndsManyWaits => fault_of(many_waiters::holds_by_brand(rt, alloc)?),
            Case::ADeskAnswersKeepsAndCounts => one_desk::first_fault(alloc)?,
        })
    }
}

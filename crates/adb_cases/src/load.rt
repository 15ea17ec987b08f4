//! Checksums of whole loads.

ghost use Rattle.adb_capture.specs.Records.{HasRecord};

use adb_capture::{Entry, append_entry};
use adb_load::Load;
use adb_outside::ByteQueue;
use adb_wire::byte_sum;
use std::alloc::{AllocError, Global};

/// The tally of a load: the number of entries, the number of bytes of their records, and the sum of
/// the byte sums of the records, each multiplied by its position, counted from 1.
#[derive(Clone, Copy, PartialEq, Eq, Drop)]
struct Tally {
    entries: u64,
    size: u64,
    weight: u64,
}

impl Tally {
    fn add(&mut self, record: &[u8]) {
        self.entries = self.entries.wrapping_add(1);
        self.size = self.size.wrapping_add(record.len() as u64);
        let weight = self.entries.wrapping_mul(u64::from(byte_sum(record)));
        self.weight = self.weight.wrapping_add(weight);
    }
}

/// Adds the record of an entry, and drops the entry.
fn add_record(alloc: Global, entry: Entry, tally: &mut Tally) -> Result<(), AllocError>
    requires { HasRecord entry }
{
    let mut record = ByteQueue::new(alloc);
    append_entry(&mut record, &entry)?;
    tally.add(record.as_slice());
    Ok(())
}

/// Adds the next entry, if one is left.
fn add_next(alloc: Global, load: &mut Load, tally: &mut Tally) -> Result<(), AllocError> {
    match load.next()? {
        Some(entry) => add_record(alloc, entry, tally),
        None => Ok(()),
    }
}

fn weigh(alloc: Global, load: &mut Load) -> Result<Tally, AllocError> {
    let mut tally = Tally {
        entries: 0,
        size: 0,
        weight: 0,
    };
    for _ in 0..1000 {
        add_next(alloc, load, &mut tally)?;
    }
    Ok(tally)
}

fn tally_of(alloc: Global, streams: u16) -> Result<Tally, AllocError> {
    let mut load = Load::new(alloc, 7, u32::from(streams))?;
    weigh(alloc, &mut load)
}

/// The number of streams of a load, and its tally, which comes from `examples/count_load 7 1 3 20
/// 40`. That program is independent of this one.
const TALLIES: &[(u16, Tally)] = &[
    (
        1,
        Tally {
            entries: 35,
            size: 19_012,
            weight: 61_019_174,
        },
    ),
    (
        3,
        Tally {
            entries: 81,
            size: 56_294,
            weight: 337_094_022,
        },
    ),
    (
        20,
        Tally {
            entries: 475,
            size: 382_795,
            weight: 11_711_932_534,
        },
    ),
    (
        40,
        Tally {
            entries: 953,
            size: 789_532,
            weight: 47_855_654_171,
        },
    ),
];

pub fn loads_of_a_seed(alloc: Global) -> Result<Option<usize>, AllocError> {
    for (at, row) in TALLIES.iter().enumerate() {
        if tally_of(alloc, row.0)? != row.1 {
            return Ok(Some(at));
        }
    }
    Ok(None)
}

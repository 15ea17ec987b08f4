//! The input that a tool reads before it dials.

use adb_asking::{InputError, MAX_INPUT, read_input};
use adb_outside::{MemorySource, Text};
use std::alloc::{AllocError, Global};

/// The number of bytes of the source, the number of the read that fails, 0 for none, and the
/// result.
const INPUTS: &[(usize, u64, Result<usize, InputError>)] = &[
    (0, 0, Ok(0)),
    (100_000, 0, Ok(100_000)),
    (100_000, 2, Err(InputError::ReadFault)),
    (MAX_INPUT, 0, Ok(MAX_INPUT)),
    (MAX_INPUT + 1, 0, Err(InputError::TooLarge)),
];

/// Returns how many bytes are read from a source.
fn read(alloc: Global, source: &mut MemorySource) -> Result<usize, InputError> {
    match read_input(alloc, source) {
        Ok(text) => Ok(text.len()),
        Err(error) => Err(error),
    }
}

/// Returns whether the result is as expected for a source of `size` bytes, if its read number
/// `failing` fails.
fn holds(
    alloc: Global,
    size: usize,
    failing: u64,
    want: Result<usize, InputError>,
) -> Result<bool, AllocError> {
    let failing = Vec::from_slice(alloc, &[failing])?;
    let bytes = Text::from_vec(vec![in alloc; 7; size]?);
    let mut source = MemorySource::new(bytes, 1_000_000, failing);
    Ok(read(alloc, &mut source) == want)
}

/// Returns the index of the first row that does not hold.
pub fn first_fault(alloc: Global) -> Result<Option<usize>, AllocError> {
    for (at, &(size, failing, want)) in INPUTS.iter().enumerate() {
        if !holds(alloc, size, failing, want)? {
            return Ok(Some(at));
        }
    }
    Ok(None)
}

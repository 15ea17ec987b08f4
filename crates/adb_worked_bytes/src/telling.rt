//! The lines of a played case.

use adb_outside::Text;
use itoa::Buffer;
use std::alloc::{AllocError, Global};
use std::fmt::Debug;

/// Appends a line end, and then a value.
pub fn tell_value<V: Debug + Copy>(
    alloc: Global,
    told: &mut Text,
    value: V,
) -> Result<(), AllocError> {
    let line = format!(in alloc; "\n{value:?}")?;
    told.push_slice(line.as_bytes())
}

/// Appends a word, and then a number.
pub fn tell_number(told: &mut Text, word: &[u8], number: u64) -> Result<(), AllocError> {
    let mut digits = Buffer::new();
    told.push_slice(word)?;
    told.push_slice(digits.format(number).as_bytes())
}

/// Appends a word, and then bytes in quotes.
pub fn tell_bytes(told: &mut Text, word: &[u8], bytes: &[u8]) -> Result<(), AllocError> {
    told.push_slice(word)?;
    told.push_slice(b"\"")?;
    told.push_slice(bytes)?;
    told.push_slice(b"\"")
}

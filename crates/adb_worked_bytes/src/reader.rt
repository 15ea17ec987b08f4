//! Readers of streams that come in pieces.

use crate::telling::tell_value;
use adb_outside::Text;
use std::alloc::{AllocError, Global};
use std::fmt::Debug;

/// A reader of the messages of a stream.
pub trait Reader: Drop {
    type Error: Debug + Copy;

    /// Takes the next piece of the stream.
    fn take(&mut self, piece: &[u8]) -> Result<(), Self::Error>;

    /// Appends the next message that came, or nothing.
    fn tell_next(&mut self, alloc: Global, told: &mut Text) -> Result<(), AllocError>;
}

/// Feeds a reader a stream in pieces of at most `size` bytes. Appends the messages that come, one a
/// line, and then the result of the last piece.
pub fn read<R: Reader>(
    alloc: Global,
    reader: R,
    stream: &[u8],
    size: usize,
    told: &mut Text,
) -> Result<(), AllocError> {
    let mut reader = reader;
    read_with(alloc, &mut reader, stream, size, told)
}

fn read_with<R: Reader>(
    alloc: Global,
    reader: &mut R,
    stream: &[u8],
    size: usize,
    told: &mut Text,
) -> Result<(), AllocError> {
    let mut answer = Ok(());
    for piece in stream.chunks(size.max(1)) {
        answer = reader.take(piece);
        tell_all(alloc, reader, told)?;
    }
    tell_value(alloc, told, answer)
}

/// Appends the messages that came.
fn tell_all<R: Reader>(alloc: Global, reader: &mut R, told: &mut Text) -> Result<(), AllocError> {
    for _ in 0..u64::MAX {
        let before = told.len();
        reader.tell_next(alloc, told)?;
        if told.len() == before {
            break;
        }
    }
    Ok(())
}

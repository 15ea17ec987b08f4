//! Cases of packets whose contents are not parsed.

use crate::telling::tell_bytes;
use adb_outside::Text;
use adb_wire::Slicer;
use std::alloc::{AllocError, Global};

/// Appends the slices of a stream that comes in pieces, and the bytes that are held at its end.
pub fn read(alloc: Global, stream: &[u8], size: usize, told: &mut Text) -> Result<(), AllocError> {
    let mut slicer = Slicer::new(alloc)?;
    tell(&mut slicer, stream, size, told)
}

fn tell(
    slicer: &mut Slicer,
    stream: &[u8],
    size: usize,
    told: &mut Text,
) -> Result<(), AllocError> {
    let mut rest = stream;
    for _ in stream {
        let taken = slicer.take(&rest[..size.min(rest.len())]);
        rest = &rest[taken..];
        tell_whole(slicer, told)?;
    }
    tell_bytes(told, b"\nheld ", slicer.held())
}

fn tell_whole(slicer: &mut Slicer, told: &mut Text) -> Result<(), AllocError> {
    if let Some(slice) = slicer.whole() {
        tell_bytes(told, b"\n", slice)?;
        slicer.clear();
    }
    Ok(())
}

//! The number of due bytes of a link that are sent at once.

ghost use Rattle.std.specs.Prelude.{◌≡◌};

use adb_link::Link;
use adb_outside::{MIN_SHARED, SplitBytes};
use adb_wire::{Command, HEADER_LEN, Head};
use bytes::Bytes;
use std::alloc::{AllocError, Global};

/// The payload of the shortest packet that is not copied.
const LARGE: &[u8] = &[0; MIN_SHARED - HEADER_LEN];

/// The maximum number of bytes that are sent at once.
const MOST: usize = 10_000;

/// Returns the header of a write.
fn head(length: u32) -> Head
    ensures { result.length ≡ length }
{
    Head {
        command: Command::Wrte,
        arg0: 7,
        arg1: 1,
        length,
        check: 0,
    }
}

/// Queues a short write and two large ones.
fn owe_large(link: &mut Link) -> Result<(), AllocError> {
    link.owe_slice(&head(3), Bytes::from_static(b"hi\n"))?;
    link.owe_slice(&head(LARGE.len() as u32), Bytes::from_static(LARGE))?;
    link.owe_slice(&head(LARGE.len() as u32), Bytes::from_static(LARGE))
}

/// Returns whether `at_once` bytes are to be sent at once. Hands `handed` of them out.
fn goes_out(link: &mut Link, at_once: usize, handed: usize) -> bool {
    let so = link.front_len(MOST) == at_once;
    link.hand(handed.min(link.owed()));
    so
}

/// Returns whether a packet is sent by itself while it is large, and its rest together with others.
fn is_alone(link: &mut Link) -> Result<bool, AllocError> {
    owe_large(link)?;
    Ok(
        goes_out(link, HEADER_LEN + 3, HEADER_LEN + 3)
            && goes_out(link, MIN_SHARED, MIN_SHARED)
            && goes_out(link, MIN_SHARED, 1)
            && goes_out(link, MOST, 0),
    )
}

/// A slice that is not copied.
const SLICE: &[u8] = &[0; MIN_SHARED];

/// Queues a write with a payload in two large slices.
fn owe_split(link: &mut Link) -> Result<(), AllocError> {
    link.reserve(1)?;
    let payload = SplitBytes::new(Bytes::from_static(SLICE), Bytes::from_static(SLICE));
    link.owe_slice_spare(&head(2 * SLICE.len() as u32), payload);
    Ok(())
}

/// Returns whether each of the two slices is sent by itself, the first with the header.
fn is_split(link: &mut Link) -> Result<bool, AllocError> {
    owe_split(link)?;
    let first = HEADER_LEN + MIN_SHARED;
    Ok(goes_out(link, first, first) && goes_out(link, MIN_SHARED, MIN_SHARED) && link.owed() == 0)
}

pub fn a_split_payload_goes_out_by_slices(alloc: Global) -> Result<bool, AllocError> {
    let mut link = Link::new(alloc);
    is_split(&mut link)
}

pub fn a_large_packet_goes_out_alone(alloc: Global) -> Result<bool, AllocError> {
    let mut link = Link::new(alloc);
    is_alone(&mut link)
}

//! Results of the frame parser against values that were worked out by hand.

use adb_outside::{Format, Front};
use adb_remote_frames::{Awaited, Place};

/// The expected results for bytes at offset 8.
const FRONTS: &[(Awaited, &[u8], Front<u64>)] = &[
    (Awaited::Status, b"", Front::More),
    (Awaited::Status, b"OKA", Front::More),
    (Awaited::Status, b"OKX", Front::Bad(10)),
    (Awaited::Status, b"FAIL0002n", Front::More),
    (Awaited::Status, b"FAIL0002no?", Front::Whole(10)),
    (Awaited::Status, b"FAIL000A", Front::Bad(15)),
    (Awaited::List, b"000", Front::More),
    (Awaited::List, b"0000", Front::Whole(4)),
    (Awaited::List, b"00g0", Front::Bad(10)),
    (Awaited::List, b"0001a", Front::Whole(5)),
    (Awaited::Packet, b"\x00", Front::Bad(8)),
    (Awaited::Packet, b"\x01\x03\0\0\0hi\n", Front::Whole(8)),
    (Awaited::Packet, b"\x02\x01\0\x10", Front::Bad(11)),
    (Awaited::Packet, b"\x02\0\0\x10", Front::More),
    (Awaited::Packet, b"\x03\x02", Front::Bad(9)),
    (Awaited::Packet, b"\x03\x01\0\0\0\x07", Front::Whole(6)),
];

/// Returns the index of the first row that does not hold.
pub fn first_fault() -> Option<usize> {
    for (at, &(awaited, bytes, want)) in FRONTS.iter().enumerate() {
        let place = Place { awaited, offset: 8 };
        if place.front(bytes) != want {
            return Some(at);
        }
    }
    None
}

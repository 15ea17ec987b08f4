//! Forwards that a full table refuses. No server puts them, so no history contains them.

use adb_forward::{ForwardError, Forwards};
use std::alloc::Global;

/// A port, the target of its row, whether the port must be free, and the result.
type Put = (u16, &'static [u8], bool, Result<(), ForwardError>);

/// The forwards that are put in this order, in a table that has rows for ports 1 to 64.
const PUTS: &[Put] = &[
    (0, b"tcp:80", false, Err(ForwardError::BadSpec)),
    (1, b"", false, Err(ForwardError::BadSpec)),
    (1, b"tcp: 80", false, Err(ForwardError::BadSpec)),
    (1, b"tcp:\x7f", false, Err(ForwardError::BadSpec)),
    (1, b"tcp:\x80", false, Err(ForwardError::BadSpec)),
    (1, &[b'r'; 513], false, Err(ForwardError::BadSpec)),
    (65, b"", true, Err(ForwardError::BadSpec)),
    (64, b"tcp:81", true, Err(ForwardError::Exists)),
    (65, b"tcp:81", true, Err(ForwardError::Full)),
    (65, b"tcp:81", false, Err(ForwardError::Full)),
    (64, &[b'r'; 512], false, Ok(())),
];

/// Returns whether the table takes the maximum number of rows.
fn is_filled(forwards: &mut Forwards) -> bool {
    for local in 1..65 {
        if forwards.put(local, 1, b"emu1", b"tcp:80", true) != Ok(()) {
            return false;
        }
    }
    true
}

/// Returns whether the full table answers each of the rows as expected.
fn are_refused(forwards: &mut Forwards) -> bool {
    for put in PUTS {
        if forwards.put(put.0, 2, &[b'r'; 64], put.1, put.2) != put.3 {
            return false;
        }
    }
    true
}

pub fn forwards_are_refused(alloc: Global) -> bool {
    let mut forwards = Forwards::new(alloc);
    is_filled(&mut forwards) && are_refused(&mut forwards)
}

//! Properties that are stated as functions.

use adb_capture::{limits_are, read_is_spelled, records_are_framed, spelled_is_read};
use adb_reply::{replies_begin_right, texts_carry_their_length};

/// Applies the functions that state the properties of replies and of records. Any caller may do so.
pub fn are_laws() {
    replies_begin_right();
    texts_carry_their_length();
    limits_are();
    records_are_framed();
    spelled_is_read();
    read_is_spelled();
}

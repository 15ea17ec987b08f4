//! Recorders that write the entries that they keep.

ghost use Rattle.adb_capture.specs.Records.{HasRecord};

use adb_capture::{Entry, Owner};
use adb_outside::MemorySink;
use adb_recorder::{RecordError, Recorder, SinkRecorder};
use std::alloc::{AllocError, Global};

/// Keeps an entry, and drops it.
fn keep(recorder: &mut SinkRecorder<MemorySink>, entry: Entry) -> Result<(), RecordError>
    requires { HasRecord entry }
{
    recorder.keep(&entry)
}

/// Returns whether an entry, a piece of a client and one of a device are written after the magic.
pub fn all_is_recorded(alloc: Global) -> bool {
    let mut recorder = SinkRecorder::new(MemorySink::new(alloc, Vec::new(alloc)));
    records_all(&mut recorder)
}

fn records_all(recorder: &mut SinkRecorder<MemorySink>) -> bool {
    keep(recorder, Entry::Join { client: 1 }).is_ok()
        && recorder.keep_piece(Owner::Client(1), b"ab").is_ok()
        && recorder.keep_piece(Owner::Link(2), b"c").is_ok()
        && recorder.sink().bytes() == RECORDED
}

const RECORDED: &[u8] = b"ADBHUB1\nJ\x01\0\0\0\0\0\0\0\
    R\x01\0\0\0\x02\0\0\0abV\x02\0\0\0\x01\0\0\0c";

/// Returns whether a recorder keeps no other entry after its fifth write has failed, within a
/// record.
pub fn nothing_follows_a_torn_record(alloc: Global) -> Result<bool, AllocError> {
    let failing = Vec::from_slice(alloc, &[5])?;
    let mut recorder = SinkRecorder::new(MemorySink::new(alloc, failing));
    Ok(is_torn(&mut recorder))
}

fn is_torn(recorder: &mut SinkRecorder<MemorySink>) -> bool {
    recorder.keep_piece(Owner::Client(1), b"ab").is_ok()
        && recorder.keep_piece(Owner::Link(2), b"c") == Err(RecordError::Failed)
        && keep(recorder, Entry::Join { client: 1 }) == Err(RecordError::Failed)
        && recorder.sink().bytes() == TORN
}

const TORN: &[u8] = b"ADBHUB1\nR\x01\0\0\0\x02\0\0\0abV\x02\0\0\0\x01\0\0\0";

//! Functions that keep the entries that own bytes.

ghost use Rattle.std.specs.Prelude.{◌≡◌, ◌≢◌, Err};
ghost use Rattle.adb_capture.specs.declared.entry.Entry.{Entry};
ghost use Rattle.adb_capture.specs.Records.{HasRecord};
ghost use Rattle.adb_server_log.specs.declared.error.DeskError.{DeskError};
ghost use Rattle.adb_server_log.specs.Log.{Keeps, KeepsHanded, HasKept, HasKeptHanded, shut_with};
ghost use Rattle.adb_server_log.specs.Entries.{IsHandOut, bytes_of};

use crate::error::DeskError;
use crate::log::Log;
use crate::marks::Marks;
use adb_capture::Entry;
use adb_hub::Handed;
use adb_outside::{HandOut, Kind, Text};
use adb_recorder::Recorder;
use std::sync::ledger::Ledger;

/// Keeps the entry of a device that was plugged in. `copy` is a copy of its serial. The errors are
/// those of `Log::keep`.
pub fn keep_attach<R: Recorder, E: Ledger, M: Ledger, K: Marks>(
    log: &mut Log<R, E, M, K>,
    link: u32,
    kind: Kind,
    serial: &[u8],
    copy: Text,
) -> Result<(), DeskError>
    requires going { shut_with log.old.is ≡ None }
    requires copy { copy ≡ serial.now }
    requires form { HasRecord (Entry.Attach link kind serial.now) }
    ensures keeps { Keeps log.old.is (Entry.Attach link kind serial.now) result log.new.is }
    ensures kept { HasKept R.stands log.old.recorder (Entry.Attach link kind serial.now) result
        log.new.recorder }
    ensures steady { K.steady → result ≢ Err DeskError.RecordFault }
{
    let entry = Entry::Attach {
        link,
        kind,
        serial: copy,
    };
    log.keep(&entry, 0)
}

/// Keeps the entry of bytes that were handed out to a client, and returns the bytes. The errors are
/// those of `Log::keep`.
pub fn keep_put<R: Recorder, E: Ledger, M: Ledger, K: Marks>(
    log: &mut Log<R, E, M, K>,
    client: u32,
    bytes: HandOut,
) -> Result<Handed, DeskError>
    requires going { shut_with log.old.is ≡ None }
    requires form { HasRecord (Entry.Put client bytes) }
    ensures keeps { KeepsHanded log.old.is (Entry.Put client) bytes result log.new.is }
    ensures kept { HasKeptHanded R.stands log.old.recorder (Entry.Put client bytes) result
        log.new.recorder }
    ensures steady { K.steady → result ≢ Err DeskError.RecordFault }
{
    let n = bytes.len();
    let entry = Entry::Put { client, bytes };
    match log.keep(&entry, n) {
        Err(error) => Err(error),
        Ok(()) => Ok(Handed::Bytes(handed_bytes(entry))),
    }
}

/// Keeps the entry of bytes that were handed out on a link, and returns the bytes. The errors are
/// those of `Log::keep`.
pub fn keep_sent<R: Recorder, E: Ledger, M: Ledger, K: Marks>(
    log: &mut Log<R, E, M, K>,
    link: u32,
    bytes: HandOut,
) -> Result<Handed, DeskError>
    requires going { shut_with log.old.is ≡ None }
    requires form { HasRecord (Entry.Send link bytes) }
    ensures keeps { KeepsHanded log.old.is (Entry.Send link) bytes result log.new.is }
    ensures kept { HasKeptHanded R.stands log.old.recorder (Entry.Send link bytes) result
        log.new.recorder }
    ensures steady { K.steady → result ≢ Err DeskError.RecordFault }
{
    let n = bytes.len();
    let entry = Entry::Send { link, bytes };
    match log.keep(&entry, n) {
        Err(error) => Err(error),
        Ok(()) => Ok(Handed::Bytes(handed_bytes(entry))),
    }
}

/// Returns the bytes of an entry that hands bytes out.
fn handed_bytes(entry: Entry) -> HandOut
    requires { IsHandOut entry }
    ensures { result ≡ bytes_of entry }
{
    match entry {
        Entry::Put { bytes, .. } | Entry::Send { bytes, .. } => bytes,
        _ => unreachable!(),
    }
}

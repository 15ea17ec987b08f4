//! Reading on until the wanted bytes are held.

ghost use Rattle.std.specs.Prelude.{◌≤◌, ◌<◌, ◌+◌, length, Ok, Err, IfOk, IfSome, OnOk};
ghost use Rattle.adb_outside.specs.Outside.{Counts};
ghost use Rattle.adb_capture_reader.specs.Counting.{KeepsBytes, is_fault};
ghost use Rattle.adb_capture.specs.declared.limits.TheConstants.{MAX_CAPTURE, MAX_READ};
ghost use Rattle.adb_capture_reader.specs.Reading.{HoldsFew, HoldsLittle};
ghost use Rattle.adb_capture_reader.specs.Awaiting.{AwaitsMagic, AwaitsRecord};

use crate::held::Held;
use crate::record::front;
use adb_capture::{CaptureError, MAGIC};
use adb_outside::{Front, Got, Source};
use std::alloc::AllocError;

/// Reads until the bytes begin with the magic, and removes it.
pub(crate) fn take_magic<S: Source>(held: &mut Held, source: &mut S) -> Result<(), CaptureError>
    requires { HoldsFew held.old }
    ensures is { AwaitsMagic held.old (S.left source.old) held.new (S.left source.new) result }
    ensures few { HoldsFew held.new }
    ensures little { HoldsLittle held.old → OnOk result (HoldsLittle held.new) }
    ensures counts { Counts S.steady S.faults source.old source.new (is_fault result) }
{
    while held.as_slice().len() < MAGIC.len() {
        match held.fill(source) {
            Ok(Got::Bytes(_)) => {}
            Ok(Got::End) => return Err(CaptureError::BadMagic),
            Ok(Got::Failed) => return Err(CaptureError::ReadFault),
            Err(AllocError) => return Err(CaptureError::OutOfMemory),
        }
    }
    if !held.as_slice().starts_with(&MAGIC) {
        return Err(CaptureError::BadMagic);
    }
    held.skip(MAGIC.len());
    Ok(())
}

/// Reads until the bytes at an offset begin with a record, which stays there, or with a fault.
/// Returns `None` if the source ends before any byte.
pub(crate) fn await_record<S: Source>(
    held: &mut Held,
    offset: u64,
    source: &mut S,
) -> Result<Option<usize>, CaptureError>
    requires near { offset ≤ MAX_CAPTURE }
    requires few { HoldsFew held.old }
    ensures few { HoldsFew held.new }
    ensures little { HoldsLittle held.old
        → IfOk result (λ found. IfSome found (λ size. length held.new < size + MAX_READ)) }
    ensures bytes { KeepsBytes held.old (S.left source.old) held.new (S.left source.new) }
    ensures is { AwaitsRecord offset held.old (S.left source.old) held.new result }
    ensures counts { Counts S.steady S.faults source.old source.new (is_fault result) }
{
    let mut found = front(offset, held.as_slice());
    while let Front::More = found {
        match held.fill(source) {
            Ok(Got::Bytes(_)) => {}
            Ok(Got::End) if held.as_slice().is_empty() => return Ok(None),
            Ok(Got::End) => return Err(CaptureError::Truncated { offset }),
            Ok(Got::Failed) => return Err(CaptureError::ReadFault),
            Err(AllocError) => return Err(CaptureError::OutOfMemory),
        }
        found = front(offset, held.as_slice());
    }
    match found {
        Front::Bad(fault) => Err(CaptureError::from(fault)),
        Front::Whole(size) => Ok(Some(size)),
        Front::More => unreachable!(),
    }
}

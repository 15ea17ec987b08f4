//! Reading captures.

ghost use Rattle.std.specs.Prelude.{◌≡◌, ◌≢◌, ◌≤◌, ◌++◌, ◌+◌, ℕ, List, [], take, Some, None, Ok, Err, IfOk, IfSome, OnOk, OnErr, IsTrue, true, false, option_map};
ghost use Rattle.adb_outside.specs.Outside.{Counts};
ghost use Rattle.adb_outside.specs.declared.framer.Front.TheVariants.{More, Whole};
ghost use Rattle.adb_capture_reader.specs.Counting.{KeepsBytes, is_fault};
ghost use Rattle.adb_capture.specs.Records.{record_at, entry_in, HasRecord};
ghost use Rattle.adb_capture_reader.specs.Reading.{Opens, AnswersNext, AwaitsNext, GivesNext, Moves, StaysAhead};
ghost use Rattle.adb_capture_reader.specs.Reading.{HoldsFew, HoldsLittle, taken_by, passed, passed_by, given_by};

use crate::awaiting::{await_record, take_magic};
use crate::held::Held;
use crate::record::{Record, fronts_have_form};
use adb_capture::{CaptureError, Entry};
use adb_outside::Source;
use std::alloc::{AllocError, Global};
use std::marker::Model;

/// A reader of the entries of a capture. It holds the bytes of one record and those that one read
/// brought past it, never the whole capture.
#[derive(Drop)]
pub struct CaptureReader {
    alloc: Global,
    opened: bool,
    offset: u64,
    held: Held,
    failed: Option<CaptureError>,
}

impl Model for CaptureReader {
    ghost use Rattle.std.specs.Prelude.{◌≤◌, ◌≢◌, Some};
    ghost use Rattle.adb_capture.specs.declared.error.CaptureError.TheVariants.{OutOfMemory};
    ghost use Rattle.adb_capture.specs.declared.limits.TheConstants.{MAX_CAPTURE};
    ghost use Rattle.adb_capture_reader.specs.Reading.{Reading, HoldsFew};

    ghost Value = { Reading };

    ghost view = { λ r. record {
      opened = r.opened;
      offset = r.offset;
      held = r.held;
      failed = r.failed;
    } };

    ghost invariant = { λ r. record {
      near : r.offset ≤ MAX_CAPTURE;
      few : HoldsFew r.held;
      stays : r.failed ≢ Some OutOfMemory;
    } };
}

impl CaptureReader {
    /// Returns a reader that has read nothing. Fails if the allocation of its buffers fails.
    pub fn new(alloc: Global) -> Result<CaptureReader, AllocError>
        ensures { IfOk result (λ r. r ≡ record {
          opened = false;
          offset = 8;
          held = [];
          failed = None;
        }) }
    {
        Ok(CaptureReader {
            alloc,
            opened: false,
            offset: 8,
            held: Held::new(alloc)?,
            failed: None,
        })
    }

    /// Reads the magic if it was not read yet; `next` does so too. Its errors persist as those of
    /// `next` do.
    pub fn open<S: Source>(&mut self, source: &mut S) -> Result<(), CaptureError>
        ensures ahead { self.old.failed ≡ None
            → Opens self.old (S.left source.old) self.new (S.left source.new) result }
        ensures offset { self.new.offset ≡ self.old.offset }
        ensures few { HoldsFew self.new.held }
        ensures little { HoldsLittle self.old.held → OnOk result (HoldsLittle self.new.held) }
        ensures ok { OnOk result
            ((self.old.failed ≡ None) × (self.new.failed ≡ None) × (self.new.opened ≡ true)) }
        ensures counts { self.old.failed ≡ None
            → Counts S.steady S.faults source.old source.new (is_fault result) }
        ensures stays { (e : CaptureError) → self.old.failed ≡ Some e
            → (result ≡ Err e) × (self.new ≡ self.old) × (source.new ≡ source.old) }
        ensures keeps { (e : CaptureError) → e ≢ CaptureError.OutOfMemory
            → result ≡ Err e → self.new.failed ≡ Some e }
    {
        if let Some(error) = self.failed {
            return Err(error);
        }
        let opened = self.open_now(source);
        if let Err(error) = &opened {
            self.remember(*error);
        }
        opened
    }

    /// Reads until the next record is held whole, after the magic if it was not read yet. Returns
    /// the record's length in bytes, or `None` if the source ends between two records. The record
    /// stays the next one until it is passed. The errors are those of `next`, and persist as those
    /// do.
    pub fn await_next<S: Source>(&mut self, source: &mut S) -> Result<Option<usize>, CaptureError>
        ensures answers { self.old.failed ≡ None
            → AwaitsNext self.old (S.left source.old) self.new (S.left source.new) result }
        ensures whole { IfOk result (λ found. IfSome found (λ size.
            record_at self.new.offset self.new.held ≡ Whole size)) }

        // Nothing is returned yet.
        ensures ahead { self.old.failed ≡ None → OnOk result ((self.new.offset ≡ self.old.offset)
            × StaysAhead self.old (S.left source.old) self.new (S.left source.new)) }
        ensures few { HoldsFew self.new.held }
        ensures little { HoldsLittle self.old.held
            → OnOk result (HoldsLittle (passed_by result self.new).held) }
        ensures ok { OnOk result
            ((self.old.failed ≡ None) × (self.new.failed ≡ None) × IsTrue self.new.opened) }

        // The count of faults rises at ReadFault and is unchanged at every other answer.
        ensures counts { self.old.failed ≡ None
            → Counts S.steady S.faults source.old source.new (is_fault result) }

        // An error is returned again and nothing is read, except that an allocation failure is not
        // kept.
        ensures stays { (e : CaptureError) → self.old.failed ≡ Some e
            → (result ≡ Err e) × (self.new ≡ self.old) × (source.new ≡ source.old) }
        ensures keeps { (e : CaptureError) → e ≢ CaptureError.OutOfMemory
            → result ≡ Err e → self.new.failed ≡ Some e }
        ensures memory { result ≡ Err CaptureError.OutOfMemory
            → (self.old.failed ≡ None) × (self.new.failed ≡ None) }
    {
        if let Some(error) = self.failed {
            return Err(error);
        }
        match self.advance(source) {
            Ok(found) => Ok(found),
            Err(error) => {
                self.remember(error);
                Err(error)
            }
        }
    }

    /// Returns the next record, which is held whole and has this many bytes.
    pub fn first(&self, size: usize) -> Record<'_>
        requires { record_at self.now.offset self.now.held ≡ Whole size }
        ensures { result ≡ entry_in self.now.offset (take size self.now.held) }
    {
        Record::new(self.offset, &self.held.as_slice()[..size])
    }

    /// Passes the next record, which is held whole and has this many bytes.
    pub fn pass(&mut self, size: usize)
        requires { record_at self.old.offset self.old.held ≡ Whole size }
        ensures { self.new ≡ passed size self.old }
    {
        self.held.skip(size);
        self.offset += size as u64;
    }

    /// Returns the next entry with the offset of its record's first byte, or `None` if the source
    /// ends between two records; a later call reads the source again. The first call reads the
    /// magic.
    ///
    /// Every error but `OutOfMemory` persists: each later call returns it and reads nothing. After
    /// `OutOfMemory` the next call returns the same record. After `ReadFault` no byte that was read
    /// is lost: the held bytes are a part of the next record, or of the magic.
    pub fn next<S: Source>(&mut self, source: &mut S) -> Result<Option<(u64, Entry)>, CaptureError>
        ensures answers { self.old.failed ≡ None
            → AnswersNext self.old (S.left source.old) self.new (S.left source.new) result }
        ensures few { HoldsFew self.new.held }
        ensures little { HoldsLittle self.old.held → OnOk result (HoldsLittle self.new.held) }
        ensures ok { OnOk result
            ((self.old.failed ≡ None) × (self.new.failed ≡ None) × IsTrue self.new.opened) }

        // The count of faults rises at ReadFault and is unchanged at every other answer.
        ensures counts { self.old.failed ≡ None
            → Counts S.steady S.faults source.old source.new (is_fault result) }

        // An error is returned again and nothing is read, except that an allocation failure is not
        // kept.
        ensures stays { (e : CaptureError) → self.old.failed ≡ Some e
            → (result ≡ Err e) × (self.new ≡ self.old) × (source.new ≡ source.old) }
        ensures keeps { (e : CaptureError) → e ≢ CaptureError.OutOfMemory
            → result ≡ Err e → self.new.failed ≡ Some e }
        ensures memory { result ≡ Err CaptureError.OutOfMemory
            → (self.old.failed ≡ None) × (self.new.failed ≡ None) }
    {
        match self.await_next(source) {
            Err(error) => Err(error),
            Ok(None) => Ok(None),
            Ok(Some(size)) => match self.give(size) {
                Ok(given) => Ok(Some(given)),
                Err(AllocError) => Err(CaptureError::OutOfMemory),
            },
        }
    }

    /// Reads until the next record is held whole, after the magic if it was not read yet.
    fn advance<S: Source>(&mut self, source: &mut S) -> Result<Option<usize>, CaptureError>
        ensures answers { AwaitsNext self.old (S.left source.old)
            self.new (S.left source.new) result }
        ensures whole { IfOk result (λ found. IfSome found (λ size.
            record_at self.new.offset self.new.held ≡ Whole size)) }
        ensures ahead { OnOk result ((self.new.offset ≡ self.old.offset)
            × StaysAhead self.old (S.left source.old) self.new (S.left source.new)) }
        ensures few { HoldsFew self.new.held }
        ensures little { HoldsLittle self.old.held
            → OnOk result (HoldsLittle (passed_by result self.new).held) }
        ensures failed { self.new.failed ≡ self.old.failed }
        ensures ok { OnOk result (self.new.opened ≡ true) }
        ensures counts { Counts S.steady S.faults source.old source.new (is_fault result) }
    {
        match self.open_now(source) {
            Ok(()) => self.find_next(source),
            Err(error) => Err(error),
        }
    }

    /// Removes the magic if it was not removed yet.
    fn open_now<S: Source>(&mut self, source: &mut S) -> Result<(), CaptureError>
        ensures ahead { Opens self.old (S.left source.old) self.new (S.left source.new) result }
        ensures keeps { OnOk result (KeepsBytes (taken_by self.old) (S.left source.old)
            (taken_by self.new) (S.left source.new)) }
        ensures offset { self.new.offset ≡ self.old.offset }
        ensures few { HoldsFew self.new.held }
        ensures little { HoldsLittle self.old.held → OnOk result (HoldsLittle self.new.held) }
        ensures failed { self.new.failed ≡ self.old.failed }
        ensures ok { OnOk result (self.new.opened ≡ true) }
        ensures counts { Counts S.steady S.faults source.old source.new (is_fault result) }
    {
        if !self.opened {
            take_magic(&mut self.held, source)?;
            self.opened = true;
        }
        Ok(())
    }

    /// Reads until the next record is held whole, once the magic was removed.
    fn find_next<S: Source>(&mut self, source: &mut S) -> Result<Option<usize>, CaptureError>
        ensures records { (coming : List ℕ) → S.left source.old ≡ Some coming
            → GivesNext self.old.offset (self.old.held ++ coming) (given_by result self.new)
            (passed_by result self.new).offset
            (option_map (λ rest. (passed_by result self.new).held ++ rest) (S.left source.new)) }
        ensures whole { IfOk result (λ found. IfSome found (λ size.
            record_at self.new.offset self.new.held ≡ Whole size)) }
        ensures bytes { KeepsBytes self.old.held (S.left source.old)
            self.new.held (S.left source.new) }
        ensures fault { result ≡ Err CaptureError.ReadFault
            → record_at self.new.offset self.new.held ≡ More }
        ensures form { IfOk result (λ found. IfSome found (λ size.
            HasRecord (entry_in self.new.offset (take size self.new.held)).1)) }
        ensures moves { IfOk result (λ found. IfSome found (λ size.
            Moves self.old.offset (self.new.offset + size))) }
        ensures few { HoldsFew self.new.held }
        ensures little { HoldsLittle self.old.held
            → OnOk result (HoldsLittle (passed_by result self.new).held) }
        ensures same { (self.new.offset ≡ self.old.offset) × (self.new.opened ≡ self.old.opened)
            × (self.new.failed ≡ self.old.failed) }
        ensures counts { Counts S.steady S.faults source.old source.new (is_fault result) }
    {
        let found = await_record(&mut self.held, self.offset, source);
        fronts_have_form(self.held.as_slice());
        found
    }

    /// Returns the entry of the first record, which has this many bytes, and passes it.
    fn give(&mut self, size: usize) -> Result<(u64, Entry), AllocError>
        requires { record_at self.old.offset self.old.held ≡ Whole size }
        ensures given { IfOk result (λ g. g ≡ entry_in self.old.offset (take size self.old.held)) }
        ensures ok { OnOk result (self.new ≡ passed size self.old) }
        ensures err { OnErr result (self.new ≡ self.old) }
    {
        let offset = self.offset;
        let entry = self.first(size).copy(self.alloc)?;
        self.pass(size);
        Ok((offset, entry))
    }

    /// Keeps an error that persists.
    fn remember(&mut self, error: CaptureError)
        requires { self.old.failed ≡ None }
        ensures memory { error ≡ CaptureError.OutOfMemory → self.new.failed ≡ None }
        ensures other { error ≢ CaptureError.OutOfMemory → self.new.failed ≡ Some error }
        ensures same { self.new ≡ record self.old { failed = self.new.failed } }
    {
        if error != CaptureError::OutOfMemory {
            self.failed = Some(error);
        }
    }
}

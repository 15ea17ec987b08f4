//! The trait of recorders, and the recorder that keeps nothing.

ghost use Rattle.std.specs.Prelude.{◌≡◌, ◌≤◌, None, Ok, length};
ghost use Rattle.adb_outside.specs.Outside.{Counts};
ghost use Rattle.adb_capture.specs.declared.limits.TheConstants.{MAX_DATA};
ghost use Rattle.adb_capture.specs.Records.{HasRecord, came_from};
ghost use Rattle.adb_recorder.specs.Recording.{TellsRecord, is_failed_record};

use adb_capture::{Entry, Owner};
use std::alloc::AllocError;

/// The reason why an entry was not kept. The entries that are kept are those before the call.
#[derive(Clone, Copy, Debug, PartialEq, Eq, Drop)]
pub enum RecordError {
    /// An allocation failed.
    OutOfMemory,
    /// The recorder failed.
    Failed,
}

impl From<AllocError> for RecordError {
    ghost use Rattle.std.specs.Prelude.{◌≡◌};
    ghost use Rattle.adb_recorder.specs.declared.recorder.RecordError.TheVariants.{OutOfMemory};

    ghost from_gives = { λ error e. e ≡ OutOfMemory };

    fn from(_error: AllocError) -> RecordError {
        RecordError::OutOfMemory
    }
}

/// A list of entries to which a running server appends.
///
/// The content that an implementation shows (its memory, the bytes of its sink) is tied to the
/// entries that it has kept by the relation `stands`.
pub trait Recorder: Drop {
    ghost use Rattle.std.specs.Prelude.{◌≤◌, ℕ, List, Option, length};
    ghost use Rattle.adb_outside.specs.Outside.{Counts};
    ghost use Rattle.adb_capture.specs.declared.entry.Entry.{Entry};
    ghost use Rattle.adb_capture.specs.declared.limits.TheConstants.{MAX_DATA};
    ghost use Rattle.adb_capture.specs.Records.{HasRecord, came_from};
    ghost use Rattle.adb_recorder.specs.Recording.{TellsRecord, kept_by, is_failed_record};

    /// The entries that are kept, the oldest first, if the recorder shows them.
    ghost told: { Self → Option (List Entry) };

    /// The recorder has kept exactly these entries, the oldest first.
    ghost stands: { Self → List Entry → Type 0 };

    /// The number of calls that failed. A count at its largest value counts as having risen.
    ghost faults: { Self → ℕ };

    /// No call fails.
    ghost steady: { Self → Type 0 };

    /// Appends an entry, which has at most 2,097,152 bytes of data.
    ///
    /// `OutOfMemory`: an allocation failed; the entry is not kept.
    /// `Failed`: the entry is not kept, and the count of faults rises. No other answer changes the
    /// count.
    fn keep(&mut self, entry: &Entry) -> Result<(), RecordError>
        requires { HasRecord entry.now }
        ensures told { TellsRecord (told self.old) (told self.new) entry.now result }
        ensures stands { (kept : List Entry) → stands self.old kept
            → stands self.new (kept_by kept entry.now result) }
        ensures counts { Counts steady faults self.old self.new (is_failed_record result) };

    /// Appends the entry of a piece that came from a client or a device, as `keep` does. The piece
    /// has at most 2,097,152 bytes.
    fn keep_piece(&mut self, from: Owner, piece: &[u8]) -> Result<(), RecordError>
        requires { length piece.now ≤ MAX_DATA }
        ensures told { TellsRecord (told self.old) (told self.new)
            (came_from from piece.now) result }
        ensures stands { (kept : List Entry) → stands self.old kept
            → stands self.new (kept_by kept (came_from from piece.now) result) }
        ensures counts { Counts steady faults self.old self.new (is_failed_record result) };
}

/// A recorder that discards every entry. It never fails, and shows nothing.
#[derive(Drop)]
pub struct NullRecorder {}

impl NullRecorder {
    /// Returns a recorder.
    pub fn new() -> NullRecorder {
        NullRecorder {}
    }
}

impl Recorder for NullRecorder {
    ghost use Rattle.std.specs.Prelude.{None};

    ghost told = { λ r. None };

    ghost stands = { λ r kept. Unit {0} };

    ghost faults = { λ r. 0 };

    ghost steady = { λ r. Unit {0} };

    /// Does nothing.
    fn keep(&mut self, _entry: &Entry) -> Result<(), RecordError>
        requires { HasRecord _entry.now }
        ensures told { TellsRecord None None _entry.now result }
        ensures counts { Counts (λ r. Unit {0}) (λ r. 0)
            self.old self.new (is_failed_record result) }
        ensures never { result ≡ Ok tt }
    {
        Ok(())
    }

    /// Does nothing.
    fn keep_piece(&mut self, _from: Owner, _piece: &[u8]) -> Result<(), RecordError>
        requires { length _piece.now ≤ MAX_DATA }
        ensures told { TellsRecord None None (came_from _from _piece.now) result }
        ensures counts { Counts (λ r. Unit {0}) (λ r. 0)
            self.old self.new (is_failed_record result) }
        ensures never { result ≡ Ok tt }
    {
        Ok(())
    }
}

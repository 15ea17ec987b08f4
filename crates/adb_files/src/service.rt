//! The service that answers sync requests.

ghost use Rattle.std.specs.Prelude.{◌≡◌, ◌≤◌, ◌++◌, [], List, ℕ, length, take, drop, true, false, Ok, Err, None, ◌≢◌, IfOk, OnOk, OnErr, IsErr};
ghost use Rattle.adb_outside.specs.Framing.{answer_of};
ghost use Rattle.adb_sync.specs.Messages.{error_of};
ghost use Rattle.std.specs.List.{AllByRecursion};
ghost use Rattle.std.specs.Io.{StartsWith};
ghost use Rattle.adb_files.specs.Entries.{Entry};
ghost use Rattle.adb_files.specs.Requests.{requests_in};
ghost use Rattle.adb_files.specs.Service.{StandsFor, Feeds, FeedsFront, ServesFront, HasServed, held, moment_first, moment_behind, HasShortPath, HasShortSend};

use crate::files::Files;
use crate::session::{Session, serve_given};
use adb_sync::{AskReader, SyncError, SyncFault};
use std::alloc::{AllocError, Global};
use std::marker::Model;

/// The file sync service of a device (SYNC.TXT). Contracts see the bytes that its reader of
/// requests holds, the SEND that is open, the answers that were not taken yet, whether it has
/// ended, and whether it is spent by an allocation failure.
#[derive(Drop)]
pub struct SyncService {
    reader: AskReader,
    session: Session,
    spent: bool,
}

impl Model for SyncService {
    ghost use Rattle.std.specs.List.{AllByRecursion};
    ghost use Rattle.adb_files.specs.Service.{Service, held, HasShortPath, HasShortSend};

    ghost Value = { Service };

    ghost view = { λ s. record (held s.reader s.session) { spent = s.spent } };

    ghost invariant = { λ s. AllByRecursion HasShortPath s.reader.given
        × HasShortSend s.session.sending };
}

impl SyncService {
    /// Returns a service that was fed nothing. Allocates nothing.
    pub fn new(alloc: Global) -> SyncService
        ensures stands { StandsFor [] result }
        ensures out { result.out ≡ [] }
        ensures ended { result.ended ≡ false }
        ensures spent { result.spent ≡ false }
        ensures whole { (files : List Entry) → HasServed files [] [] result files }
    {
        SyncService {
            reader: AskReader::new(alloc),
            session: Session::new(alloc),
            spent: false,
        }
    }

    /// Takes the next piece of the stream, of any length. The whole requests that it completes are
    /// served in order over these files, a SEND with its DONE as one: the file changes only at its
    /// DONE, as a whole. A fault is answered by one FAIL and ends the service, as a QUIT does; the
    /// bytes that follow are dropped. As long as no other caller changes the files between the
    /// calls, everything that the service did is given by `served` of all the bytes fed.
    ///
    /// If an allocation fails, a prefix of these requests was served, and all of its answers but
    /// the last are whole. The service is spent: every later call returns the error and changes
    /// nothing. It has ended only if it had before.
    pub fn feed(&mut self, files: &mut Files, piece: &[u8]) -> Result<(), AllocError>
        ensures ok { OnOk result ((self.old.spent ≡ false) × (self.new.spent ≡ false)) }
        ensures served { OnOk result (self.old.ended ≡ false → (fed : List ℕ)
            → StandsFor fed self.old → Feeds fed piece.now self.old self.new files.old files.new) }
        ensures dropped { self.old.spent ≡ false → self.old.ended ≡ true
            → (result ≡ Ok tt) × (self.new ≡ self.old) × (files.new ≡ files.old) }
        ensures err { OnErr result (self.new.spent ≡ true) }
        ensures ended { OnErr result (self.new.ended ≡ self.old.ended) }
        ensures front { OnErr result (self.old.ended ≡ false → (fed : List ℕ)
            → StandsFor fed self.old
            → FeedsFront fed piece.now self.old self.new files.old files.new) }
        ensures whole { OnOk result ((first : List Entry) (fed taken : List ℕ)
            → HasServed first fed taken self.old files.old
            → HasServed first (fed ++ piece.now) taken self.new files.new) }
        ensures whole_front { OnErr result ((first : List Entry) (fed taken : List ℕ)
            → HasServed first fed taken self.old files.old
            → ServesFront (requests_in (fed ++ piece.now))
            (moment_first first) (moment_behind taken files.new self.new)) }
        ensures stays { self.old.spent ≡ true
            → (IsErr result) × (files.new ≡ files.old) × (self.new ≡ self.old) }
    {
        if self.spent {
            return Err(AllocError);
        }
        if self.session.ended {
            return Ok(());
        }
        let result = feed_open(&mut self.reader, &mut self.session, files, piece);
        if result.is_err() {
            self.spent = true;
        }
        result
    }

    /// Returns the first of the answers that were not taken yet, at least one byte if any are left.
    /// The bytes of a file that is pulled are not copied: its chunks, and the header of each, come
    /// one by one as the bytes before are taken.
    pub fn out(&self) -> &[u8]
        ensures front { StartsWith self.now.out result.now }
        ensures some { self.now.out ≢ [] → result.now ≢ [] }
    {
        self.session.out.front()
    }

    /// Removes the first `n` bytes of the answers, which were taken. Needs no memory.
    pub fn taken(&mut self, n: usize)
        requires { n ≤ length self.old.out }
        ensures left { self.new ≡ record self.old { out = drop n self.old.out } }
        ensures whole { (first : List Entry) (fed gone : List ℕ) (files : List Entry)
            → HasServed first fed gone self.old files
            → HasServed first fed (gone ++ take n self.old.out) self.new files }
    {
        self.session.out.taken(n);
    }

    /// Returns whether a QUIT or a fault ended the service.
    pub fn ended(&self) -> bool
        ensures { result ≡ self.now.ended }
    {
        self.session.ended
    }
}

/// Takes a piece of the stream, and serves the requests that it completes.
fn feed_open(
    reader: &mut AskReader,
    session: &mut Session,
    files: &mut Files,
    piece: &[u8],
) -> Result<(), AllocError>
    requires short { AllByRecursion HasShortPath reader.old.given }
    requires kept { HasShortSend session.old.sending }
    requires goes_on { session.old.ended ≡ false }
    ensures ok { OnOk result ((fed : List ℕ)
        → StandsFor fed (held reader.old session.old)
        → Feeds fed piece.now (held reader.old session.old) (held reader.new session.new)
        files.old files.new) }
    ensures err { OnErr result ((fed : List ℕ)
        → StandsFor fed (held reader.old session.old)
        → FeedsFront fed piece.now (held reader.old session.old) (held reader.new session.new)
        files.old files.new) }
    ensures on { OnErr result (session.new.ended ≡ false) }
    ensures short { AllByRecursion HasShortPath reader.new.given }
    ensures kept { HasShortSend session.new.sending }
{
    let fault = told_fault(reader.feed(piece))?;
    serve_given(reader, session, files)?;
    if session.ended {
        return Ok(());
    }
    match fault {
        None => Ok(()),
        Some(fault) => session.take_fault(fault),
    }
}

/// Returns the fault that a reader reported. An allocation failure is passed on as an error.
fn told_fault(answer: Result<(), SyncError>) -> Result<Option<SyncFault>, AllocError>
    ensures ok { IfOk result (λ fault. (answer ≢ Err SyncError.OutOfMemory)
        × (answer ≡ answer_of error_of fault)) }
    ensures err { OnErr result (answer ≡ Err SyncError.OutOfMemory) }
{
    match answer {
        Ok(()) => Ok(None),
        Err(error) => match error.fault() {
            Some(fault) => Ok(Some(fault)),
            None => Err(AllocError),
        },
    }
}

//! Serving whole requests, in order.

ghost use Rattle.std.specs.Prelude.{◌≡◌, ◌≤◌, ◌++◌, ◌⊎◌, [], length, true, false, Option, Some, None, OnOk, OnErr};
ghost use Rattle.std.specs.List.{AllByRecursion};
ghost use Rattle.adb_sync.specs.declared.error.SyncFault.{SyncFault};
ghost use Rattle.adb_files.specs.declared.session.Sending.{Sending};
ghost use Rattle.adb_files.specs.Requests.{OpenSend, Sends, completed, open_past, requests_of};
ghost use Rattle.adb_files.specs.Served.{serve_one, fail_bytes, fault_text};
ghost use Rattle.adb_files.specs.Service.{IsKept, KeepsSend, moment, run, Serves, ServesGiven, ServesFront, HasShortPath, HasShortSend};

use crate::answers::{answer_list, answer_recv, answer_stat, fail, fault_text};
use crate::file::{File, FileError};
use crate::files::{Files, MAX_STORED};
use crate::mode::stored_mode;
use crate::outbox::Outbox;
use crate::path::is_path;
use adb_outside::Text;
use adb_sync::{AskReader, SyncAnswer, SyncAsk, SyncFault};
use std::alloc::{AllocError, Global};

/// An open SEND: its DONE has not come yet.
#[derive(Drop)]
pub struct Sending {
    pub path: Text,
    pub mode: Text,
    /// The bytes of the file, while they are no more than all files may have.
    pub bytes: Text,
    /// The number of bytes that came; it stops at the first number that exceeds the maximum of all
    /// files.
    pub size: usize,
}

impl Sending {
    /// Returns a SEND of which no bytes have come.
    fn new(alloc: Global, path: Text, mode: Text) -> Sending
        ensures kept { IsKept (record { path = path; mode = mode; bytes = [] }) result }
        ensures path { result.path ≡ path }
    {
        Sending {
            path,
            mode,
            bytes: Text::new(alloc),
            size: 0,
        }
    }

    /// Takes the next bytes. Bytes beyond the maximum of all files are not kept.
    fn push(&mut self, chunk: &[u8]) -> Result<(), AllocError>
        ensures kept { OnOk result ((send : OpenSend) → IsKept send self.old
            → IsKept (record send { bytes = send.bytes ++ chunk.now }) self.new) }
        ensures path { self.new.path ≡ self.old.path }
    {
        if chunk.len() > MAX_STORED.saturating_sub(self.size) {
            self.size = MAX_STORED + 1;
            return Ok(());
        }
        self.bytes.push_slice(chunk)?;
        self.size += chunk.len();
        Ok(())
    }
}

/// Serves a whole SEND.
fn serve_send(
    alloc: Global,
    files: &mut Files,
    sending: Sending,
    mtime: u32,
    out: &mut Outbox,
) -> Result<(), AllocError>
    requires { length sending.path ≤ 1024 }
    ensures ok { OnOk result ((send : OpenSend) → IsKept send sending
        → let served = serve_one files.old (Sends send.path send.mode send.bytes mtime)
        in (files.new ≡ served.files) × (out.new ≡ out.old ++ served.answer)) }
    ensures err { OnErr result ((send : OpenSend) → IsKept send sending
        → let served = serve_one files.old (Sends send.path send.mode send.bytes mtime)
        in (files.new ≡ files.old) ⊎ (files.new ≡ served.files)) }
    ensures same { OnErr result (out.new ≡ out.old) }
{
    if !is_path(sending.path.as_slice()) {
        return fail(alloc, FileError::BadPath.text(), out);
    }
    let Some(mode) = stored_mode(sending.mode.as_slice()) else {
        return fail(alloc, b"bad mode", out);
    };
    if let Some(refusal) = files.put_refusal(sending.path.as_slice(), sending.size) {
        return fail(alloc, refusal.text(), out);
    }
    let file = File {
        mode,
        mtime,
        bytes: sending.bytes,
    };
    if files.put(sending.path.as_slice(), file).is_err() {
        return Err(AllocError);
    }
    out.push(&SyncAnswer::Okay)
}

/// The open SEND, the answers, and whether the service has ended.
#[derive(Drop)]
pub struct Session {
    alloc: Global,
    pub sending: Option<Sending>,
    pub out: Outbox,
    pub ended: bool,
}

impl Session {
    /// Returns a session before the first request. Allocates nothing.
    pub fn new(alloc: Global) -> Session
        ensures sending { result.sending ≡ None }
        ensures out { result.out ≡ [] }
        ensures ended { result.ended ≡ false }
    {
        Session {
            alloc,
            sending: None,
            out: Outbox::new(alloc),
            ended: false,
        }
    }

    /// Serves the request that a message completes, if it completes one.
    pub fn take(&mut self, files: &mut Files, ask: SyncAsk) -> Result<(), AllocError>
        requires short { HasShortPath ask }
        requires kept { HasShortSend self.old.sending }
        requires goes_on { self.old.ended ≡ false }
        ensures ok { OnOk result ((send : Option OpenSend) → KeepsSend send self.old.sending
            → Serves (completed send ask) (moment files.old self.old) (moment files.new self.new)
            × KeepsSend (open_past send ask) self.new.sending) }
        ensures err { OnErr result ((send : Option OpenSend) → KeepsSend send self.old.sending
            → ServesFront (completed send ask)
            (moment files.old self.old) (moment files.new self.new)) }
        ensures on { OnErr result (self.new.ended ≡ false) }
        ensures short { HasShortSend self.new.sending }
    {
        let alloc = self.alloc;
        match ask {
            SyncAsk::Stat(path) => answer_stat(files, path.as_slice(), &mut self.out),
            SyncAsk::List(path) => answer_list(files, path.as_slice(), &mut self.out),
            SyncAsk::Recv(path) => answer_recv(alloc, files, path.as_slice(), &mut self.out),
            SyncAsk::Send { path, mode } => {
                self.sending = Some(Sending::new(alloc, path, mode));
                Ok(())
            }
            SyncAsk::Chunk(bytes) => match &mut self.sending {
                Some(sending) => sending.push(bytes.as_slice()),
                None => Ok(()),
            },
            SyncAsk::Finish { mtime } => match self.sending.take() {
                Some(sending) => serve_send(alloc, files, sending, mtime, &mut self.out),
                None => Ok(()),
            },
            SyncAsk::Quit => {
                self.ended = true;
                Ok(())
            }
        }
    }

    /// Serves a fault: appends a FAIL with its text, and ends the session.
    pub fn take_fault(&mut self, fault: SyncFault) -> Result<(), AllocError>
        ensures ok { OnOk result ((self.new.out ≡ self.old.out ++ fail_bytes (fault_text fault))
            × (self.new.ended ≡ true)) }
        ensures err { OnErr result (self.new.out ≡ self.old.out) }
        ensures on { OnErr result (self.new.ended ≡ self.old.ended) }
        ensures kept { self.new.sending ≡ self.old.sending }
    {
        fail(self.alloc, fault_text(fault), &mut self.out)?;
        self.ended = true;
        Ok(())
    }
}

/// Serves the requests that a reader returns, in order, until one ends the service.
pub fn serve_given(
    reader: &mut AskReader,
    session: &mut Session,
    files: &mut Files,
) -> Result<(), AllocError>
    requires short { AllByRecursion HasShortPath reader.old.given }
    requires kept { HasShortSend session.old.sending }
    requires goes_on { session.old.ended ≡ false }
    ensures ok { OnOk result ((send : Option OpenSend) → KeepsSend send session.old.sending
        → ServesGiven send
        (run reader.old session.old files.old) (run reader.new session.new files.new)) }
    ensures err { OnErr result ((send : Option OpenSend) → KeepsSend send session.old.sending
        → ServesFront (requests_of send reader.old.given)
        (moment files.old session.old) (moment files.new session.new)) }
    ensures on { OnErr result (session.new.ended ≡ false) }
    ensures short { AllByRecursion HasShortPath reader.new.given }
    ensures kept { HasShortSend session.new.sending }
{
    while !session.ended {
        let Some(ask) = reader.next() else {
            return Ok(());
        };
        session.take(files, ask)?;
    }
    Ok(())
}

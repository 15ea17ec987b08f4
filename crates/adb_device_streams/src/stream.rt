//! A stream at the device's end.

ghost use Rattle.std.specs.Prelude.{◌≡◌, ◌≤◌, ◌<◌, length, IfOk, IfSome, OnOk, OnErr};
ghost use Rattle.adb_device_streams.specs.Asked.{kind_of};
ghost use Rattle.adb_device_streams.specs.Service.{came_over, files_opened, out_of};
ghost use Rattle.adb_device_streams.specs.Stream.{Row, StandsFor, TakesFirst, TakesWrite, TakesWriteFront, MakesWrite};
ghost use Rattle.adb_device_streams.specs.Stream.{opened, row_acked, is_done, first_flow};

use crate::asked::Asked;
use crate::service::Service;
use adb_files::Files;
use adb_outside::Text;
use adb_stream::Flow;
use std::alloc::{AllocError, Global};

/// A stream at the device's end (protocol.txt, OPEN): the host's id, the service, and the window
/// for the device's writes.
#[derive(Drop)]
pub struct Stream {
    pub host: u32,
    pub service: Service,
    pub flow: Flow,
}

impl Stream {
    /// Opens the stream of a host's id. `credit` is the credit in its OPEN, if the link has credit
    /// in bytes. If an allocation fails, the files are unchanged.
    pub fn open(
        alloc: Global,
        files: &mut Files,
        host: u32,
        asked: Asked<'_>,
        credit: Option<u32>,
    ) -> Result<Stream, AllocError>
        ensures stream { IfOk result (λ stream.
            StandsFor (opened host (kind_of asked.entry) files.old credit) stream) }
        ensures files { OnOk result (files.new ≡ files_opened (kind_of asked.entry) files.old) }
        ensures err { OnErr result (files.new ≡ files.old) }
    {
        let service = Service::open(alloc, files, asked)?;
        Ok(Stream {
            host,
            service,
            flow: first_flow(credit),
        })
    }

    /// Takes the payload of a write that came. If an allocation fails, a prefix of the answer was
    /// given.
    pub fn take_write(&mut self, files: &mut Files, payload: &[u8]) -> Result<(), AllocError>
        ensures ok { OnOk result ((row : Row) → StandsFor row self.old
            → TakesWrite (came_over payload.now files.old) row self.new files.new) }
        ensures err { OnErr result ((row : Row) → StandsFor row self.old
            → TakesWriteFront (came_over payload.now files.old) row self.new files.new) }
    {
        self.service.feed(files, payload)
    }

    /// Records an OKAY, with or without a credit word.
    pub fn acked(&mut self, word: Option<u32>)
        ensures { (row : Row) → StandsFor row self.old → StandsFor (row_acked word row) self.new }
    {
        self.flow.acked(word);
    }

    /// Returns the payload of the next write, of at most `most` bytes; `None` if the window allows
    /// none or nothing is left to write. If an allocation fails, the rest of the answer is lost.
    pub fn next_write(&mut self, alloc: Global, most: usize) -> Result<Option<Text>, AllocError>
        ensures write { IfOk result (λ payload. (row : Row) → StandsFor row self.old
            → MakesWrite most row self.new payload) }
        ensures short { IfOk result (λ next. IfSome next (λ payload. length payload ≤ most)) }
        ensures less { IfOk result (λ next. IfSome next (λ payload.
            length (out_of self.new.service) < length (out_of self.old.service))) }
    {
        let room = most.min(self.flow.may_send(most));
        let payload = take_first(alloc, &mut self.service, room)?;
        if payload.is_empty() {
            return Ok(None);
        }
        self.flow.wrote(payload.len());
        Ok(Some(payload))
    }

    /// Returns whether the service has ended, all is written, and no write is outstanding.
    pub fn is_done(&self) -> bool
        ensures { (row : Row) → StandsFor row self.now → result ≡ is_done row }
    {
        self.service.ended() && self.service.out().is_empty() && self.flow.is_idle()
    }
}

/// Returns the initial flow state of a stream: one write, or the credit in its OPEN if the link has
/// credit in bytes.
fn first_flow(credit: Option<u32>) -> Flow
    ensures { result ≡ first_flow credit }
{
    let mut flow = Flow::new(credit.is_some());
    flow.acked(credit);
    flow
}

/// Takes the first bytes of an answer: all of the first `room` bytes that exist. If an allocation
/// fails, some of them are lost.
fn take_first(alloc: Global, service: &mut Service, room: usize) -> Result<Text, AllocError>
    ensures { IfOk result (λ payload. TakesFirst room service.old service.new payload) }
{
    let mut payload = Text::new(alloc);
    while payload.len() < room {
        let front = service.out();
        let n = front.len().min(room - payload.len());
        if n == 0 {
            return Ok(payload);
        }
        payload.push_slice(&front[..n])?;
        service.taken(n);
    }
    Ok(payload)
}

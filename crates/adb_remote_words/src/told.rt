//! The meaning of frames.

ghost use Rattle.std.specs.Prelude.{◌≡◌, slice_index, IfOk};
ghost use Rattle.adb_sync_client.specs.declared.step.Step.TheVariants.{More};
ghost use Rattle.adb_remote_words.specs.Meaning.{frame_step, has_line, line_of, list_step, nothing_told, packet_step, told_with, waiting_step};
ghost use Rattle.adb_remote_frames.specs.declared.frame.Frame.TheVariants.{Packet};

use crate::remote::{Outcome, Remote};
use adb_outside::Text;
use adb_remote_frames::{EXIT, Frame, STDERR, STDOUT};
use adb_sync_client::Step;
use std::alloc::{AllocError, Global};
use std::mem;

/// The output of a command so far.
#[derive(Drop)]
pub struct Told {
    pub out: Text,
    pub err: Text,
}

impl Told {
    /// Returns an empty output. It allocates nothing.
    pub fn new(alloc: Global) -> Told
        ensures { result ≡ nothing_told }
    {
        Told {
            out: Text::new(alloc),
            err: Text::new(alloc),
        }
    }

    /// Takes the next frame and returns its meaning.
    pub fn take(
        &mut self,
        alloc: Global,
        job: &Remote,
        frame: Frame,
    ) -> Result<Step<Outcome>, AllocError>
        ensures step { IfOk result (λ step. step ≡ frame_step job.now self.old frame) }
        ensures told { IfOk result (λ step. step ≡ More → self.new ≡ told_with self.old frame) }
    {
        match frame {
            Frame::Fail(_) => Ok(Step::More),
            Frame::List(list) => list_step(alloc, job, list),
            Frame::Packet { id, bytes } => self.packet(alloc, id, bytes.as_slice()),
        }
    }

    /// Takes the next packet and returns its meaning.
    fn packet(&mut self, alloc: Global, id: u8, bytes: &[u8]) -> Result<Step<Outcome>, AllocError>
        ensures step { IfOk result (λ step. step ≡ packet_step self.old id bytes.now) }
        ensures told { IfOk result (λ step. step ≡ More
            → self.new ≡ told_with self.old (Packet id bytes.now)) }
    {
        match id {
            EXIT => Ok(Step::Done(self.ran(alloc, status_of(bytes)))),
            STDOUT => {
                self.out.push_slice(bytes)?;
                Ok(Step::More)
            }
            STDERR => {
                self.err.push_slice(bytes)?;
                Ok(Step::More)
            }
            _ => Ok(Step::More),
        }
    }

    /// Returns the outcome of a command that ended with a status. The output is moved into it.
    fn ran(&mut self, alloc: Global, status: u8) -> Outcome
        ensures { result ≡ Outcome.Ran self.old.out self.old.err status }
    {
        Outcome::Ran {
            out: mem::replace(&mut self.out, Text::new(alloc)),
            err: mem::replace(&mut self.err, Text::new(alloc)),
            status,
        }
    }
}

/// Returns the exit status in an exit packet.
fn status_of(bytes: &[u8]) -> u8
    ensures { result ≡ slice_index bytes.now 0 }
{
    bytes.first().copied().unwrap_or(0)
}

/// Returns the meaning of a list of devices.
fn list_step(alloc: Global, job: &Remote, list: Text) -> Result<Step<Outcome>, AllocError>
    ensures { IfOk result (λ step. step ≡ list_step job.now list) }
{
    match job {
        Remote::Wait { serial, state } => waiting_step(alloc, serial, state, list.as_slice()),
        _ => Ok(Step::Done(Outcome::Listed(list))),
    }
}

/// Returns the meaning of a list of devices for a job that waits for one of its lines.
fn waiting_step(
    alloc: Global,
    serial: &Text,
    state: &Text,
    list: &[u8],
) -> Result<Step<Outcome>, AllocError>
    ensures { IfOk result (λ step. step ≡ waiting_step serial.now state.now list.now) }
{
    let line = line_of(alloc, serial.as_slice(), state.as_slice())?;
    if has_line(line.as_slice(), list) {
        Ok(Step::Done(Outcome::Ready))
    } else {
        Ok(Step::More)
    }
}

/// Returns the line of a device in a state.
fn line_of(alloc: Global, serial: &[u8], state: &[u8]) -> Result<Text, AllocError>
    ensures { IfOk result (λ line. line ≡ line_of serial.now state.now) }
{
    let mut line = Text::from_slice(alloc, serial)?;
    line.push_slice(b"\t")?;
    line.push_slice(state)?;
    Ok(line)
}

/// Returns whether a list has a line.
fn has_line(line: &[u8], list: &[u8]) -> bool
    ensures { result ≡ has_line line.now list.now }
{
    list.split(|byte| *byte == b'\n').any(|other| other == line)
}

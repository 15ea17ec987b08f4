//! The conversation of a client tool with a server.

ghost use Rattle.std.specs.Prelude.{◌≡◌, ◌≢◌, ◌<◌, ◌≤◌, ◌⊎◌, [], Err, Some, false, length, option_map, IfSome};
ghost use Rattle.adb_outside.specs.Outside.{Rises};
ghost use Rattle.adb_remote_words.specs.Words.{HasWords};
ghost use Rattle.adb_remote.specs.Sending.{seen};
ghost use Rattle.adb_sync_client.specs.declared.step.Step.TheVariants.{More};
ghost use Rattle.adb_remote_words.specs.Outcome.{decided};
ghost use Rattle.adb_remote_words.specs.Reading.{ReadingStands};
ghost use Rattle.adb_remote.specs.Conversing.{Converses, Listens, inlet, ports_of};
ghost use Rattle.adb_remote.specs.declared.conversing.TheConstants.{MAX_PIECE};

use crate::saying::say;
use crate::sending::remote_error;
use crate::turning::turn;
use adb_connections::{PortIn, PortOut};
use adb_outside::Text;
use adb_remote_words::{MAX_WORD, Outcome, Reading, Remote, RemoteError, is_more};
use adb_sync::WHOLE_CHUNK;
use adb_sync_client::Step;
use std::alloc::Global;
use std::sync::Wait;

/// The maximum number of bytes of one read: two whole chunks of a file, with their headers.
pub const MAX_PIECE: usize = 2 * WHOLE_CHUNK;

/// The number of bytes before the chunks of a file: two OKAYs.
const OKAYS: usize = 8;

/// Asks a server for a job, on the device with this serial if one is given, and returns the
/// outcome. Blocks in the reads and writes of the port. Each byte is parsed once, and lists without
/// the line that a job waits for are dropped.
///
/// - `Refused`, `BadAnswer`: the meaning of the server's answer.
/// - `PortFault`: a read or a write failed. A prefix of the words was written, and nothing more is
///   read.
/// - `OutOfMemory`: an allocation failed. A prefix of the words was written, and nothing more is
///   read.
pub fn converse<W: Wait + Copy + Drop, I: PortIn, O: PortOut>(
    rt: W,
    alloc: Global,
    job: &Remote,
    on: Option<&Text>,
    input: &mut I,
    output: &mut O,
) -> Result<Outcome, RemoteError>
    requires words { HasWords job.now }
    requires on { IfSome on (λ serial. length serial.now ≤ MAX_WORD) }
    ensures converses { Converses (ports_of I.steady (inlet I.faults I.left) O.steady
        (seen O.faults O.written O.closed)) job.now (option_map (λ text. text.now) on.entry)
        input.old input.new output.old output.new result }
    ensures fault { result ≡ Err RemoteError.PortFault
        → Rises (I.faults input.old) (I.faults input.new)
        ⊎ Rises (O.faults output.old) (O.faults output.new) }
{
    match say(alloc, job, on, 0, output) {
        Ok(()) => hear(rt, alloc, job, on, input, output),
        Err(error) => Err(remote_error(error)),
    }
}

/// Reads the answer after the first request was written, from its first byte.
fn hear<W: Wait + Copy + Drop, I: PortIn, O: PortOut>(
    rt: W,
    alloc: Global,
    job: &Remote,
    on: Option<&Text>,
    input: &mut I,
    output: &mut O,
) -> Result<Outcome, RemoteError>
    requires words { HasWords job.now }
    requires on { IfSome on (λ serial. length serial.now ≤ MAX_WORD) }
    ensures { Listens (ports_of I.steady (inlet I.faults I.left) O.steady
        (seen O.faults O.written O.closed)) job.now (option_map (λ text. text.now) on.entry)
        input.old input.new output.old output.new result }
{
    let Ok(reading) = Reading::new(alloc, job) else {
        return Err(RemoteError::OutOfMemory);
    };
    listen(rt, alloc, job, on, input, output, reading)
}

/// Reads the answer, and writes the words that are due after each piece.
fn listen<W: Wait + Copy + Drop, I: PortIn, O: PortOut>(
    rt: W,
    alloc: Global,
    job: &Remote,
    on: Option<&Text>,
    input: &mut I,
    output: &mut O,
    reading: Reading,
) -> Result<Outcome, RemoteError>
    requires words { HasWords job.now }
    requires on { IfSome on (λ serial. length serial.now ≤ MAX_WORD) }
    requires stands { ReadingStands job.now [] reading }
    ensures { Listens (ports_of I.steady (inlet I.faults I.left) O.steady
        (seen O.faults O.written O.closed)) job.now (option_map (λ text. text.now) on.entry)
        input.old input.new output.old output.new result }
{
    let mut reading = reading;
    let mut buffer = [0u8; MAX_PIECE];
    for _ in rt.forever() {
        let piece = &mut buffer[..size_of_read(reading.count())];
        match turn(alloc, job, on, input, output, &mut reading, piece) {
            Ok(step) => {
                if !is_more(&step) {
                    return outcome(step);
                }
            }
            Err(error) => return Err(remote_error(error)),
        }
    }
    unreachable!()
}

/// Returns how many bytes to read at once after `count` bytes. A read that fills its buffer ends at
/// the end of a chunk of a file, if all earlier chunks have the maximum length, so that the parts
/// of a chunk need not be gathered. A read that does not fill its buffer affects only the next
/// read.
fn size_of_read(count: usize) -> usize
    ensures some { 0 < result }
    ensures most { result ≤ MAX_PIECE }
{
    MAX_PIECE - count.saturating_sub(OKAYS) % WHOLE_CHUNK
}

/// Returns the outcome of a step that decides.
fn outcome(step: Step<Outcome>) -> Result<Outcome, RemoteError>
    requires { step ≢ More }
    ensures { decided step 0 false ≡ Some result }
{
    match step {
        Step::More => unreachable!(),
        Step::Done(outcome) => Ok(outcome),
        Step::Refused(text) => Err(RemoteError::Refused(text)),
        Step::BadAnswer { offset } => Err(RemoteError::BadAnswer { offset }),
    }
}

//! One turn of a conversation: reads a piece of the answer, and writes the words that are due after
//! it.

ghost use Rattle.std.specs.Prelude.{◌≡◌, ◌≤◌, ◌<◌, option_map, length, IfSome};
ghost use Rattle.adb_remote_words.specs.Words.{HasWords};
ghost use Rattle.adb_remote.specs.Sending.{seen};
ghost use Rattle.adb_remote.specs.Conversing.{TakesPiece, Turns, inlet, ports_of};

use crate::saying::say_up_to;
use crate::sending::SendError;
use adb_connections::{PortIn, PortOut};
use adb_outside::{Got, Text};
use adb_remote_words::{MAX_WORD, Outcome, Reading, Remote};
use adb_sync_client::Step;
use std::alloc::Global;

/// Reads a piece of the answer, and writes the words that are due after it.
pub fn turn<I: PortIn, O: PortOut>(
    alloc: Global,
    job: &Remote,
    on: Option<&Text>,
    input: &mut I,
    output: &mut O,
    reading: &mut Reading,
    buffer: &mut [u8],
) -> Result<Step<Outcome>, SendError>
    requires words { HasWords job.now }
    requires on { IfSome on (λ serial. length serial.now ≤ MAX_WORD) }
    requires room { 0 < length buffer.old }
    ensures { Turns (ports_of I.steady (inlet I.faults I.left) O.steady
        (seen O.faults O.written O.closed)) job.now (option_map (λ text. text.now) on.entry)
        input.old input.new output.old output.new reading.old reading.new result }
{
    match input.read(buffer) {
        Got::Bytes(n) => take_piece(alloc, job, on, output, reading, &buffer[..n]),
        Got::End => Ok(Step::BadAnswer {
            offset: reading.count() as u64,
        }),
        Got::Failed => Err(SendError::PortFault),
    }
}

/// Takes a piece of the answer, and writes the words that are due after it.
fn take_piece<O: PortOut>(
    alloc: Global,
    job: &Remote,
    on: Option<&Text>,
    output: &mut O,
    reading: &mut Reading,
    piece: &[u8],
) -> Result<Step<Outcome>, SendError>
    requires words { HasWords job.now }
    requires on { IfSome on (λ serial. length serial.now ≤ MAX_WORD) }
    ensures { TakesPiece O.steady (seen O.faults O.written O.closed) job.now
        (option_map (λ text. text.now) on.entry) piece.now output.old output.new reading.old
        reading.new result }
{
    let before = reading.okays();
    let Ok(step) = reading.feed(job, piece) else {
        return Err(SendError::OutOfMemory);
    };
    match say_up_to(alloc, job, on, before, reading.okays(), output) {
        Ok(()) => Ok(step),
        Err(error) => Err(error),
    }
}

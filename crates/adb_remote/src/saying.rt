//! Writing of the words of a job.

ghost use Rattle.std.specs.Prelude.{◌≡◌, ◌≤◌, ◌<◌, ◌++◌, option_map, length, IfSome};
ghost use Rattle.adb_remote_words.specs.Words.{HasWords, second_word, third_word, word};
ghost use Rattle.adb_remote.specs.Sending.{SaysTo, Sends, seen};

use crate::pushing::send_push;
use crate::sending::{SendError, send};
use adb_connections::PortOut;
use adb_outside::Text;
use adb_remote_words::{MAX_WORD, Remote, first_word, second_word};
use adb_shell::write_packet;
use adb_sync_client::Pull;
use std::alloc::Global;

/// The id of the packet that ends a command's input.
const CLOSE_STDIN: u8 = 4;

/// Writes the words of a job with the numbers after `from`, up to `to`.
pub fn say_up_to<O: PortOut>(
    alloc: Global,
    job: &Remote,
    on: Option<&Text>,
    from: u8,
    to: u8,
    output: &mut O,
) -> Result<(), SendError>
    requires words { HasWords job.now }
    requires on { IfSome on (λ serial. length serial.now ≤ MAX_WORD) }
    ensures { SaysTo O.steady (seen O.faults O.written O.closed) job.now
        (option_map (λ text. text.now) on.entry) from to output.old output.new result }
{
    let mut said = from;
    while said < to {
        said += 1;
        if let Err(error) = say(alloc, job, on, said, output) {
            return Err(error);
        }
    }
    Ok(())
}

/// Writes the word of a job with this number.
pub fn say<O: PortOut>(
    alloc: Global,
    job: &Remote,
    on: Option<&Text>,
    number: u8,
    output: &mut O,
) -> Result<(), SendError>
    requires words { HasWords job.now }
    requires on { IfSome on (λ serial. length serial.now ≤ MAX_WORD) }
    ensures { Sends O.steady (seen O.faults O.written O.closed)
        (word job.now (option_map (λ text. text.now) on.entry) number) output.old output.new result }
{
    match number {
        0 => say_first(alloc, job, on, output),
        1 => say_second(alloc, job, output),
        2 => say_third(alloc, job, output),
        _ => Ok(()),
    }
}

/// Writes the first request.
fn say_first<O: PortOut>(
    alloc: Global,
    job: &Remote,
    on: Option<&Text>,
    output: &mut O,
) -> Result<(), SendError>
    requires { IfSome on (λ serial. length serial.now ≤ MAX_WORD) }
    ensures { Sends O.steady (seen O.faults O.written O.closed)
        (word job.now (option_map (λ text. text.now) on.entry) 0) output.old output.new result }
{
    let text = first_word(alloc, job, on)?;
    send(output, text.as_slice())
}

/// Writes the request for a service.
fn say_second<O: PortOut>(alloc: Global, job: &Remote, output: &mut O) -> Result<(), SendError>
    requires { HasWords job.now }
    ensures { Sends O.steady (seen O.faults O.written O.closed) (second_word job.now) output.old
        output.new result }
{
    let text = second_word(alloc, job)?;
    send(output, text.as_slice())
}

/// Writes the input of the service.
fn say_third<O: PortOut>(alloc: Global, job: &Remote, output: &mut O) -> Result<(), SendError>
    requires { HasWords job.now }
    ensures { Sends O.steady (seen O.faults O.written O.closed) (third_word job.now) output.old
        output.new result }
{
    match job {
        Remote::Devices | Remote::Wait { .. } => Ok(()),
        Remote::Push { path, mtime, bytes } => {
            send_push(alloc, path.as_slice(), *mtime, bytes.as_slice(), output)
        }
        Remote::Pull { path } => {
            let pull = Pull::new(alloc, path.as_slice())?;
            send(output, pull.out())
        }
        Remote::Shell { .. } => {
            let mut packet = Text::new(alloc);
            write_packet(alloc, CLOSE_STDIN, b"", &mut packet)?;
            send(output, packet.as_slice())
        }
    }
}

//! A model device between two pipes.

ghost use Rattle.std.specs.Prelude.{◌≡◌, [], MatchResult, OnOk};
ghost use Rattle.adb_pipe.specs.Ends.{InView, OutView};
ghost use Rattle.adb_daemon.specs.Daemon.{owed};
ghost use Rattle.adb_os_model_device.specs.Running.{GoesOn, Runs};

use adb_daemon::{Daemon, DaemonError};
use adb_outside::Text;
use adb_pipe::{PipeIn, PipeOut, Taken};
use std::alloc::Global;
use std::sync::Wait;

/// The reason why a model device stopped.
#[derive(Drop)]
pub enum DeviceEnd {
    /// The host finished its pipe, and everything that the device owed was put.
    End,
    /// The pipe from the host yielded nothing.
    Lost,
    /// The pipe to the host refused this chunk, which is everything that the device owes.
    Refused(Text),
    /// The device refused the bytes of the host, or an allocation failed.
    Error(DaemonError),
}

/// Runs a model device: feeds it each chunk of the input pipe, and puts the bytes that it owes into
/// the output pipe, also before the first chunk. It continues until the input ends or is lost, the
/// output refuses a chunk, or the device has an error. The caller then finishes the output.
///
/// Returns the device in its state at the end. After an error it may still owe answers to earlier
/// requests.
pub fn run_device<W: Wait + Drop>(
    rt: W,
    alloc: Global,
    daemon: Daemon,
    input: &mut PipeIn<W>,
    output: &mut PipeOut<W>,
) -> (Daemon, DeviceEnd)
    ensures { Runs daemon input.old output.old result.0 result.1 input.new output.new }
{
    let mut daemon = daemon;
    for _ in rt.forever() {
        if let Err(end) = turn(alloc, &mut daemon, input, output) {
            return (daemon, end);
        }
    }
    unreachable!()
}

/// Takes one turn: puts the bytes that are owed, and feeds the next chunk.
fn turn<W: Wait + Drop>(
    alloc: Global,
    daemon: &mut Daemon,
    input: &mut PipeIn<W>,
    output: &mut PipeOut<W>,
) -> Result<(), DeviceEnd>
    ensures { MatchResult result
        (λ _. GoesOn daemon.old input.old output.old daemon.new input.new output.new)
        (λ end. Runs daemon.old input.old output.old daemon.new end input.new output.new) }
{
    put_owed(alloc, daemon, output)?;
    feed_next(daemon, input)
}

/// Puts all bytes that the device owes as one chunk, if it owes any.
fn put_owed<W: Wait + Drop>(
    alloc: Global,
    daemon: &mut Daemon,
    output: &mut PipeOut<W>,
) -> Result<(), DeviceEnd>
    ensures runs { (input : InView) → MatchResult result
        (λ _. GoesOn daemon.old input output.old daemon.new input output.new)
        (λ end. Runs daemon.old input output.old daemon.new end input output.new) }
    ensures all { OnOk result (owed daemon.new ≡ []) }
{
    let due = daemon.out().len();
    if due == 0 {
        return Ok(());
    }
    let Ok(chunk) = Text::from_slice(alloc, daemon.out()) else {
        return Err(DeviceEnd::Error(DaemonError::OutOfMemory));
    };
    match output.put(chunk) {
        Ok(()) => {
            daemon.taken(due);
            Ok(())
        }
        Err(chunk) => Err(DeviceEnd::Refused(chunk)),
    }
}

/// Takes the next chunk, and feeds it to a device that owes nothing.
fn feed_next<W: Wait + Drop>(daemon: &mut Daemon, input: &mut PipeIn<W>) -> Result<(), DeviceEnd>
    requires { owed daemon.old ≡ [] }
    ensures { (output : OutView) → MatchResult result
        (λ _. GoesOn daemon.old input.old output daemon.new input.new output)
        (λ end. Runs daemon.old input.old output daemon.new end input.new output) }
{
    match input.take() {
        Taken::Chunk(chunk) => match daemon.feed(chunk.as_slice()) {
            Ok(()) => Ok(()),
            Err(error) => Err(DeviceEnd::Error(error)),
        },
        Taken::End => Err(DeviceEnd::End),
        Taken::Lost => Err(DeviceEnd::Lost),
    }
}

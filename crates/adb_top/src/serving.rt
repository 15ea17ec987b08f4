//! The command `serve`.

ghost use Rattle.std.specs.Prelude.{◌≡◌, None, Some, true};
ghost use Rattle.adb_asking.specs.Telling.{seen};
ghost use Rattle.adb_words.specs.Serve.{Serving, is_serve, serve_of};
ghost use Rattle.adb_words.specs.Words.{texts};
ghost use Rattle.adb_top.specs.Kept.{KeepsRecord};
ghost use Rattle.adb_top.specs.Serve.{Serves};
ghost use Rattle.adb_top.specs.Tells.{Tells};
ghost use Rattle.adb_top.specs.Usage.{SaysUsage};

use crate::note::{say_door_fault, say_lost_line, say_out_of_memory, say_record_fault, say_usage};
use crate::ran::Ran;
use crate::status::Status;
use adb_outside::Sink;
use adb_server::{Ended, Served, serve};
use adb_server_yard::{Yard, YardDevice};
use adb_words::{WordsError, read_serve};
use std::alloc::Global;
use std::sync::Wait;
use std::thread::Threads;

/// Serves as the words say, and writes the line of the server's end to the note, except for `Done`.
pub(crate) fn run_serve<
    W: Threads + Wait + Copy + Send + Sync + Drop + 'static,
    N: Sink,
    Y: Yard + 'static,
>(
    rt: W,
    alloc: Global,
    words: &[String],
    note: &mut N,
    yard: Y,
    devices: Vec<YardDevice<Y>>,
) -> Ran<Y::Keeper>
    requires serve { is_serve (texts words.now) ≡ true }
    requires records { (asked : Serving) → serve_of (texts words.now) ≡ Some asked
        → Y.records yard asked.records }
    ensures usage { serve_of (texts words.now) ≡ None
        → SaysUsage result.status (seen N.steady N.faults N.written) note.old note.new }
    ensures command { result.status ≡ Status.Usage → serve_of (texts words.now) ≡ None }
    ensures serves { (asked : Serving) → serve_of (texts words.now) ≡ Some asked
        → Serves asked result.status (Y.steady yard) (Y.lasting yard)
        (seen N.steady N.faults N.written) note.old note.new }
    ensures kept { (asked : Serving) → serve_of (texts words.now) ≡ Some asked
        → KeepsRecord Y.Keeper.stands Y.Keeper.faults result.status result.recorder }
{
    match read_serve(alloc, words) {
        Ok(asked) => {
            let ended = serve(rt, alloc, yard, devices, asked.port, asked.records, note);
            say_ended(note, ended)
        }
        Err(WordsError::Usage) => Ran::bare(say_usage(note)),
        Err(WordsError::OutOfMemory) => Ran::bare(say_served(note, Served::OutOfMemory)),
    }
}

/// Writes the line of a server's end to the note, and returns its recorder.
fn say_ended<N: Sink, R: Drop>(note: &mut N, ended: Ended<R>) -> Ran<R>
    ensures tells { Tells ended.served result.status (seen N.steady N.faults N.written)
        note.old note.new }
    ensures recorder { result.recorder ≡ ended.recorder }
{
    let Ended { served, recorder } = ended;
    let status = say_served(note, served);
    Ran { status, recorder }
}

/// Writes the line of a server's end to the note, except for `Done`.
fn say_served<N: Sink>(note: &mut N, served: Served) -> Status
    ensures { Tells served result (seen N.steady N.faults N.written) note.old note.new }
{
    match served {
        Served::Done => Status::Done,
        Served::WriteFault => say_lost_line(note),
        Served::OutOfMemory => say_out_of_memory(note),
        Served::RecordFault => say_record_fault(note),
        Served::DoorFault => say_door_fault(note),
    }
}

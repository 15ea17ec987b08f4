//! Many writers of a locked hall that wait, each in a thread of its own, when the hall is halted.

ghost use Rattle.adb_server_log.specs.declared.marks.TheConstants.{ALL_PARTS};
ghost use Rattle.std.specs.Prelude.{◌≡◌};

use adb_hub::MAX_HELD;
use adb_recorder::NullRecorder;
use adb_server_hall::{ClientOutOf, Hall};
use adb_server_locked_hall::LockedHall;
use adb_server_log::{ALL_PARTS, ClientOut, DeskError, Marks};
use std::alloc::{AllocError, Global};
use std::marker::Brand;
use std::sync::Wait;
use std::sync::ledger::{Blank, Ledger};
use std::thread;
use std::thread::{Threads, sleep};
use std::time::{Clock, Duration};

/// The number of writers: more than a list of condition variables has places for without an
/// allocation.
const WRITERS: usize = 8;

/// The time in milliseconds after which the hall is halted, so that the writers wait by then.
const LATER: u64 = 20;

/// The handle of a writer, and its pass.
#[derive(Drop)]
struct Writer<H: Drop, P: Drop> {
    hall: H,
    pass: P,
}

/// Waits for bytes of a client. Returns whether the wait ends by the answer of a hall that is
/// halted.
fn is_halted<H: Hall + Drop>(writer: Writer<H, ClientOutOf<H>>) -> bool {
    let mut writer = writer;
    matches!(
        writer.hall.put(&mut writer.pass, MAX_HELD),
        Err(DeskError::Halted)
    )
}

/// Halts a hall when its writers wait.
fn halts<H: Hall, W: Clock>(clock: &W, hall: &mut H) {
    sleep(clock, Duration::from_millis(LATER));
    hall.halt();
}

/// Returns for each writer whether its wait ends as it has to.
fn all_wait<
    E: Ledger + Send + Sync + 'static,
    M: Ledger + Send + Sync + 'static,
    K: Marks + Send + Sync + 'static,
    H: Hall<Entries = E, Moved = M, Marks = K> + Send + Drop,
    W: Threads + Sync,
>(rt: &W, writers: Vec<Writer<H, ClientOut<E, M, K>>>) -> Result<Vec<bool>, AllocError> {
    thread::map_vec(rt, writers, &|writer| is_halted(writer))
}

/// Returns whether all writers wait and are notified when the hall is halted. If no thread can be
/// made, the hall is halted first.
fn all_end<
    E: Ledger + Send + Sync + 'static,
    M: Ledger + Send + Sync + 'static,
    K: Marks + Send + Sync + 'static,
    H: Hall<Entries = E, Moved = M, Marks = K> + Send + Drop,
    W: Threads + Clock + Sync + Drop,
>(rt: W, hall: &mut H, writers: Vec<Writer<H, ClientOut<E, M, K>>>) -> Result<bool, AllocError> {
    let ((), ended) = thread::join(&rt, || halts(&rt, hall), || all_wait(&rt, writers));
    Ok(ended?.iter().all(|&is_halted| is_halted))
}

/// Joins the clients. Returns their writers.
fn all_join<
    E: Ledger + Send + Sync + 'static,
    M: Ledger + Send + Sync + 'static,
    K: Marks + Send + Sync + 'static,
    W: Threads + Wait + Clock + Copy + Send + Sync + Drop + 'static,
>(
    alloc: Global,
    hall: &mut LockedHall<NullRecorder, E, M, K, W>,
) -> Result<Vec<Writer<LockedHall<NullRecorder, E, M, K, W>, ClientOut<E, M, K>>>, AllocError> {
    let mut writers = Vec::new(alloc);
    for _ in 0..WRITERS {
        if let Ok((_, pass)) = hall.join() {
            writers.push(Writer {
                hall: hall.handle()?,
                pass,
            })?;
        }
    }
    Ok(writers)
}

/// Returns whether the writers of as many clients as there are to be wait, and are notified.
fn holds_of<
    E: Ledger + Send + Sync + 'static,
    M: Ledger + Send + Sync + 'static,
    K: Marks + Send + Sync + 'static,
    W: Threads + Wait + Clock + Copy + Send + Sync + Drop + 'static,
>(
    rt: W,
    alloc: Global,
    hall: &mut LockedHall<NullRecorder, E, M, K, W>,
) -> Result<bool, AllocError> {
    let writers = all_join(alloc, hall)?;
    let is_full = writers.len() == WRITERS;
    Ok(all_end(rt, hall, writers)? && is_full)
}

fn holds<
    E: Ledger + Send + Sync + 'static,
    M: Ledger + Send + Sync + 'static,
    K: Marks + Send + Sync + 'static,
    W: Threads + Wait + Clock + Copy + Send + Sync + Drop + 'static,
>(rt: W, alloc: Global, entries: Blank, moved: Blank, marks: Blank) -> Result<bool, AllocError>
    requires entries { (entries.name ≡ E.name) × (entries.parts ≡ E.parts)
        × (entries.parts ≡ ALL_PARTS) }
    requires moved { (moved.name ≡ M.name) × (moved.parts ≡ M.parts)
        × (moved.parts ≡ ALL_PARTS) }
    requires marks { (marks.name ≡ K.name) × (marks.parts ≡ K.parts)
        × (marks.parts ≡ ALL_PARTS) }
{
    let recorder = NullRecorder::new();
    let mut hall = LockedHall::<NullRecorder, E, M, K, W>::new(
        rt, alloc, recorder, entries, moved, marks,
    )?;
    holds_of(rt, alloc, &mut hall)
}

/// Returns whether all writers that wait are notified when the hall is halted.
pub fn holds_by_brand<W: Threads + Wait + Clock + Copy + Send + Sync + Drop + 'static>(
    rt: W,
    alloc: Global,
) -> Result<bool, AllocError> {
    holds::<Brand, Brand, Brand, W>(
        rt,
        alloc,
        Blank::new(ALL_PARTS),
        Blank::new(ALL_PARTS),
        Blank::new(ALL_PARTS),
    )
}

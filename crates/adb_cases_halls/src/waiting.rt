//! Calls of a locked hall that wait in one thread, and the events in another that end the wait.

ghost use Rattle.std.specs.Prelude.{◌≡◌};
ghost use Rattle.adb_server_log.specs.declared.marks.TheConstants.{ALL_PARTS};

use crate::hands::{CNXN, OPEN};
use adb_desk::{Half, Progress};
use adb_hub::{Handed, MAX_HELD, Room};
use adb_outside::{Cause, Kind};
use adb_recorder::NullRecorder;
use adb_server_hall::{ClientInOf, ClientOutOf, Hall, LinkInOf, LinkOutOf};
use adb_server_locked_hall::LockedHall;
use adb_server_log::{ALL_PARTS, DeskError, Marks};
use std::alloc::{AllocError, Global};
use std::marker::Brand;
use std::sync::Wait;
use std::sync::ledger::{Blank, Ledger};
use std::thread;
use std::thread::{Threads, sleep};
use std::time::{Clock, Duration};

/// The time in milliseconds after which an event comes, so that the call waits by then.
const LATER: u64 = 5;

/// The maximum number of bytes that a call moves.
const PIECE: usize = 2_097_152;

/// A request whose reply of 4 bytes is due at once, and after which the client may ask again.
const REQUEST: &[u8] = b"0012host:transport-any";

/// The maximum number of pieces after which too much is due.
const PIECES: u32 = 100;

/// The passes of the readers of a client and a device.
#[derive(Drop)]
struct Readers<H: Hall> {
    client: ClientInOf<H>,
    link: LinkInOf<H>,
}

/// The passes of their writers.
#[derive(Drop)]
struct Writers<H: Hall> {
    client: ClientOutOf<H>,
    link: LinkOutOf<H>,
}

/// A call that waits.
#[derive(Clone, Copy, Debug, PartialEq, Eq, Drop)]
enum Call {
    /// A reader asks for room while too much is due to its client, or on its link.
    Room(Half),
    /// A writer asks for bytes while none are due.
    Output(Half),
}

const CALLS: &[Call] = &[
    Call::Room(Half::Client),
    Call::Room(Half::Link),
    Call::Output(Half::Client),
    Call::Output(Half::Link),
];

/// An event that ends a wait.
#[derive(Clone, Copy, Debug, PartialEq, Eq, Drop)]
enum Event {
    /// The queue has drained, or bytes come due.
    Served,
    /// The client or the device is gone.
    Gone,
    /// Another client requests a kill.
    Killed,
    /// The hall is halted.
    Halted,
}

const EVENTS: &[Event] = &[Event::Served, Event::Gone, Event::Killed, Event::Halted];

/// The answer of a call that waited.
#[derive(Clone, Copy, Debug, PartialEq, Eq, Drop)]
enum Woken {
    /// There is room, or there are bytes.
    Served,
    /// No more bytes may come, or none are handed out.
    Gone,
    /// The hall is halted.
    Halted,
    /// Another answer.
    Other,
}

impl Woken {
    fn by_room(answer: Result<Room, DeskError>) -> Woken {
        match answer {
            Ok(Room::Bytes(_)) => Woken::Served,
            Ok(Room::Shut) => Woken::Gone,
            Err(DeskError::Halted) => Woken::Halted,
            Ok(Room::Later) | Err(_) => Woken::Other,
        }
    }

    fn by_handed(answer: Result<Handed, DeskError>) -> Woken {
        match answer {
            Ok(Handed::Bytes(_)) => Woken::Served,
            Ok(Handed::Done) => Woken::Gone,
            Err(DeskError::Halted) => Woken::Halted,
            Ok(Handed::Nothing) | Err(_) => Woken::Other,
        }
    }
}

impl Event {
    /// Returns the answer with which a wait ends after this event.
    fn answer(self) -> Woken {
        match self {
            Event::Served => Woken::Served,
            Event::Gone | Event::Killed => Woken::Gone,
            Event::Halted => Woken::Halted,
        }
    }

    /// Makes the event while a reader waits.
    fn comes_to_reader<H: Hall, W: Clock>(
        self,
        clock: &W,
        half: Half,
        hall: &mut H,
        writers: &mut Writers<H>,
    ) {
        sleep(clock, Duration::from_millis(LATER));
        match self {
            Event::Served => {
                let _ = hand_out(half, hall, writers);
            }
            Event::Gone => breaks(half, hall, writers),
            Event::Killed => kill(hall),
            Event::Halted => hall.halt(),
        }
    }

    /// Makes the event while a writer waits.
    fn comes_to_writer<H: Hall, W: Clock>(
        self,
        clock: &W,
        half: Half,
        hall: &mut H,
        readers: &mut Readers<H>,
    ) {
        sleep(clock, Duration::from_millis(LATER));
        match self {
            Event::Served => asks(half, hall, readers),
            Event::Gone => ends(half, hall, readers),
            Event::Killed => kill(hall),
            Event::Halted => hall.halt(),
        }
    }
}

/// Requests a kill by a client that comes for it.
fn kill<H: Hall>(hall: &mut H) {
    if let Ok((mut reading, _)) = hall.join() {
        let _ = hall.read(&mut reading, b"0009host:kill");
    }
}

/// Hands out what is due to a client or on a link, at most `PIECE` bytes.
fn hand_out<H: Hall>(
    half: Half,
    hall: &mut H,
    writers: &mut Writers<H>,
) -> Result<Handed, DeskError> {
    match half {
        Half::Client => hall.put(&mut writers.client, PIECE),
        Half::Link => hall.send(&mut writers.link, PIECE),
    }
}

/// Asks for the room of a client or of a device.
fn room<H: Hall>(half: Half, hall: &mut H, readers: &mut Readers<H>) -> Result<Room, DeskError> {
    match half {
        Half::Client => hall.room(&mut readers.client),
        Half::Link => hall.room_on(&mut readers.link),
    }
}

/// Ends a client or a link because a write failed.
fn breaks<H: Hall>(half: Half, hall: &mut H, writers: &mut Writers<H>) {
    let _ = match half {
        Half::Client => hall.break_out(&mut writers.client, Cause::Fault),
        Half::Link => hall.break_send(&mut writers.link, Cause::Fault),
    };
}

/// Ends a client or a link because its input has ended.
fn ends<H: Hall>(half: Half, hall: &mut H, readers: &mut Readers<H>) {
    let _ = match half {
        Half::Client => hall.end(&mut readers.client, Cause::Eof),
        Half::Link => hall.detach(&mut readers.link, Cause::Eof),
    };
}

/// Makes bytes come due to the client, or on the link.
fn asks<H: Hall>(half: Half, hall: &mut H, readers: &mut Readers<H>) {
    let request: &[u8] = match half {
        Half::Client => b"000Chost:version",
        Half::Link => b"0012host:transport-any0009shell:cat",
    };
    let _ = hall.read(&mut readers.client, &request[..request.len().min(64)]);
}

/// Returns whether a reader that waits in one thread gets the right answer after an event in
/// another.
fn reader_wakes<
    E: Ledger + Send + Sync + 'static,
    M: Ledger + Send + Sync + 'static,
    K: Marks + Send + Sync + 'static,
    H: Hall<Entries = E, Moved = M, Marks = K> + Send,
    W: Threads + Clock + Sync + Drop,
>(
    rt: W,
    here: &mut H,
    there: &mut H,
    readers: &mut Readers<H>,
    writers: &mut Writers<H>,
    half: Half,
    event: Event,
) -> bool {
    let (answer, ()) = thread::join(
        &rt,
        || room(half, here, readers),
        || event.comes_to_reader(&rt, half, there, writers),
    );
    Woken::by_room(answer) == event.answer()
}

/// Returns whether a writer that waits in one thread gets the right answer after an event in
/// another.
fn writer_wakes<
    E: Ledger + Send + Sync + 'static,
    M: Ledger + Send + Sync + 'static,
    K: Marks + Send + Sync + 'static,
    H: Hall<Entries = E, Moved = M, Marks = K> + Send,
    W: Threads + Clock + Sync + Drop,
>(
    rt: W,
    here: &mut H,
    there: &mut H,
    readers: &mut Readers<H>,
    writers: &mut Writers<H>,
    half: Half,
    event: Event,
) -> bool {
    let (answer, ()) = thread::join(
        &rt,
        || hand_out(half, here, writers),
        || event.comes_to_writer(&rt, half, there, readers),
    );
    Woken::by_handed(answer) == event.answer()
}

/// Returns whether more is due to a client, or on a link, than its reader has room for, after it
/// sent a piece again and again.
fn fills<H: Hall>(half: Half, hall: &mut H, readers: &mut Readers<H>, piece: &[u8]) -> bool {
    for _ in 0..PIECES {
        match sends(half, hall, readers, piece) {
            Ok(Progress { room, .. }) => {
                if room == Room::Later {
                    return true;
                }
            }
            Err(_) => return false,
        }
    }
    false
}

fn sends<H: Hall>(
    half: Half,
    hall: &mut H,
    readers: &mut Readers<H>,
    piece: &[u8],
) -> Result<Progress, DeskError> {
    let piece = &piece[..piece.len().min(PIECE)];
    match half {
        Half::Client => hall.read(&mut readers.client, piece),
        Half::Link => hall.recv(&mut readers.link, piece),
    }
}

impl Call {
    /// Returns a piece after which bytes are due at once, for the owner of the call.
    fn piece(self, alloc: Global) -> Result<Vec<u8>, AllocError> {
        match self {
            Call::Room(Half::Client) => repeated(alloc, REQUEST, MAX_HELD),
            Call::Room(Half::Link) => repeated(alloc, OPEN, PIECE),
            Call::Output(_) => Ok(Vec::new(alloc)),
        }
    }

    /// Returns whether the call waits now: the device has said who it is, and too much is due, or
    /// nothing.
    fn is_to_wait<H: Hall>(
        self,
        hall: &mut H,
        readers: &mut Readers<H>,
        writers: &mut Writers<H>,
        piece: &[u8],
    ) -> bool {
        let begun = hand_out(Half::Link, hall, writers).is_ok()
            && hall.recv(&mut readers.link, CNXN).is_ok();
        match self {
            Call::Room(half) => begun && fills(half, hall, readers, piece),
            Call::Output(_) => begun,
        }
    }
}

/// Returns a piece of at most `most` bytes that repeats a unit.
fn repeated(alloc: Global, unit: &[u8], most: usize) -> Result<Vec<u8>, AllocError> {
    let mut piece = Vec::new(alloc);
    for _ in 0..most / unit.len().max(1) {
        piece.extend_from_slice(unit)?;
    }
    Ok(piece)
}

/// A call that waits, and the event that ends the wait.
#[derive(Clone, Copy, Debug, Drop)]
struct Row {
    call: Call,
    event: Event,
}

impl Row {
    /// Returns whether the call waits and ends as it has to.
    fn holds<
        E: Ledger + Send + Sync + 'static,
        M: Ledger + Send + Sync + 'static,
        K: Marks + Send + Sync + 'static,
        H: Hall<Entries = E, Moved = M, Marks = K> + Send,
        W: Threads + Clock + Sync + Drop,
    >(self, rt: W, here: &mut H, there: &mut H, piece: &[u8]) -> bool {
        let Some((mut readers, mut writers)) = seats(here) else {
            return false;
        };
        if !self
            .call
            .is_to_wait(here, &mut readers, &mut writers, piece)
        {
            return false;
        }
        let (readers, writers) = (&mut readers, &mut writers);
        match self.call {
            Call::Room(half) => {
                reader_wakes(rt, here, there, readers, writers, half, self.event)
            }
            Call::Output(half) => {
                writer_wakes(rt, here, there, readers, writers, half, self.event)
            }
        }
    }
}

/// Admits a client and a device.
fn seats<H: Hall>(hall: &mut H) -> Option<(Readers<H>, Writers<H>)> {
    let client = hall.join().ok()?;
    let link = hall.attach(Kind::Usb, b"emu1").ok()?;
    let readers = Readers {
        client: client.0,
        link: link.0,
    };
    let writers = Writers {
        client: client.1,
        link: link.1,
    };
    Some((readers, writers))
}

/// Returns whether a row holds of this handle and one more.
fn holds_beside<
    E: Ledger + Send + Sync + 'static,
    M: Ledger + Send + Sync + 'static,
    K: Marks + Send + Sync + 'static,
    W: Threads + Wait + Clock + Copy + Send + Sync + Drop + 'static,
>(
    rt: W,
    alloc: Global,
    here: &mut LockedHall<NullRecorder, E, M, K, W>,
    row: Row,
) -> Result<bool, AllocError> {
    let mut there = here.handle()?;
    let piece = row.call.piece(alloc)?;
    Ok(row.holds(rt, here, &mut there, &piece))
}

fn holds<
    E: Ledger + Send + Sync + 'static,
    M: Ledger + Send + Sync + 'static,
    K: Marks + Send + Sync + 'static,
    W: Threads + Wait + Clock + Copy + Send + Sync + Drop + 'static,
>(
    rt: W,
    alloc: Global,
    row: Row,
    entries: Blank,
    moved: Blank,
    marks: Blank,
) -> Result<bool, AllocError>
    requires entries { (entries.name ≡ E.name) × (entries.parts ≡ E.parts)
        × (entries.parts ≡ ALL_PARTS) }
    requires moved { (moved.name ≡ M.name) × (moved.parts ≡ M.parts)
        × (moved.parts ≡ ALL_PARTS) }
    requires marks { (marks.name ≡ K.name) × (marks.parts ≡ K.parts)
        × (marks.parts ≡ ALL_PARTS) }
{
    let recorder = NullRecorder::new();
    let mut here = LockedHall::<NullRecorder, E, M, K, W>::new(
        rt, alloc, recorder, entries, moved, marks,
    )?;
    holds_beside(rt, alloc, &mut here, row)
}

fn holds_by_brand<W: Threads + Wait + Clock + Copy + Send + Sync + Drop + 'static>(
    rt: W,
    alloc: Global,
    row: Row,
) -> Result<bool, AllocError> {
    holds::<Brand, Brand, Brand, W>(
        rt,
        alloc,
        row,
        Blank::new(ALL_PARTS),
        Blank::new(ALL_PARTS),
        Blank::new(ALL_PARTS),
    )
}

/// Returns the index of the first call that does not end as it has to after one of the events.
pub fn first_stuck<W: Threads + Wait + Clock + Copy + Send + Sync + Drop + 'static>(
    rt: W,
    alloc: Global,
) -> Result<Option<usize>, AllocError> {
    for (at, &call) in CALLS.iter().enumerate() {
        for &event in EVENTS {
            if !holds_by_brand(rt, alloc, Row { call, event })? {
                return Ok(Some(at));
            }
        }
    }
    Ok(None)
}

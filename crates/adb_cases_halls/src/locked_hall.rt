//! A locked hall: which workers are notified, and two handles in two threads.

ghost use Rattle.std.specs.Prelude.{◌≡◌, ◌<◌, ◌≤◌, length};
ghost use Rattle.adb_server_log.specs.declared.marks.TheConstants.{ALL_PARTS};

use crate::hands::{CNXN, Client, OPEN, asks, is_answered, lives};
use adb_desk::{Act, Comer, Desk, Half};
use adb_hub::Owner;
use adb_outside::{Cause, Kind};
use adb_recorder::NullRecorder;
use adb_server_bells::{Bells, Locked, Pair, Side};
use adb_server_hall::Hall;
use adb_server_locked_hall::LockedHall;
use adb_server_log::{ALL_PARTS, ClientIn, ClientOut, Marks};
use std::alloc::{AllocError, Global};
use std::marker::Brand;
use std::sync::Wait;
use std::sync::ledger::{Blank, Ledger};
use std::thread;
use std::thread::Threads;

/// The number of clients that wait.
const IDLE: u32 = 64;

/// The number of workers that wait: the reader and the writer of each client.
const WAITING: usize = 128;

/// The link of the first device.
const LINK: Owner = Owner::Link(1);

/// The maximum number of streams that a device opens until its link has no room. Each is refused
/// by 24 bytes.
const OPENS: u32 = 200_000;

/// Joins the clients.
fn all_join<E: Ledger, M: Ledger, K: Marks>(
    alloc: Global,
    locked: &mut Locked<NullRecorder, E, M, K>,
) -> Result<(), AllocError> {
    for _ in 0..IDLE {
        if let Ok(client) = locked.desk.admit(Comer::Client) {
            locked
                .bells
                .put_up(Owner::Client(client), Pair::new(alloc)?);
        }
    }
    Ok(())
}

/// Makes the reader of each client wait for room, and its writer for bytes.
fn all_wait(bells: &mut Bells) {
    for before in 0..IDLE {
        let owner = Owner::Client(before + 1);
        let _ = bells.sleep(owner, Side::Reader);
        let _ = bells.sleep(owner, Side::Writer);
    }
}

/// Attaches the first device, and makes its reader and its writer wait.
fn device_waits<E: Ledger, M: Ledger, K: Marks>(
    alloc: Global,
    locked: &mut Locked<NullRecorder, E, M, K>,
) -> Result<(), AllocError> {
    if let Ok(link) = locked.desk.admit(Comer::Device(Kind::Usb, b"emu1")) {
        let owner = Owner::Link(link);
        locked.bells.put_up(owner, Pair::new(alloc)?);
        let _ = locked.bells.sleep(owner, Side::Reader);
        let _ = locked.bells.sleep(owner, Side::Writer);
    }
    Ok(())
}

/// Makes more due on the first device's link than the device has room for.
fn fills_link<E: Ledger, M: Ledger, K: Marks>(locked: &mut Locked<NullRecorder, E, M, K>) {
    let _ = locked.desk.submit(1, Act::Recv(CNXN));
    for _ in 0..OPENS {
        let _ = locked.desk.submit(1, Act::Recv(OPEN));
        if locked.desk.has_no_room_yet(LINK) {
            break;
        }
    }
    let _ = locked.desk.submit(1, Act::Recv(OPEN));
}

/// Returns how many workers are notified after at most `max` bytes are handed out on the link whose
/// reader waits for room.
fn rung_after_send<E: Ledger, M: Ledger, K: Marks>(
    locked: &mut Locked<NullRecorder, E, M, K>,
    max: usize,
) -> usize
    requires { (0 < max) × (max ≤ 65_536) }
{
    let _ = locked.bells.sleep(LINK, Side::Reader);
    let _ = locked.desk.hand_out(Half::Link, 1, max);
    rung(locked)
}

fn rung<E: Ledger, M: Ledger, K: Marks>(locked: &mut Locked<NullRecorder, E, M, K>) -> usize {
    locked.ring().len()
}

/// Returns whether a client is alive after it sent a piece.
fn says<E: Ledger, M: Ledger, K: Marks>(
    locked: &mut Locked<NullRecorder, E, M, K>,
    client: u32,
    piece: &[u8],
) -> bool
    requires { length piece.now ≤ 64 }
{
    lives(locked.desk.submit(client, Act::Read(piece)))
}

/// An event after which workers that wait are notified.
#[derive(Clone, Copy, Drop)]
enum Wake {
    /// A client is answered: both of its workers are notified, and no others. Those of the link with
    /// the client's number are no exception.
    Answer,
    /// A client whose reader has returned is answered: its writer is notified.
    AnswerWithoutReader,
    /// Bytes are handed out on a link: its reader, which waits for room, is notified when there is
    /// room, and not earlier.
    LinkDrains,
    /// A device is unplugged: the reader of its link is notified.
    LinkGoes,
    /// A kill: all workers are notified, also those that wait for room.
    Kill,
    /// The hall is halted: all workers are notified.
    Halt,
}

const WAKES: &[Wake] = &[
    Wake::Answer,
    Wake::AnswerWithoutReader,
    Wake::LinkDrains,
    Wake::LinkGoes,
    Wake::Kill,
    Wake::Halt,
];

impl Wake {
    /// Returns whether the right number of workers is notified.
    fn holds<E: Ledger, M: Ledger, K: Marks>(
        self,
        locked: &mut Locked<NullRecorder, E, M, K>,
    ) -> bool {
        match self {
            Wake::Answer => says(locked, 1, b"000Chost:version") && rung(locked) == 2,
            Wake::AnswerWithoutReader => {
                locked.bells.pass_back(Owner::Client(1));
                says(locked, 1, b"000Chost:version") && rung(locked) == 2
            }
            Wake::LinkDrains => {
                fills_link(locked);
                let _ = rung(locked);
                rung_after_send(locked, 1) == 0 && rung_after_send(locked, 65_536) == 1
            }
            Wake::LinkGoes => {
                let _ = locked.bells.sleep(LINK, Side::Reader);
                locked.desk.submit(1, Act::Detach(Cause::Eof)).is_ok() && rung(locked) == 1
            }
            Wake::Kill => {
                let _ = locked.bells.sleep(LINK, Side::Reader);
                says(locked, 2, b"0009host:kill") && rung(locked) == WAITING + 1
            }
            Wake::Halt => {
                let _ = locked.bells.sleep(LINK, Side::Reader);
                locked.desk.halt();
                rung(locked) == WAITING + 1
            }
        }
    }
}

/// Returns whether only a device's workers are notified when the device is attached, and the event
/// then notifies the right number of workers.
fn notifies<E: Ledger, M: Ledger, K: Marks>(
    locked: &mut Locked<NullRecorder, E, M, K>,
    wake: Wake,
) -> bool {
    rung(locked) == 2 && wake.holds(locked)
}

/// The state under the lock of a hall.
trait Bellman: Drop {
    /// Returns whether the right number of workers is notified after an event.
    fn rings(&mut self, alloc: Global, wake: Wake) -> Result<bool, AllocError>;
}

impl<E: Ledger, M: Ledger, K: Marks> Bellman for Locked<NullRecorder, E, M, K> {
    fn rings(&mut self, alloc: Global, wake: Wake) -> Result<bool, AllocError> {
        all_join(alloc, self)?;
        let _ = rung(self);
        all_wait(&mut self.bells);
        device_waits(alloc, self)?;
        Ok(notifies(self, wake))
    }
}

/// Owns the state through a type parameter, so that its drop is proved once.
fn rings_over<B: Bellman>(alloc: Global, bellman: B, wake: Wake) -> Result<bool, AllocError> {
    let mut bellman = bellman;
    bellman.rings(alloc, wake)
}

fn locked<E: Ledger, M: Ledger, K: Marks>(
    alloc: Global,
    desk: Desk<NullRecorder, E, M, K>,
) -> Locked<NullRecorder, E, M, K> {
    Locked {
        desk,
        bells: Bells::new(alloc),
        is_over: false,
    }
}

fn rings<E: Ledger, M: Ledger, K: Marks>(
    alloc: Global,
    wake: Wake,
    entries: Blank,
    moved: Blank,
    marks: Blank,
) -> Result<bool, AllocError>
    requires entries { (entries.name ≡ E.name) × (entries.parts ≡ E.parts)
        × (entries.parts ≡ ALL_PARTS) }
    requires moved { (moved.name ≡ M.name) × (moved.parts ≡ M.parts)
        × (moved.parts ≡ ALL_PARTS) }
    requires marks { (marks.name ≡ K.name) × (marks.parts ≡ K.parts)
        × (marks.parts ≡ ALL_PARTS) }
{
    let desk = Desk::<NullRecorder, E, M, K>::new(
        alloc,
        NullRecorder::new(),
        entries,
        moved,
        marks,
    );
    rings_over(alloc, locked(alloc, desk), wake)
}

/// Returns whether a writer that waits in one thread is handed the answer to a piece that a reader
/// submits in another.
fn serves_in_two_threads<
    E: Ledger + Send + Sync + 'static,
    M: Ledger + Send + Sync + 'static,
    K: Marks + Send + Sync + 'static,
    H: Hall<Entries = E, Moved = M, Marks = K> + Send,
    W: Threads + Drop,
>(
    rt: W,
    readers: &mut H,
    writers: &mut H,
    reading: &mut ClientIn<E, M, K>,
    writing: &mut ClientOut<E, M, K>,
) -> bool {
    let (asked, answered) = thread::join(
        &rt,
        || asks(readers, reading),
        || is_answered(writers, writing),
    );
    asked && answered
}

/// Returns whether the bytes that a client moved are counted after its passes are back, but not
/// earlier.
fn counts_what_it_moved<E: Ledger, M: Ledger, K: Marks, W: Wait + Copy + Drop>(
    hall: &mut LockedHall<NullRecorder, E, M, K, W>,
    client: Client<E, M, K>,
) -> bool {
    let out = hall.entries().is_none();
    let _ = hall.retire_client_in(client.0);
    let _ = hall.retire_client_out(client.1);
    out && hall.entries() == Some(3) && hall.moved() == Some(28)
}

fn serves_a_client<
    E: Ledger + Send + Sync + 'static,
    M: Ledger + Send + Sync + 'static,
    K: Marks + Send + Sync + 'static,
    W: Threads + Wait + Copy + Send + Sync + Drop + 'static,
>(
    rt: W,
    readers: &mut LockedHall<NullRecorder, E, M, K, W>,
    writers: &mut LockedHall<NullRecorder, E, M, K, W>,
    client: Client<E, M, K>,
) -> bool {
    let mut client = client;
    let served = serves_in_two_threads(rt, readers, writers, &mut client.0, &mut client.1);
    counts_what_it_moved(writers, client) && served
}

/// Returns whether a client is served by two handles.
fn serves_who_joins<
    E: Ledger + Send + Sync + 'static,
    M: Ledger + Send + Sync + 'static,
    K: Marks + Send + Sync + 'static,
    W: Threads + Wait + Copy + Send + Sync + Drop + 'static,
>(
    rt: W,
    readers: &mut LockedHall<NullRecorder, E, M, K, W>,
    writers: &mut LockedHall<NullRecorder, E, M, K, W>,
) -> bool {
    match readers.join() {
        Ok(client) => serves_a_client(rt, readers, writers, client),
        Err(_) => false,
    }
}

/// Returns whether a client is served by this handle and one more.
fn serves_beside<
    E: Ledger + Send + Sync + 'static,
    M: Ledger + Send + Sync + 'static,
    K: Marks + Send + Sync + 'static,
    W: Threads + Wait + Copy + Send + Sync + Drop + 'static,
>(rt: W, writers: &mut LockedHall<NullRecorder, E, M, K, W>) -> Result<bool, AllocError> {
    let mut readers = writers.handle()?;
    Ok(serves_who_joins(rt, &mut readers, writers))
}

fn serves<
    E: Ledger + Send + Sync + 'static,
    M: Ledger + Send + Sync + 'static,
    K: Marks + Send + Sync + 'static,
    W: Threads + Wait + Copy + Send + Sync + Drop + 'static,
>(rt: W, alloc: Global, entries: Blank, moved: Blank, marks: Blank) -> Result<bool, AllocError>
    requires entries { (entries.name ≡ E.name) × (entries.parts ≡ E.parts)
        × (entries.parts ≡ ALL_PARTS) }
    requires moved { (moved.name ≡ M.name) × (moved.parts ≡ M.parts)
        × (moved.parts ≡ ALL_PARTS) }
    requires marks { (marks.name ≡ K.name) × (marks.parts ≡ K.parts)
        × (marks.parts ≡ ALL_PARTS) }
{
    let recorder = NullRecorder::new();
    let mut writers = LockedHall::<NullRecorder, E, M, K, W>::new(
        rt, alloc, recorder, entries, moved, marks,
    )?;
    serves_beside(rt, &mut writers)
}

fn rings_by_brand(alloc: Global, wake: Wake) -> Result<bool, AllocError> {
    rings::<Brand, Brand, Brand>(
        alloc,
        wake,
        Blank::new(ALL_PARTS),
        Blank::new(ALL_PARTS),
        Blank::new(ALL_PARTS),
    )
}

/// Returns the index of the first event after which the wrong number of workers is notified.
pub fn first_wrong_wake(alloc: Global) -> Result<Option<usize>, AllocError> {
    for (at, &wake) in WAKES.iter().enumerate() {
        if !rings_by_brand(alloc, wake)? {
            return Ok(Some(at));
        }
    }
    Ok(None)
}

/// Returns whether a client is served by two threads.
pub fn serves_by_brand<W: Threads + Wait + Copy + Send + Sync + Drop + 'static>(
    rt: W,
    alloc: Global,
) -> Result<bool, AllocError> {
    serves::<Brand, Brand, Brand, W>(
        rt,
        alloc,
        Blank::new(ALL_PARTS),
        Blank::new(ALL_PARTS),
        Blank::new(ALL_PARTS),
    )
}

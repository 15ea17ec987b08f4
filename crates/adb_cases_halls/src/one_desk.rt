//! A hall of one thread: its answers, the entries that it keeps, and its counts.

ghost use Rattle.std.specs.Prelude.{◌≡◌};
ghost use Rattle.adb_server_log.specs.declared.marks.TheConstants.{ALL_PARTS};

use crate::hands::{CNXN, Client, asks, hands_out, is_answered, len_of};
use adb_desk::Progress;
use adb_hub::{Handed, MAX_HELD, Room};
use adb_outside::{Cause, Kind};
use adb_recorder::MemoryRecorder;
use adb_server_hall::{ClientInOf, ClientOutOf, Hall, LinkInOf, LinkOutOf};
use adb_server_log::{ALL_PARTS, DeskError, LinkIn, LinkOut, Marks};
use adb_server_one_desk::OneDesk;
use std::alloc::{AllocError, Global};
use std::marker::Brand;
use std::sync::ledger::{Blank, Ledger};

/// Returns whether the answer of a read is `Later`.
fn is_late(answer: Result<Progress, DeskError>) -> bool {
    matches!(answer, Err(DeskError::Later))
}

/// Returns whether the answer of a call is `RecordFault`.
fn is_faulty(answer: Result<Progress, DeskError>) -> bool {
    matches!(answer, Err(DeskError::RecordFault))
}

/// The passes of a device.
type Device<E, M, K> = (LinkIn<E, M, K>, LinkOut<E, M, K>);

/// The passes of a client of a hall.
type ClientOf<H: Hall> = (ClientInOf<H>, ClientOutOf<H>);

/// The passes of a device of a hall.
type DeviceOf<H: Hall> = (LinkInOf<H>, LinkOutOf<H>);

/// Returns whether a piece that exceeds the limit of held bytes is refused with `Later`.
fn holds_so_much<H: Hall>(hall: &mut H, reading: &mut ClientInOf<H>, piece: &[u8]) -> bool {
    is_late(hall.read(reading, &piece[..piece.len().min(MAX_HELD + 1)]))
        && hall.room(reading) == Ok(Room::Bytes(MAX_HELD))
}

/// Returns whether a recorder that fails shuts the hall: every later call returns that answer.
fn is_shut_by_its_recorder<H: Hall>(hall: &mut H, reading: &mut ClientInOf<H>) -> bool {
    is_faulty(hall.read(reading, b"x"))
        && is_faulty(hall.end(reading, Cause::Eof))
        && hall.over() == Some(DeskError::RecordFault)
}

/// The device's answer to the first stream that is opened, and to a write on it.
const OKAY: &[u8] = b"OKAY\x07\0\0\0\x01\0\0\0\0\0\0\0\0\0\0\0\xb0\xb4\xbe\xa6";

/// The header of the device's write on that stream: 4,096 bytes.
const WRTE: &[u8] = b"WRTE\x07\0\0\0\x01\0\0\0\0\x10\0\0\0\0\0\0\xa8\xad\xab\xba";

/// Opens a stream to a device for a client, and sends until a write is out and the maximum number
/// of bytes is held. Returns whether each call succeeds.
fn fills_a_stream<H: Hall>(
    hall: &mut H,
    link: &mut LinkInOf<H>,
    reading: &mut ClientInOf<H>,
    piece: &[u8],
) -> bool {
    hall.recv(link, CNXN).is_ok()
        && hall
            .read(reading, b"0012host:transport-any0009shell:cat")
            .is_ok()
        && hall.recv(link, OKAY).is_ok()
        && hall.read(reading, &piece[..piece.len().min(4_096)]).is_ok()
        && hall
            .read(reading, &piece[..piece.len().min(MAX_HELD)])
            .is_ok()
}

/// Returns whether nothing more is taken while that write is out, and its answer makes room for the
/// next write.
fn frees_what_goes_up<H: Hall>(
    hall: &mut H,
    link: &mut LinkInOf<H>,
    reading: &mut ClientInOf<H>,
) -> bool {
    is_late(hall.read(reading, b"x"))
        && hall.room(reading) == Ok(Room::Later)
        && hall.recv(link, OKAY).is_ok()
        && hall.room(reading) == Ok(Room::Bytes(4_096))
}

/// Returns whether the bytes that are due before a large packet, a packet of 58 and one of 34
/// bytes, are handed out to the device first, and then the large packet alone.
fn sends_a_large_packet_alone<H: Hall>(hall: &mut H, sender: &mut LinkOutOf<H>) -> bool {
    len_of(hall.send_front(sender, MAX_HELD)) == 92
        && len_of(hall.send_front(sender, MAX_HELD)) == WRTE.len() + 4_096
        && len_of(hall.send_front(sender, MAX_HELD)) == 0
}

/// Returns whether the bytes that are due before a large payload are handed out to the client
/// first, and then the payload alone.
fn puts_a_large_payload_alone<H: Hall>(
    hall: &mut H,
    link: &mut LinkInOf<H>,
    writing: &mut ClientOutOf<H>,
    piece: &[u8],
) -> bool {
    hall.recv(link, WRTE).is_ok()
        && hall.recv(link, &piece[..piece.len().min(4_096)]).is_ok()
        && hands_out(hall.put_front(writing, MAX_HELD), b"OKAYOKAY")
        && len_of(hall.put_front(writing, MAX_HELD)) == 4_096
        && len_of(hall.put_front(writing, MAX_HELD)) == 0
}

/// A sequence of calls of a client and a device.
#[derive(Clone, Copy, Drop)]
enum Case {
    Counts,
    Holds,
    Frees,
    Fronts,
    Shuts,
    Enters,
}

impl Case {
    fn holds<H: Hall>(
        self,
        hall: &mut H,
        client: &mut ClientOf<H>,
        device: &mut DeviceOf<H>,
        piece: &[u8],
    ) -> bool {
        let (reading, writing) = client;
        let (link, sender) = device;
        match self {
            Case::Counts => asks(hall, reading) && is_answered(hall, writing),
            Case::Holds => holds_so_much(hall, reading, piece),
            Case::Frees => {
                fills_a_stream(hall, link, reading, piece)
                    && frees_what_goes_up(hall, link, reading)
            }
            Case::Fronts => {
                fills_a_stream(hall, link, reading, piece)
                    && sends_a_large_packet_alone(hall, sender)
                    && puts_a_large_payload_alone(hall, link, writing, piece)
            }
            Case::Shuts => is_shut_by_its_recorder(hall, reading),
            Case::Enters => matches!(hall.put(writing, MAX_HELD), Ok(Handed::Done)),
        }
    }
}

/// A case, and the call at which its recorder fails, 0 for none.
#[derive(Clone, Copy, Drop)]
struct Row {
    case: Case,
    /// The port of the forward through which the client comes, 0 for none.
    port: u16,
    failing: u64,
    /// The number of entries that are kept.
    entries: u64,
    /// The number of bytes that they move.
    moved: u64,
}

const ROWS: &[Row] = &[
    Row {
        case: Case::Counts,
        port: 0,
        failing: 0,
        entries: 4,
        moved: 28,
    },
    Row {
        case: Case::Holds,
        port: 0,
        failing: 0,
        entries: 2,
        moved: 0,
    },
    Row {
        case: Case::Frees,
        port: 0,
        failing: 0,
        entries: 8,
        moved: 69_751,
    },
    Row {
        case: Case::Fronts,
        port: 0,
        failing: 0,
        entries: 13,
        moved: 82_163,
    },
    Row {
        case: Case::Shuts,
        port: 0,
        failing: 3,
        entries: 2,
        moved: 0,
    },
    Row {
        case: Case::Enters,
        port: 80,
        failing: 0,
        entries: 2,
        moved: 0,
    },
];

/// Admits the first client and the first device.
fn seats<H: Hall>(hall: &mut H, port: u16) -> Option<(ClientOf<H>, DeviceOf<H>)> {
    let client = if port == 0 {
        hall.join().ok()
    } else {
        hall.enter(port).ok()
    };
    client.zip(hall.attach(Kind::Usb, b"emu1").ok())
}

/// Hands all passes back.
fn retire<E: Ledger, M: Ledger, K: Marks>(
    hall: &mut OneDesk<MemoryRecorder, E, M, K>,
    client: Client<E, M, K>,
    device: Device<E, M, K>,
) {
    hall.retire_client_in(client.0);
    hall.retire_client_out(client.1);
    hall.retire_link_in(device.0);
    hall.retire_link_out(device.1);
}

impl Row {
    /// Returns whether the row's number of entries was kept, and counted.
    fn counts<E: Ledger, M: Ledger, K: Marks>(
        self,
        hall: &mut OneDesk<MemoryRecorder, E, M, K>,
    ) -> bool {
        hall.recorder().entries().len() as u64 == self.entries
            && hall.entries() == Some(self.entries)
            && hall.moved() == Some(self.moved)
    }

    /// Returns whether the case holds, and its entries are counted after the passes are back, but
    /// not earlier.
    fn holds_of<E: Ledger, M: Ledger, K: Marks>(
        self,
        hall: &mut OneDesk<MemoryRecorder, E, M, K>,
        client: Client<E, M, K>,
        device: Device<E, M, K>,
        piece: &[u8],
    ) -> bool {
        let mut client = client;
        let mut device = device;
        let holds = self.case.holds(hall, &mut client, &mut device, piece);
        let out = hall.entries().is_none();
        retire(hall, client, device);
        holds && out && self.counts(hall)
    }
}

/// A hall on which a row is tried.
trait Trial: Drop {
    /// Returns whether the row holds of the first client and the first device.
    fn holds(&mut self, row: Row, piece: &[u8]) -> bool;
}

impl<E: Ledger, M: Ledger, K: Marks> Trial for OneDesk<MemoryRecorder, E, M, K> {
    fn holds(&mut self, row: Row, piece: &[u8]) -> bool {
        match seats(self, row.port) {
            Some((client, device)) => row.holds_of(self, client, device, piece),
            None => false,
        }
    }
}

/// Owns the hall through a type parameter, so that its drop is proved once.
fn holds_over<T: Trial>(hall: T, row: Row, piece: &[u8]) -> bool {
    let mut hall = hall;
    hall.holds(row, piece)
}

fn tried<E: Ledger, M: Ledger, K: Marks>(
    row: Row,
    alloc: Global,
    failing: Vec<u64>,
    piece: &[u8],
    entries: Blank,
    moved: Blank,
    marks: Blank,
) -> bool
    requires entries { (entries.name ≡ E.name) × (entries.parts ≡ E.parts)
        × (entries.parts ≡ ALL_PARTS) }
    requires moved { (moved.name ≡ M.name) × (moved.parts ≡ M.parts)
        × (moved.parts ≡ ALL_PARTS) }
    requires marks { (marks.name ≡ K.name) × (marks.parts ≡ K.parts)
        × (marks.parts ≡ ALL_PARTS) }
    requires unsteady { K.steady → ⊥ }
{
    let recorder = MemoryRecorder::new(alloc, failing);
    let hall = OneDesk::<MemoryRecorder, E, M, K>::new(alloc, recorder, entries, moved, marks);
    holds_over(hall, row, piece)
}

fn holds(row: Row, alloc: Global) -> Result<bool, AllocError> {
    let piece = vec![in alloc; b'f'; MAX_HELD + 1]?;
    let failing = Vec::from_slice(alloc, &[row.failing])?;
    Ok(tried::<Brand, Brand, Brand>(
        row,
        alloc,
        failing,
        &piece,
        Blank::new(ALL_PARTS),
        Blank::new(ALL_PARTS),
        Blank::new(ALL_PARTS),
    ))
}

/// Returns the index of the first row that does not hold.
pub fn first_fault(alloc: Global) -> Result<Option<usize>, AllocError> {
    for (at, &row) in ROWS.iter().enumerate() {
        if !holds(row, alloc)? {
            return Ok(Some(at));
        }
    }
    Ok(None)
}

//! Workers over a hall of one thread: a device's writer whose first write fails, and a client's
//! reader that binds the port of a forward.

ghost use Rattle.std.specs.Prelude.{◌≡◌};
ghost use Rattle.adb_server_log.specs.declared.marks.TheConstants.{ALL_PARTS};

use adb_binder::MemoryBinder;
use adb_connections::{MemoryDeviceOut, MemoryIn, MemoryOut, OpenGate};
use adb_fakes::lines_of;
use adb_outside::{Kind, Text};
use adb_recorder::MemoryRecorder;
use adb_server_client_reader::read_client;
use adb_server_hall::Hall;
use adb_server_log::{ALL_PARTS, Marks};
use adb_server_one_desk::OneDesk;
use adb_server_writers::{write_client, write_device};
use std::alloc::{AllocError, Global};
use std::marker::Brand;
use std::sync::Wait;
use std::sync::ledger::{Blank, Ledger};

/// The first packet of a device that takes at most 4,096 bytes at once.
const CNXN: &[u8] = b"CNXN\x01\0\0\x01\0\x10\0\0\x08\0\0\0\0\0\0\0\xbc\xb1\xa7\xb1device::";

/// The maximum number of bytes that a client sends at once.
const PIECE: usize = 64;

/// The port that a binder gives first if it is asked for any.
const FIRST_PORT: u16 = 40_000;

/// A client that asks for a forward, and what its port holds at the end.
#[derive(Clone, Copy, Drop)]
struct Forward {
    sends: &'static [u8],
    /// The call of the binder that fails, 0 for none.
    failing: u64,
    holds: &'static [u8],
}

#[derive(Clone, Copy, Drop)]
enum Case {
    /// The first write of a device fails: it is unplugged, and no byte went out.
    Write,
    /// A client asks for a forward.
    Forward(Forward),
}

/// A case, and the entries of the hall's record after it.
#[derive(Clone, Copy, Drop)]
struct Row {
    case: Case,
    entries: &'static [u8],
}

const ROWS: &[Row] = &[
    Row {
        case: Case::Write,
        entries: b"Attach 1\nSend 1 58\nDetach 1 Fault\n",
    },
    Row {
        case: Case::Forward(Forward {
            sends: b"001chost:forward:tcp:40000;echo:",
            failing: 0,
            holds: b"OKAYOKAY",
        }),
        entries: b"Attach 1\nRecv 1 32\nJoin 1\nRead 1 32\nBound 1 40000\nPut 1 8\n",
    },
    Row {
        case: Case::Forward(Forward {
            sends: b"001chost:forward:tcp:40000;echo:",
            failing: 1,
            holds: b"FAIL0014cannot bind listener",
        }),
        entries: b"Attach 1\nRecv 1 32\nJoin 1\nRead 1 32\nBound 1 0\nPut 1 28\n",
    },
    Row {
        case: Case::Forward(Forward {
            sends: b"0018host:forward:tcp:0;echo:",
            failing: 0,
            holds: b"OKAYOKAY000540000",
        }),
        entries: b"Attach 1\nRecv 1 32\nJoin 1\nRead 1 28\nBound 1 40000\nPut 1 17\n",
    },
];

/// Returns whether a device whose first write fails is unplugged, and no byte went out.
fn fails_to_write<H: Hall, W: Wait + Copy + Drop>(
    rt: W,
    alloc: Global,
    hall: &mut H,
) -> Result<bool, AllocError> {
    let Ok((_reading, writing)) = hall.attach(Kind::Usb, b"emu1") else {
        return Ok(false);
    };
    let mut output = MemoryDeviceOut::new(alloc, Vec::from_slice(alloc, &[1])?);
    let _pass = write_device(rt, hall, &mut output, writing, &OpenGate::new());
    Ok(output.is_unplugged() && output.bytes().is_empty())
}

/// Returns whether a client that asks for a forward of a connected device is answered as it should
/// be, and its port is closed.
fn forwards<H: Hall, W: Wait + Copy + Drop>(
    rt: W,
    alloc: Global,
    hall: &mut H,
    forward: Forward,
) -> Result<bool, AllocError> {
    let Ok((mut link, _sender)) = hall.attach(Kind::Usb, b"emu1") else {
        return Ok(false);
    };
    if hall.recv(&mut link, CNXN).is_err() {
        return Ok(false);
    }
    let Ok((reading, writing)) = hall.join() else {
        return Ok(false);
    };
    let sends = Text::from_slice(alloc, forward.sends)?;
    let mut input = MemoryIn::new(sends, PIECE, Vec::new(alloc));
    let failing = Vec::from_slice(alloc, &[forward.failing])?;
    let mut binder = MemoryBinder::new(alloc, FIRST_PORT, failing);
    let mut output = MemoryOut::new(alloc, Vec::new(alloc));
    let gate = OpenGate::new();
    let _pass = read_client(rt, hall, &mut input, reading, &mut binder, &gate);
    let _pass = write_client(rt, hall, &mut output, writing, &gate);
    Ok(output.bytes() == forward.holds && output.is_closed())
}

/// A hall on which a row is tried.
trait Trial<W: Wait + Copy + Drop>: Drop {
    /// Returns whether the row holds.
    fn holds(&mut self, rt: W, alloc: Global, row: Row) -> Result<bool, AllocError>;
}

impl<E: Ledger, M: Ledger, K: Marks, W: Wait + Copy + Drop> Trial<W>
    for OneDesk<MemoryRecorder, E, M, K> {
    fn holds(&mut self, rt: W, alloc: Global, row: Row) -> Result<bool, AllocError> {
        let holds = match row.case {
            Case::Write => fails_to_write(rt, alloc, self)?,
            Case::Forward(forward) => forwards(rt, alloc, self, forward)?,
        };
        let entries = lines_of(alloc, self.recorder().entries())?;
        Ok(holds && entries.as_slice() == row.entries)
    }
}

/// Owns the hall through a type parameter, so that its drop is proved once.
fn holds_over<W: Wait + Copy + Drop, T: Trial<W>>(
    rt: W,
    alloc: Global,
    hall: T,
    row: Row,
) -> Result<bool, AllocError> {
    let mut hall = hall;
    hall.holds(rt, alloc, row)
}

fn tried<E: Ledger, M: Ledger, K: Marks, W: Wait + Copy + Drop>(
    rt: W,
    alloc: Global,
    row: Row,
    entries: Blank,
    moved: Blank,
    marks: Blank,
) -> Result<bool, AllocError>
    requires entries { (entries.name ≡ E.name) × (entries.parts ≡ E.parts)
        × (entries.parts ≡ ALL_PARTS) }
    requires moved { (moved.name ≡ M.name) × (moved.parts ≡ M.parts)
        × (moved.parts ≡ ALL_PARTS) }
    requires marks { (marks.name ≡ K.name) × (marks.parts ≡ K.parts)
        × (marks.parts ≡ ALL_PARTS) }
    requires unsteady { K.steady → ⊥ }
{
    let recorder = MemoryRecorder::new(alloc, Vec::new(alloc));
    let hall = OneDesk::<MemoryRecorder, E, M, K>::new(alloc, recorder, entries, moved, marks);
    holds_over(rt, alloc, hall, row)
}

fn holds<W: Wait + Copy + Drop>(rt: W, alloc: Global, row: Row) -> Result<bool, AllocError> {
    tried::<Brand, Brand, Brand, W>(
        rt,
        alloc,
        row,
        Blank::new(ALL_PARTS),
        Blank::new(ALL_PARTS),
        Blank::new(ALL_PARTS),
    )
}

/// Returns the index of the first row that does not hold.
pub fn first_fault<W: Wait + Copy + Drop>(
    rt: W,
    alloc: Global,
) -> Result<Option<usize>, AllocError> {
    for (at, &row) in ROWS.iter().enumerate() {
        if !holds(rt, alloc, row)? {
            return Ok(Some(at));
        }
    }
    Ok(None)
}

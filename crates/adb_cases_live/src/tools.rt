//! The client tools over a yard whose server answers what a row says.

use adb_fakes::{CalmYard, Sent};
use adb_outside::{MemorySink, MemorySource, Text};
use adb_server_yard::YardDevice;
use adb_top::{Status, run};
use std::alloc::{AllocError, Global};
use std::sync::Wait;
use std::thread::Threads;

/// The words of a tool, the bytes that it is answered, and everything that it does.
#[derive(Clone, Copy, Drop)]
struct Row {
    words: &'static [&'static str],
    source: &'static [u8],
    answers: &'static [u8],
    /// The bytes that the port got.
    got: &'static [u8],
    sink: &'static [u8],
    note: &'static [u8],
    status: Status,
}

const DEVICES: Row = Row {
    words: &["devices"],
    source: b"",
    answers: b"OKAY000cemu1\tdevice\n",
    got: b"000chost:devices",
    sink: b"emu1\tdevice\n",
    note: b"",
    status: Status::Done,
};

const ROWS: &[Row] = &[
    DEVICES,
    Row {
        words: &["pull", "/a", "--serial", "x"],
        answers: b"FAIL0014device 'x' not found",
        got: b"0010host:transport:x",
        sink: b"",
        note: b"adbhub: refused: device 'x' not found\n",
        status: Status::Refused,
        ..DEVICES
    },
    Row {
        words: &["shell", "echo hi"],
        answers: b"OKAYOKAY\x01\x03\0\0\0hi\n\x03\x01\0\0\0\0",
        got: b"0012host:transport-any0014shell,v2,raw:echo hi\x04\0\0\0\0",
        sink: b"hi\n",
        note: b"exit 0\n",
        ..DEVICES
    },
    Row {
        answers: b"OKAX",
        sink: b"",
        note: b"adbhub: bad answer at byte 3\n",
        status: Status::BadAnswer,
        ..DEVICES
    },
    Row {
        words: &["push", "/a", "--mtime=5"],
        source: b"abc",
        answers: b"OKAYOKAYOKAY\0\0\0\0",
        got: b"0012host:transport-any0005sync:SEND\x08\0\0\0/a,33188DATA\x03\0\0\0abc\
            DONE\x05\0\0\0",
        sink: b"pushed 3\n",
        ..DEVICES
    },
    Row {
        words: &["wait", "emu1", "device"],
        answers: b"OKAY0000000demu1\toffline\n000cemu1\tdevice\n",
        got: b"0012host:track-devices",
        sink: b"",
        ..DEVICES
    },
];

/// Returns the words of a command line.
fn words_of(alloc: Global, row: Row) -> Result<Vec<String>, AllocError> {
    let mut words = Vec::new(alloc);
    for word in row.words {
        words.push(String::from_str(alloc, word)?)?;
    }
    Ok(words)
}

/// Returns whether a tool ends as the row says and writes nothing else.
fn ends<W: Threads + Wait + Copy + Send + Sync + Drop + 'static>(
    rt: W,
    alloc: Global,
    row: Row,
    yard: CalmYard<W>,
) -> Result<bool, AllocError> {
    let words = words_of(alloc, row)?;
    let source = Text::from_slice(alloc, row.source)?;
    let mut source = MemorySource::new(source, 2, Vec::new(alloc));
    let mut sink = MemorySink::new(alloc, Vec::new(alloc));
    let mut note = MemorySink::new(alloc, Vec::new(alloc));
    let devices: Vec<YardDevice<CalmYard<W>>> = Vec::new(alloc);
    let ran = run(
        rt,
        alloc,
        &words,
        &mut source,
        &mut sink,
        &mut note,
        yard,
        devices,
    );
    Ok(ran.status == row.status && sink.bytes() == row.sink && note.bytes() == row.note)
}

/// Returns whether a tool ends as the row says, and the port got what the row says.
fn holds<W: Threads + Wait + Copy + Send + Sync + Drop + 'static>(
    rt: W,
    alloc: Global,
    row: Row,
) -> Result<bool, AllocError> {
    let mut yard = CalmYard::new(rt, alloc, true);
    let port: Sent<W> = yard.answer(row.answers)?;
    Ok(ends(rt, alloc, row, yard)? && port.holds(row.got))
}

/// Returns the index of the first row that does not hold.
pub fn first_fault<W: Threads + Wait + Copy + Send + Sync + Drop + 'static>(
    rt: W,
    alloc: Global,
) -> Result<Option<usize>, AllocError> {
    for (at, &row) in ROWS.iter().enumerate() {
        if !holds(rt, alloc, row)? {
            return Ok(Some(at));
        }
    }
    Ok(None)
}

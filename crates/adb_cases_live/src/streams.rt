//! System streams that transfer fewer bytes than asked, are interrupted, or fail.

ghost use Rattle.std.specs.Prelude.{◌≤◌, IfOk};

use adb_outside::{Got, Sink, Source, Wrote};
use adb_serving::Stream;
use std::alloc::{AllocError, Global};
use std::io;
use std::io::{ErrorKind, Read, Write};

/// The effect of a call of a fake stream.
#[derive(Clone, Copy, Drop)]
enum Step {
    /// The call moves at most this many bytes.
    Moves(usize),
    /// The call fails with this error.
    Fails(ErrorKind),
}

/// A stream that performs the steps in turn, one a call, and then moves nothing. The bytes that are
/// read count up from 1, and those that are written are kept.
#[derive(Drop)]
struct Fake {
    steps: Vec<Step>,
    calls: usize,
    given: u8,
    kept: Vec<u8>,
}

impl Fake {
    fn new(alloc: Global, steps: &[Step]) -> Result<Fake, AllocError> {
        Ok(Fake {
            steps: Vec::from_slice(alloc, steps)?,
            calls: 0,
            given: 0,
            kept: Vec::new(alloc),
        })
    }

    /// Returns how many of `len` bytes the next call moves.
    fn step(&mut self, len: usize) -> io::Result<usize>
        ensures { IfOk result (λ count. count ≤ len) }
    {
        let step = self.steps.get(self.calls).copied();
        self.calls = self.calls.saturating_add(1);
        match step {
            None => Ok(0),
            Some(Step::Moves(count)) => Ok(count.min(len)),
            Some(Step::Fails(kind)) => Err(io::Error::from(kind)),
        }
    }
}

impl Read for Fake {
    fn read(&mut self, into: &mut [u8]) -> io::Result<usize> {
        let count = self.step(into.len())?;
        for byte in &mut into[..count] {
            self.given = self.given.wrapping_add(1);
            *byte = self.given;
        }
        Ok(count)
    }
}

impl Write for &mut Fake {
    fn write(&mut self, piece: &[u8]) -> io::Result<usize> {
        let count = self.step(piece.len())?;
        self.kept.extend_from_slice(&piece[..count])?;
        Ok(count)
    }

    fn flush(&mut self) -> io::Result<()> {
        Ok(())
    }
}

const READS: &[Step] = &[
    Step::Fails(ErrorKind::Interrupted),
    Step::Moves(9),
    Step::Fails(ErrorKind::Other),
    Step::Moves(1),
];

/// The results of reads into two bytes, and the contents of the buffer after each.
const GOT: &[(Got, [u8; 2])] = &[
    (Got::Bytes(2), [1, 2]),
    (Got::Failed, [1, 2]),
    (Got::Bytes(1), [3, 2]),
    (Got::End, [3, 2]),
];

/// Returns the index of the first read with another result.
pub fn first_bad_read(alloc: Global) -> Result<Option<usize>, AllocError> {
    let mut source = Stream::new(Fake::new(alloc, READS)?);
    Ok(bad_read(&mut source))
}

fn bad_read(source: &mut impl Source) -> Option<usize> {
    let mut into = [0; 2];
    for (at, &(want, bytes)) in GOT.iter().enumerate() {
        if source.read(&mut into) != want || into != bytes {
            return Some(at);
        }
    }
    None
}

const WRITES: &[Step] = &[
    Step::Moves(1),
    Step::Fails(ErrorKind::Interrupted),
    Step::Moves(9),
    Step::Moves(1),
    Step::Fails(ErrorKind::BrokenPipe),
];

/// The pieces that are written, and the results of their writes.
const WROTE: &[(&[u8; 3], Wrote)] = &[
    (b"abc", Wrote::All),
    (b"def", Wrote::Failed { taken: 1 }),
    (b"ghi", Wrote::Failed { taken: 0 }),
];

fn bad_write(sink: &mut impl Sink) -> Option<usize> {
    for (at, &(piece, want)) in WROTE.iter().enumerate() {
        if sink.write(piece) != want {
            return Some(at);
        }
    }
    None
}

/// Returns the index of the first write with another result, or the number of writes if the stream
/// does not keep the bytes that the writes took.
pub fn first_bad_write(alloc: Global) -> Result<Option<usize>, AllocError> {
    let mut written = Fake::new(alloc, WRITES)?;
    Ok(match bad_write(&mut Stream::new(&mut written)) {
        Some(at) => Some(at),
        None if written.kept.as_slice() == b"abcd".as_slice() => None,
        None => Some(WROTE.len()),
    })
}

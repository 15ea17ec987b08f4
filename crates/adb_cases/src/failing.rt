//! Tools with ports, sinks or notes that fail.

ghost use Rattle.std.specs.Prelude.{IfOk};
ghost use Rattle.adb_remote_words.specs.Words.{HasWords};

use adb_asking::{ToolEnd, ask};
use adb_connections::{MemoryIn, MemoryOut};
use adb_outside::{MemorySink, Text};
use adb_remote_words::Remote;
use std::alloc::{AllocError, Global};
use std::sync::Wait;

/// The request of a tool.
#[derive(Clone, Copy, Drop)]
enum Asks {
    Pull,
    Shell,
}

/// A tool; the numbers of the read and the write of its port that fail, and of the writes of its
/// sink and its note that fail, 0 for none; and whether the fault of the port is reported, and not
/// that of a write.
#[derive(Clone, Copy, Drop)]
struct Row {
    asks: Asks,
    read: u64,
    write: u64,
    sink: u64,
    note: u64,
    is_port: bool,
}

/// A pull in which nothing fails yet.
const PULL: Row = Row {
    asks: Asks::Pull,
    read: 0,
    write: 0,
    sink: 0,
    note: 0,
    is_port: true,
};

/// A command that writes to both of its outputs.
const SHELL: Row = Row {
    asks: Asks::Shell,
    is_port: false,
    ..PULL
};

const ROWS: &[Row] = &[
    Row { read: 1, ..PULL },
    Row { read: 9, ..PULL },
    Row { write: 1, ..PULL },
    Row { write: 2, ..PULL },
    Row { write: 3, ..PULL },
    Row { sink: 1, ..SHELL },
    Row { note: 1, ..SHELL },
    Row { note: 2, ..SHELL },
];

impl Asks {
    fn job(self, alloc: Global) -> Result<Remote, AllocError>
        ensures { IfOk result HasWords }
    {
        match self {
            Asks::Pull => Ok(Remote::Pull {
                path: Text::from_slice(alloc, b"/a")?,
            }),
            Asks::Shell => Ok(Remote::Shell {
                command: Text::from_slice(alloc, b"echo hi")?,
            }),
        }
    }

    /// Returns the server's answer.
    fn answer(self) -> &'static [u8] {
        match self {
            Asks::Pull => b"OKAYOKAYDONE\0\0\0\0",
            Asks::Shell => b"OKAYOKAY\x01\x01\0\0\0a\x02\x01\0\0\0b\x03\x01\0\0\0\0",
        }
    }
}

fn failing(alloc: Global, call: u64) -> Result<Vec<u64>, AllocError> {
    Vec::from_slice(alloc, &[call])
}

impl Row {
    /// Returns the port, which yields one byte a read.
    fn input(&self, alloc: Global) -> Result<MemoryIn, AllocError> {
        let answer = Text::from_slice(alloc, self.asks.answer())?;
        Ok(MemoryIn::new(answer, 1, failing(alloc, self.read)?))
    }

    /// Returns whether the tool ends as expected over a port.
    fn ends<W: Wait + Copy + Drop>(
        &self,
        rt: W,
        alloc: Global,
        job: &Remote,
        input: &mut MemoryIn,
        output: &mut MemoryOut,
    ) -> Result<bool, AllocError>
        requires { HasWords job.now }
    {
        let mut sink = MemorySink::new(alloc, failing(alloc, self.sink)?);
        let mut note = MemorySink::new(alloc, failing(alloc, self.note)?);
        let end = ask(rt, alloc, job, None, input, output, &mut sink, &mut note);
        Ok(match end {
            ToolEnd::PortFault => self.is_port,
            ToolEnd::WriteFault => !self.is_port,
            _ => false,
        })
    }

    /// Returns whether the tool ends as expected.
    fn holds<W: Wait + Copy + Drop>(&self, rt: W, alloc: Global) -> Result<bool, AllocError> {
        let job = self.asks.job(alloc)?;
        let mut input = self.input(alloc)?;
        let mut output = MemoryOut::new(alloc, failing(alloc, self.write)?);
        self.ends(rt, alloc, &job, &mut input, &mut output)
    }
}

/// Returns the index of the first row that does not hold.
pub fn first_fault<W: Wait + Copy + Drop>(
    rt: W,
    alloc: Global,
) -> Result<Option<usize>, AllocError> {
    for (at, row) in ROWS.iter().enumerate() {
        if !row.holds(rt, alloc)? {
            return Ok(Some(at));
        }
    }
    Ok(None)
}

//! The two halves of a client's connection.

ghost use Rattle.std.specs.Prelude.{◌≡◌, false, IfOk};

use crate::ending::Ending;
use crate::lookout::KILL;
use crate::socket::{receive, send, set_up};
use adb_connections::{PortIn, PortOut};
use adb_outside::{Got, Wrote};
use std::alloc::{AllocError, Global};
use std::io;
use std::net::{Shutdown, TcpStream};
use std::sync::{Arc, Wait};

/// The read half of a client's connection. If the first piece that it reads is a request to end the
/// server, it hurries the server. Contracts do not see its bytes.
#[derive(Drop)]
pub struct TcpIn {
    stream: Arc<TcpStream, Global>,
    ending: Ending,
    is_first: bool,
    faults: u64,
}

/// The write half of a client's connection. A write to a client that does not read blocks until the
/// server ends, and then fails. Contracts do not see its bytes.
#[derive(Drop)]
pub struct TcpOut {
    stream: Arc<TcpStream, Global>,
    ending: Ending,
    closed: bool,
    faults: u64,
}

/// Makes the two halves of a connection that was dialled.
///
/// Fails if the system cannot set up the stream, or if an allocation fails. The stream is then
/// closed.
pub fn halves(alloc: Global, stream: TcpStream, ending: &Ending) -> io::Result<(TcpIn, TcpOut)>
    ensures { IfOk result (λ ends. (ends.0.faults ≡ 0) × (ends.1.faults ≡ 0)
        × (ends.1.closed ≡ false)) }
{
    set_up(&stream)?;
    Ok(accepted(alloc, stream, ending)?)
}

/// Makes the two halves of a connection that was accepted at a listener that is set up.
///
/// Fails if an allocation fails. The stream is then closed.
pub fn accepted(
    alloc: Global,
    stream: TcpStream,
    ending: &Ending,
) -> Result<(TcpIn, TcpOut), AllocError>
    ensures { IfOk result (λ ends. (ends.0.faults ≡ 0) × (ends.1.faults ≡ 0)
        × (ends.1.closed ≡ false)) }
{
    let stream = Arc::new(alloc, stream)?;
    let input = TcpIn {
        stream: Arc::try_clone(&stream)?,
        ending: ending.share()?,
        is_first: true,
        faults: 0,
    };
    let output = TcpOut {
        stream,
        ending: ending.share()?,
        closed: false,
        faults: 0,
    };
    Ok((input, output))
}

impl TcpIn {
    /// Tells the lookout of the server that this connection has come, and is not read yet.
    pub fn enter<W: Wait>(&self, rt: &W) {
        self.ending.lookout().enter(rt, &self.stream);
    }

    /// Hurries the server if this is the connection's first piece and asks for a kill.
    fn look_at(&mut self, piece: &[u8])
        ensures { self.new.faults ≡ self.old.faults }
    {
        if self.is_first && piece == KILL.as_slice() {
            self.ending.hurry();
        }
        self.is_first = false;
    }
}

impl PortIn for TcpIn {
    ghost use Rattle.std.specs.Prelude.{None};

    ghost faults = { λ port. port.faults };

    ghost left = { λ port. None };

    ghost steady = { λ port. ⊥ };

    fn read(&mut self, into: &mut [u8]) -> Got {
        let got = receive(&self.stream, into);
        match got {
            Got::Bytes(count) => self.look_at(&into[..count]),
            Got::Failed => self.faults = self.faults.saturating_add(1),
            Got::End => {}
        }
        got
    }
}

impl PortOut for TcpOut {
    ghost use Rattle.std.specs.Prelude.{None};

    ghost faults = { λ port. port.faults };

    ghost written = { λ port. None };

    ghost closed = { λ port. port.closed };

    ghost steady = { λ port. ⊥ };

    fn write(&mut self, piece: &[u8]) -> Wrote {
        self.write_both(&[], piece)
    }

    /// Writes both parts with one system call, if that call takes them whole.
    fn write_both(&mut self, start: &[u8], rest: &[u8]) -> Wrote {
        let wrote = send(&self.stream, &self.ending, start, rest);
        if wrote != Wrote::All {
            self.faults = self.faults.saturating_add(1);
        }
        wrote
    }

    /// Shuts down both directions, which also ends the reads of the other half. Bytes that were
    /// written are still sent.
    fn close(&mut self) {
        let _ = self.stream.shutdown(Shutdown::Both);
        self.closed = true;
    }
}

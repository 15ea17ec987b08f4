//! A server over a yard in which nothing fails: what its ports hold at the end, and its record.

use crate::clients::{ASK_VERSION, KILL, KILLED, VERSION, serve_clients};
use adb_fakes::{CalmYard, Sent, lines_of};
use adb_outside::MemorySink;
use adb_server::{Ended, Served};
use std::alloc::{AllocError, Global};
use std::sync::Wait;
use std::thread::Threads;

/// The note of the server.
const NOTE: &[u8] = b"adbhub: listening on 127.0.0.1:5037\n";

/// A client of a row.
#[derive(Clone, Copy, Drop)]
struct Client {
    /// The port of the forward through which it comes, 0 if it comes to the server's own port.
    port: u16,
    sends: &'static [u8],
    /// The bytes that its port holds at the end.
    holds: &'static [u8],
}

const ASKS: Client = Client {
    port: 0,
    sends: ASK_VERSION,
    holds: VERSION,
};

const KILLS: Client = Client {
    port: 0,
    sends: KILL,
    holds: KILLED,
};

/// A client that comes through a port below 1,024, for which there is no forward: it is gone at
/// once.
const ENTERS: Client = Client {
    port: 80,
    sends: ASK_VERSION,
    holds: b"",
};

/// The clients of a server in order, and the entries of its record.
#[derive(Clone, Copy, Drop)]
struct Row {
    clients: &'static [Client],
    entries: &'static [u8],
}

const ROWS: &[Row] = &[
    Row {
        clients: &[ASKS, ASKS, KILLS],
        entries: b"Join 1\nRead 1 16\nPut 1 12\nJoin 2\nRead 2 16\nPut 2 12\nJoin 3\nRead 3 13\n\
            Put 3 4\n",
    },
    Row {
        clients: &[ENTERS, KILLS],
        entries: b"Enter 1 80\nJoin 2\nRead 2 13\nPut 2 4\n",
    },
];

fn is_answered<W: Wait + Copy + Drop>(port: &Sent<W>, client: &Client) -> bool {
    port.holds(client.holds) && port.is_closed()
}

/// Returns whether a server is done after a kill, its ports hold what the row says and are closed,
/// and it returns its recorder with every entry.
fn holds<W: Threads + Wait + Copy + Send + Sync + Drop + 'static>(
    rt: W,
    alloc: Global,
    row: Row,
) -> Result<bool, AllocError> {
    let mut yard = CalmYard::new(rt, alloc, false);
    let mut ports = Vec::new(alloc);
    for client in row.clients {
        ports.push(yard.call_at(client.port, client.sends)?)?;
    }
    let mut note = MemorySink::new(alloc, Vec::new(alloc));
    let Ended { served, recorder } = serve_clients(rt, alloc, yard, true, &mut note);
    let Some(recorder) = recorder else {
        return Ok(false);
    };
    let entries = lines_of(alloc, recorder.entries())?;
    Ok(
        served == Served::Done
            && note.bytes() == NOTE
            && entries.as_slice() == row.entries
            && ports
                .iter()
                .zip(row.clients)
                .all(|(port, client)| is_answered(port, client)),
    )
}

/// Returns the index of the first row that does not hold.
pub fn first_fault<W: Threads + Wait + Copy + Send + Sync + Drop + 'static>(
    rt: W,
    alloc: Global,
) -> Result<Option<usize>, AllocError> {
    for (at, &row) in ROWS.iter().enumerate() {
        if !holds(rt, alloc, row)? {
            return Ok(Some(at));
        }
    }
    Ok(None)
}

//! A caller of a hall: the two workers of one client.

ghost use Rattle.adb_examples.specs.Served.{Serves};

use adb_binder::MemoryBinder;
use adb_connections::{MemoryIn, MemoryOut, OpenGate};
use adb_recorder::MemoryRecorder;
use adb_server_client_reader::read_client;
use adb_server_hall::Hall;
use adb_server_log::{DeskError, Marks};
use adb_server_one_desk::OneDesk;
use adb_server_writers::write_client;
use std::sync::Wait;
use std::sync::ledger::Ledger;

/// Serves one client: its reader submits what it sends, and its writer writes what is due to it.
/// Returns its number. The error is that of the hall, if it is shut or a kill was made.
pub fn serve_one<W: Wait + Copy + Drop, E: Ledger, M: Ledger, K: Marks>(
    rt: W,
    hall: &mut OneDesk<MemoryRecorder, E, M, K>,
    input: &mut MemoryIn,
    output: &mut MemoryOut,
    binder: &mut MemoryBinder,
) -> Result<u32, DeskError>
    ensures { Serves hall.old.desk hall.new.desk output.old.sink output.new.sink result }
{
    let (reading, writing) = hall.join()?;
    let client = reading.number();
    let reading = read_client(rt, hall, input, reading, binder, &OpenGate::new());
    hall.retire_client_in(reading);
    if let Some(error) = hall.over() {
        return Err(error);
    }
    let writing = write_client(rt, hall, output, writing, &OpenGate::new());
    hall.retire_client_out(writing);
    Ok(client)
}

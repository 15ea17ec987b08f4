//! The line of the note that names the port on which the server listens.

ghost use Rattle.std.specs.Prelude.{◌≡◌, ◌<◌, IfOk, length};
ghost use Rattle.adb_outside.specs.Outside.{Counts};
ghost use Rattle.adb_server.specs.Served.{HasAnnounced, listening_line, is_write_fault_in};

use crate::server::Served;
use adb_outside::{Sink, Text, Wrote};
use itoa::Buffer;
use std::alloc::{AllocError, Global};

/// Writes to the note the line that names the port on which the server listens.
///
/// - `WriteFault`: the write failed.
/// - `OutOfMemory`: an allocation failed.
pub(crate) fn announce<N: Sink>(alloc: Global, note: &mut N, port: u16) -> Result<(), Served>
    ensures announced { HasAnnounced port result (N.written note.old) (N.written note.new) }
    ensures counts { Counts N.steady N.faults note.old note.new (is_write_fault_in result) }
{
    let Ok(line) = listening_line(alloc, port) else {
        return Err(Served::OutOfMemory);
    };
    match note.write(line.as_slice()) {
        Wrote::All => Ok(()),
        Wrote::Failed { taken: _ } => Err(Served::WriteFault),
    }
}

/// Returns the line that names the port on which the server listens.
#[tactic(auto, unfolding(crate::specs::Served::listening_line))]
fn listening_line(alloc: Global, port: u16) -> Result<Text, AllocError>
    ensures line { IfOk result (λ line. line ≡ listening_line port) }
    ensures some { IfOk result (λ line. 0 < length line) }
{
    let mut digits = Buffer::new();
    let mut line = Text::from_slice(alloc, b"adbhub: listening on 127.0.0.1:")?;
    line.push_slice(digits.format(port).as_bytes())?;
    line.push_slice(b"\n")?;
    Ok(line)
}

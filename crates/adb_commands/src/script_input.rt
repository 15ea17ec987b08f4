//! Reading a script.

ghost use Rattle.std.specs.Prelude.{◌≡◌, ◌≤◌, ◌<◌, ◌-◌, IfOk, length};
ghost use Rattle.adb_outside.specs.Outside.{Counts};
ghost use Rattle.adb_commands.specs.ScriptInput.{ReadsPiece, ReadsScript, ReadsWithin};
ghost use Rattle.adb_commands.specs.ScriptStop.{IsReadEnd, stops_reading};

use crate::script_stop::ScriptStop;
use adb_outside::{Got, Source, Text};
use adb_script::MAX_SCRIPT;
use std::alloc::{AllocError, Global};

/// The maximum number of bytes that are read of a script: one more than it may have.
pub const MAX_SCRIPT_READ: usize = MAX_SCRIPT + 1;

/// States that the number that definitions take from the code is that of the specification.
pub fn limits_are()
    ensures script { MAX_SCRIPT_READ ≡ 1048577 }
{}

/// The maximum number of bytes that are read at once.
const PIECE: usize = 65_536;

/// Reads a script, up to the end of its source or up to the first byte that exceeds the maximum
/// length.
///
/// - `ReadFault`: the source failed.
/// - `OutOfMemory`: an allocation failed.
pub fn read_script<S: Source>(alloc: Global, source: &mut S) -> Result<Text, ScriptStop>
    ensures script { IfOk result (λ script. ReadsScript script
        (S.left source.old) (S.left source.new)) }
    ensures within { ReadsWithin (S.left source.old) (S.left source.new) }
    ensures ends { IsReadEnd result }
    ensures counts { Counts S.steady S.faults source.old source.new (stops_reading result) }
{
    let mut script = Text::new(alloc);
    let mut buffer = [0u8; PIECE];
    while read_piece(source, &mut script, &mut buffer)? {}
    Ok(script)
}

/// Reads a piece and appends it to a script. Returns `false` if the script may have no more bytes,
/// or if the source is at its end.
fn read_piece<S: Source>(
    source: &mut S,
    script: &mut Text,
    buffer: &mut [u8; PIECE],
) -> Result<bool, ScriptStop>
    requires { length script.old ≤ MAX_SCRIPT_READ }
    ensures piece { ReadsPiece (S.left source.old) (S.left source.new)
        script.old script.new (MAX_SCRIPT_READ - length script.old) result }
    ensures ends { IsReadEnd result }
    ensures counts { Counts S.steady S.faults source.old source.new (stops_reading result) }
{
    let room = PIECE.min(MAX_SCRIPT_READ - script.len());
    if room == 0 {
        return Ok(false);
    }
    read_into(source, script, &mut buffer[..room])
}

/// Reads at most as many bytes as `piece` has room for, and appends them to a script. Returns
/// `false` if the source is at its end.
fn read_into<S: Source>(
    source: &mut S,
    script: &mut Text,
    piece: &mut [u8],
) -> Result<bool, ScriptStop>
    requires { 0 < length piece.old }
    ensures piece { ReadsPiece (S.left source.old) (S.left source.new)
        script.old script.new (length piece.old) result }
    ensures ends { IsReadEnd result }
    ensures counts { Counts S.steady S.faults source.old source.new (stops_reading result) }
{
    match source.read(piece) {
        Got::Bytes(count) => match script.push_slice(&piece[..count]) {
            Ok(()) => Ok(true),
            Err(AllocError) => Err(ScriptStop::OutOfMemory),
        },
        Got::End => Ok(false),
        Got::Failed => Err(ScriptStop::ReadFault),
    }
}

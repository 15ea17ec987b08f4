//! Making a load, and writing its totals.

ghost use Rattle.std.specs.Prelude.{◌≡◌, ◌<◌, IfOk, length};
ghost use Rattle.adb_outside.specs.Outside.{Counts};
ghost use Rattle.adb_run_load.specs.Totals.{totals_of};
ghost use Rattle.adb_commands.specs.Loads.{IsLoadSize, GeneratesLines, lines_of, load_lines, made};
ghost use Rattle.adb_commands.specs.Loads.{loses_load};

use crate::load_stop::LoadStop;
use crate::texts::push_line;
use adb_hub::Hub;
use adb_outside::{Sink, Text, Wrote};
use adb_run_load::{Totals, run_load};
use std::alloc::{AllocError, Global};

/// Makes the load of a seed and a number of streams in a hub of its own, and writes four lines: the
/// number of streams, and the totals of what went through.
///
/// - `WriteFault`: the sink failed. A prefix of the lines is written.
/// - `OutOfMemory`: an allocation failed. Nothing is written.
pub fn generate<K: Sink>(
    alloc: Global,
    seed: u64,
    streams: u16,
    sink: &mut K,
) -> Result<(), LoadStop>
    requires size { IsLoadSize streams }
    ensures writes { GeneratesLines result seed streams K.written sink.old sink.new }
    ensures counts { Counts K.steady K.faults sink.old sink.new (loses_load result) }
{
    let lines = load_lines(alloc, seed, streams)?;
    match sink.write(lines.as_slice()) {
        Wrote::All => Ok(()),
        Wrote::Failed { taken: _ } => Err(LoadStop::WriteFault),
    }
}

/// Makes the load of a seed and a number of streams, and returns its lines.
fn load_lines(alloc: Global, seed: u64, streams: u16) -> Result<Text, AllocError>
    requires size { IsLoadSize streams }
    ensures lines { IfOk result (λ lines. lines ≡ load_lines seed streams) }
    ensures some { IfOk result (λ lines. 0 < length lines) }
{
    let totals = totals_made(alloc, seed, streams)?;
    lines_of(alloc, streams, totals)
}

/// Makes the load of a seed and a number of streams in a hub of its own, and returns its totals.
fn totals_made(alloc: Global, seed: u64, streams: u16) -> Result<Totals, AllocError>
    requires size { IsLoadSize streams }
    ensures { IfOk result (λ totals. totals ≡ totals_of (made seed streams)) }
{
    let mut hub = Hub::new(alloc);
    run_load(alloc, &mut hub, seed, u32::from(streams))
}

/// Returns the lines of a load.
#[tactic(auto, unfolding(crate::specs::Loads::line))]
fn lines_of(alloc: Global, streams: u16, totals: Totals) -> Result<Text, AllocError>
    ensures lines { IfOk result (λ lines. lines ≡ lines_of streams totals) }
    ensures some { IfOk result (λ lines. 0 < length lines) }
{
    let mut lines = Text::new(alloc);
    push_line(&mut lines, b"streams ", u64::from(streams))?;
    push_line(&mut lines, b"up ", totals.up)?;
    push_line(&mut lines, b"down ", totals.down)?;
    push_line(&mut lines, b"entries ", totals.entries)?;
    Ok(lines)
}

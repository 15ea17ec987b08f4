//! The devices of a run.

ghost use Rattle.std.specs.Prelude.{Err};
ghost use Rattle.adb_words.specs.Serve.{is_serve};
ghost use Rattle.adb_top.specs.Wanted.{AsksForPorts};

use adb_words::{Ports, WordsError, is_serve, read_serve};
use std::alloc::Global;

/// Returns the devices that the words after the program's name ask for: the serials of the model
/// devices, and the ports of this machine to dial for the others. Words that do not serve ask for
/// none.
///
/// - `Usage`: the words begin with `serve` and are no command.
/// - `OutOfMemory`: an allocation failed.
pub fn wanted(alloc: Global, words: &[String]) -> Result<Ports, WordsError>
    ensures serve { AsksForPorts words.now result }
{
    if !is_serve(words) {
        return Ok(Ports {
            devices: Vec::new(alloc),
            connects: Vec::new(alloc),
        });
    }
    match read_serve(alloc, words) {
        Ok(serve) => Ok(serve.ports),
        Err(error) => Err(error),
    }
}

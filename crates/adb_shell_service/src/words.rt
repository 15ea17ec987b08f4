//! The words of a command.

ghost use Rattle.std.specs.Prelude.{◌≡◌, map, IfOk};
ghost use Rattle.adb_shell_service.specs.Commands.{words_of};

use std::alloc::{AllocError, Global};

/// Returns the words of a command: the texts between its runs of spaces.
pub fn words_of(alloc: Global, command: &[u8]) -> Result<Vec<&[u8]>, AllocError>
    ensures { IfOk result (λ words. map (λ word. word.now) words.items ≡ words_of command.now) }
{
    command
        .split(|byte| *byte == b' ')
        .filter(|word| !word.is_empty())
        .collect(alloc)
}

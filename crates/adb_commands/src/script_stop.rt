//! The reasons why a script is not answered.

use adb_script::ScriptError;
use std::alloc::AllocError;

/// The reason why a script is not answered.
#[derive(Clone, Copy, Debug, PartialEq, Eq, Drop)]
pub enum ScriptStop {
    /// The source failed.
    ReadFault,
    /// The sink failed.
    WriteFault,
    /// An allocation failed.
    OutOfMemory,
    /// A line is refused: the number of the first such line, counted from 1.
    BadLine { line: u32 },
}

impl From<AllocError> for ScriptStop {
    ghost use Rattle.std.specs.Prelude.{◌≡◌};
    ghost use Rattle.adb_commands.specs.declared.script_stop.ScriptStop.TheVariants.{OutOfMemory};

    ghost from_gives = { λ _ stop. stop ≡ OutOfMemory };

    fn from(_error: AllocError) -> ScriptStop {
        ScriptStop::OutOfMemory
    }
}

impl From<ScriptError> for ScriptStop {
    ghost use Rattle.std.specs.Prelude.{◌≡◌};
    ghost use Rattle.adb_commands.specs.ScriptStop.{stop_of};

    ghost from_gives = { λ why stop. stop ≡ stop_of why };

    fn from(error: ScriptError) -> ScriptStop {
        match error {
            ScriptError::BadLine { line } => ScriptStop::BadLine { line },
            ScriptError::OutOfMemory => ScriptStop::OutOfMemory,
        }
    }
}

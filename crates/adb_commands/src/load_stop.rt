//! The reasons why the lines of a load are not written.

use std::alloc::AllocError;

/// The reason why the lines of a load are not written.
#[derive(Clone, Copy, Debug, PartialEq, Eq, Drop)]
pub enum LoadStop {
    /// The sink failed.
    WriteFault,
    /// An allocation failed.
    OutOfMemory,
}

impl From<AllocError> for LoadStop {
    ghost use Rattle.std.specs.Prelude.{◌≡◌};
    ghost use Rattle.adb_commands.specs.declared.load_stop.LoadStop.TheVariants.{OutOfMemory};

    ghost from_gives = { λ _ stop. stop ≡ OutOfMemory };

    fn from(_error: AllocError) -> LoadStop {
        LoadStop::OutOfMemory
    }
}

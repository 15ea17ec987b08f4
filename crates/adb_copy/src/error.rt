//! The reasons why a tree is not pushed.

use adb_outside::Text;
use std::alloc::AllocError;

/// The reason why a tree was not pushed.
#[derive(Drop)]
pub enum CopyError {
    /// The device refused the file of this path, with this text.
    Refused { path: Text, text: Text },
    /// An allocation failed.
    OutOfMemory,
}

impl From<AllocError> for CopyError {
    ghost use Rattle.std.specs.Prelude.{◌≡◌};
    ghost use Rattle.adb_copy.specs.declared.error.CopyError.TheVariants.{OutOfMemory};

    ghost from_gives = { λ _ error. error ≡ OutOfMemory };

    fn from(_error: AllocError) -> CopyError {
        CopyError::OutOfMemory
    }
}

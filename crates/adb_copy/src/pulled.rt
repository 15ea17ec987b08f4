//! Trees into which files can be pulled.

use adb_files::{File, FileError, Files};
use std::alloc::AllocError;

/// A tree into which files are pulled. It need not keep their bytes.
pub trait PulledTree {
    ghost use Rattle.std.specs.Prelude.{◌≡◌, ◌≤◌, List, None, length, OnOk};
    ghost use Rattle.adb_files.specs.Entries.{Entry};
    ghost use Rattle.adb_files.specs.Files.{put_refusal, with_file};
    ghost use Rattle.adb_copy.specs.Pulled.{Fits};
    ghost use Rattle.adb_sync_client.specs.declared.request.TheConstants.{MAX_ASKED_PATH};

    /// The property that a tree represents these files.
    ghost Holds: { Self → List Entry → Type 0 };

    /// Puts a file into a tree. The path of the file has at most 1,000 bytes, and the files that
    /// the tree represents do not refuse the file. Fails if an allocation fails.
    fn put(&mut self, path: &[u8], file: File) -> Result<(), AllocError>
        requires short { length path.now ≤ MAX_ASKED_PATH }
        requires fits { Fits Holds self.old path.now (length file.bytes) }
        ensures { (files : List Entry) → Holds self.old files
            → put_refusal files path.now (length file.bytes) ≡ None
            → OnOk result (Holds self.new (with_file path.now file files)) };
}

impl PulledTree for Files {
    ghost use Rattle.std.specs.Prelude.{◌≡◌};

    ghost Holds = { λ tree files. tree ≡ files };

    fn put(&mut self, path: &[u8], file: File) -> Result<(), AllocError> {
        match self.put(path, file) {
            Ok(()) => Ok(()),
            Err(FileError::OutOfMemory) => Err(AllocError),
            Err(_) => unreachable!(),
        }
    }
}

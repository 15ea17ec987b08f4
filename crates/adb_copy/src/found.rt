//! A path of the device, as a listing reports it.

ghost use Rattle.std.specs.Prelude.{◌≡◌, ◌==◌, ◌/◌, IfOk};
ghost use Rattle.adb_copy.specs.Waiting.{found_in, root};

use adb_outside::Text;
use adb_sync::Dirent;
use std::alloc::{AllocError, Global};

/// The path of the directory that contains all others.
const ROOT: &[u8] = b"/";

/// The mode of the root, which no listing reports.
const DIRECTORY_MODE: u32 = 16_877;

/// The first four bits of a directory's mode, as `stat(2)` defines them.
const DIRECTORY_TYPE: u32 = 4;

/// A path of the device, with the mode and the time that a listing reports for it.
#[derive(Drop)]
pub struct Found {
    pub path: Text,
    pub mode: u32,
    pub mtime: u32,
}

impl Found {
    /// Returns the root.
    pub fn root(alloc: Global) -> Result<Found, AllocError>
        ensures { IfOk result (λ found. found ≡ root) }
    {
        Ok(Found {
            path: Text::from_slice(alloc, ROOT)?,
            mode: DIRECTORY_MODE,
            mtime: 0,
        })
    }

    /// Returns the path of an entry of a directory, with the entry's mode and time.
    pub fn in_directory(
        alloc: Global,
        directory: &[u8],
        entry: &Dirent,
    ) -> Result<Found, AllocError>
        ensures { IfOk result (λ found. found ≡ found_in directory.now entry.now) }
    {
        let mut path = Text::from_slice(alloc, directory)?;
        if directory != ROOT {
            path.push_slice(b"/")?;
        }
        path.push_slice(entry.name.as_slice())?;
        Ok(Found {
            path,
            mode: entry.mode,
            mtime: entry.mtime,
        })
    }

    /// Returns whether the mode is that of a directory.
    pub fn is_directory(&self) -> bool
        ensures { result ≡ (self.now.mode / 4096 == 4) }
    {
        self.mode >> 12 == DIRECTORY_TYPE
    }
}

//! The attributes of a name in a listing.

ghost use Rattle.std.specs.Prelude.{◌≡◌, ◌^◌, ◌<◌, length};
ghost use Rattle.adb_files.specs.Listing.{stat_of, directory_stat};
ghost use Rattle.adb_files.specs.Served.{nothing_stat};

use crate::file::File;

/// The mode of a directory.
const DIRECTORY_MODE: u32 = 16_877;

/// A mode, a number of bytes and a time, as in STAT and LIST.
#[derive(Clone, Copy, Drop)]
pub struct Stat {
    pub mode: u32,
    pub size: u32,
    pub mtime: u32,
}

impl Stat {
    /// Returns the attributes of a file.
    pub fn of(file: &File) -> Stat
        requires { length file.now.bytes < 2 ^ 32 }
        ensures { result ≡ stat_of file.now }
    {
        Stat {
            mode: file.mode,
            size: file.bytes.len() as u32,
            mtime: file.mtime,
        }
    }

    /// Returns the attributes of a directory.
    pub fn directory() -> Stat
        ensures { result ≡ directory_stat }
    {
        Stat {
            mode: DIRECTORY_MODE,
            size: 0,
            mtime: 0,
        }
    }

    /// Returns the attributes of a path without a file.
    pub fn nothing() -> Stat
        ensures { result ≡ nothing_stat }
    {
        Stat {
            mode: 0,
            size: 0,
            mtime: 0,
        }
    }
}

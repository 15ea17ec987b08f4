//! One file, and the reasons why one may be refused.

ghost use Rattle.adb_files.specs.declared.file.FileError.TheVariants.{OutOfMemory};
ghost use Rattle.std.specs.Prelude.{◌≡◌, ◌^◌, ◌<◌, ◌≤◌, length};
ghost use Rattle.adb_files.specs.Files.{refusal_text};

use adb_outside::Text;
use std::alloc::AllocError;

/// A file of the device.
#[derive(Drop)]
pub struct File {
    /// The mode, as in `stat(2)`.
    pub mode: u32,
    /// The time of the last change, in seconds since 1970.
    pub mtime: u32,
    pub bytes: Text,
}

/// States that a mode and a time of a file have 32 bits each.
pub(crate) fn have_32_bits(mode: u32, mtime: u32)
    ensures mode { mode < 2 ^ 32 }
    ensures mtime { mtime < 2 ^ 32 }
{}

/// The reason why a file was not put or removed. The files are unchanged then.
#[derive(Clone, Copy, Debug, PartialEq, Eq, Drop)]
pub enum FileError {
    /// The path is neither `/` nor one or more parts of a slash and a name. A name is not empty,
    /// not `.` and not `..`, and has no NUL.
    BadPath,
    /// The path is `/`, or a file lies below it.
    IsDirectory,
    /// The path lies below a file.
    NotDirectory,
    /// All files, including the new one, would have more than 268,435,456 bytes.
    NoSpace,
    /// No file has the path.
    NoFile,
    OutOfMemory,
}

impl FileError {
    /// Returns the refusal in words, as in a FAIL.
    pub fn text(self) -> &'static [u8]
        ensures text { result.now ≡ refusal_text self }
        ensures short { length result.now ≤ 20 }
    {
        match self {
            FileError::BadPath => b"bad path",
            FileError::IsDirectory => b"is a directory",
            FileError::NotDirectory => b"not a directory",
            FileError::NoSpace => b"no space",
            FileError::NoFile => b"no such file",
            FileError::OutOfMemory => b"out of memory",
        }
    }
}

impl From<AllocError> for FileError {
    ghost from_gives = { λ _ error. error ≡ OutOfMemory };

    fn from(_error: AllocError) -> FileError {
        FileError::OutOfMemory
    }
}

//! The maximum number of bytes in all files.

ghost use Rattle.std.specs.Prelude.{◌<◌, ◌^◌, length};

use adb_files::{File, FileError, Files};
use adb_outside::Text;
use std::alloc::Global;

/// Puts a file of `size` bytes.
fn put(alloc: Global, files: &mut Files, path: &[u8], size: usize) -> Result<(), FileError>
    requires { length path.now < 2 ^ 32 }
{
    let file = File {
        mode: 33_188,
        mtime: 1,
        bytes: Text::from_vec(vec![in alloc; 0; size]?),
    };
    files.put(path, file)
}

/// Returns whether files take 268,435,456 bytes, and not one more.
fn are_filled(alloc: Global, files: &mut Files) -> bool {
    let most = put(alloc, files, b"/a", 268_435_456);
    let more = put(alloc, files, b"/b", 1);
    most == Ok(()) && more == Err(FileError::NoSpace)
}

pub fn files_are_filled(alloc: Global) -> bool {
    let mut files = Files::new(alloc);
    are_filled(alloc, &mut files)
}

//! A tree that keeps only the lines that show its files.

ghost use Rattle.std.specs.Prelude.{◌≡◌, List, [], IfOk};
ghost use Rattle.adb_copying.specs.Kept.{IsWant, with_lines};
ghost use Rattle.adb_files.specs.Entries.{Entry};
ghost use Rattle.adb_script.specs.Told.{texts_of};
ghost use Rattle.adb_trees.specs.Shown.{lines_of};

use crate::showing::{line_of, lines_in};
use adb_copy::PulledTree;
use adb_files::{File, FileError, Files};
use adb_script::Line;
use std::alloc::{AllocError, Global};

/// A tree that keeps the lines that show its files, each in place of the bytes of the file.
#[derive(Drop)]
pub struct ShownTree {
    alloc: Global,
    files: Files,
}

impl ShownTree {
    /// Returns a tree without files. Allocates nothing.
    pub fn new(alloc: Global) -> ShownTree
        ensures { result.files ≡ [] }
    {
        ShownTree {
            alloc,
            files: Files::new(alloc),
        }
    }

    /// Returns the lines, in byte order of the paths. Fails if an allocation fails.
    pub fn lines(&self) -> Result<Vec<Line>, AllocError>
        ensures { (files : List Entry) → self.now.files ≡ with_lines files
            → IfOk result (λ lines. texts_of lines.items ≡ lines_of files) }
    {
        let lines = lines_in(self.alloc, &self.files)?;
        Ok(lines)
    }
}

impl PulledTree for ShownTree {
    ghost use Rattle.std.specs.Prelude.{◌≡◌};
    ghost use Rattle.adb_copying.specs.Kept.{with_lines};

    ghost Holds = { λ tree files. tree.files ≡ with_lines files };

    /// Keeps the line of the file. If there is no room for the line, the error is that of an
    /// allocation failure.
    fn put(&mut self, path: &[u8], file: File) -> Result<(), AllocError> {
        let bytes = line_of(self.alloc, path, &file)?;
        let line = File {
            mode: file.mode,
            mtime: file.mtime,
            bytes,
        };
        match self.files.put(path, line) {
            Ok(()) => Ok(()),
            Err(error) => Err(memory_of(error)),
        }
    }
}

/// Converts the error of a put: a lack of room for the lines counts as an allocation failure.
fn memory_of(error: FileError) -> AllocError
    requires { IsWant error }
{
    match error {
        FileError::OutOfMemory | FileError::NoSpace => AllocError,
        FileError::BadPath | FileError::IsDirectory | FileError::NotDirectory | FileError::NoFile =>
            unreachable!(),
    }
}

//! Trees of files that can be pushed.

use crate::sending::file_text;
use adb_files::Files;
use adb_outside::Text;
use std::alloc::{AllocError, Global};

/// A tree of files that can be pushed. It need not keep their bytes.
pub trait PushedTree {
    ghost use Rattle.std.specs.Option.{option_copied};
    ghost use Rattle.std.specs.Prelude.{◌≡◌, ◌≤◌, List, Some, true, is_some, length, IfOk};
    ghost use Rattle.adb_files.specs.declared.file.File.{File};
    ghost use Rattle.adb_files.specs.Entries.{Entry};
    ghost use Rattle.adb_files.specs.Files.{IsFileMap, file_at, next_path};
    ghost use Rattle.adb_sync_client.specs.Texts.{push_text};
    ghost use Rattle.adb_sync_client.specs.declared.request.TheConstants.{MAX_ASKED_PATH};

    /// The files of the tree, in ascending byte order of their paths.
    ghost files: { Self → List Entry };

    /// States that the files of the tree are a map from path to file. It does nothing.
    fn are_a_map(&self)
        ensures { IsFileMap (files self.now) };

    /// Returns the least path of a file that is greater than `after` in byte order, or `None` if no
    /// file has a greater path.
    fn next_path(&self, after: &[u8]) -> Option<&[u8]>
        ensures { option_copied result ≡ next_path after.now (files self.now) };

    /// Returns the text that sends the file of a path to a device. The path has at most 1,000
    /// bytes. Fails if an allocation fails.
    fn text(&self, alloc: Global, path: &[u8]) -> Result<Text, AllocError>
        requires there { is_some (file_at path.now (files self.now)) ≡ true }
        requires short { length path.now ≤ MAX_ASKED_PATH }
        ensures { (file : File) → file_at path.now (files self.now) ≡ Some file
            → IfOk result (λ text. text ≡ push_text path.now file.mode file.mtime file.bytes) };
}

impl PushedTree for Files {
    ghost files = { λ files. files };

    fn are_a_map(&self) {
        self.get(b"");
    }

    fn next_path(&self, after: &[u8]) -> Option<&[u8]> {
        self.next_path(after)
    }

    fn text(&self, alloc: Global, path: &[u8]) -> Result<Text, AllocError> {
        match self.get(path) {
            Some(file) => file_text(alloc, path, file),
            None => unreachable!(),
        }
    }
}

//! A file at its path, as stored in the map.

ghost use Rattle.std.specs.Prelude.{◌≡◌, IfOk};
ghost use Rattle.std.specs.Arc.{arc_value};
ghost use Rattle.adb_files.specs.Entries.{Entry};

use crate::file::File;
use adb_outside::Text;
use std::alloc::{AllocError, Global};
use std::marker::Model;
use std::sync::Arc;

/// A file at its path. The file is shared with the pulls of it that are still being handed out.
/// They need no copy, and keep the old file when another is put in its place.
#[derive(Drop)]
pub struct Slot {
    path: Text,
    file: Arc<File, Global>,
}

impl Model for Slot {
    ghost use Rattle.std.specs.Arc.{arc_value};
    ghost use Rattle.adb_files.specs.Entries.{Entry};

    ghost Value = { Entry };

    ghost view = { λ slot. record { path = slot.path; file = arc_value slot.file } };
}

impl Slot {
    /// Returns a file at a path.
    pub fn new(path: Text, file: Arc<File, Global>) -> Slot
        ensures { result ≡ record { path = path; file = arc_value file } }
    {
        Slot { path, file }
    }

    /// Returns the path.
    pub fn path(&self) -> &[u8]
        ensures { result.now ≡ self.now.path }
    {
        self.path.as_slice()
    }

    /// Returns the file.
    pub fn file(&self) -> &File
        ensures { result.now ≡ self.now.file }
    {
        &self.file
    }

    /// Returns another owner of the file, which stays valid when the map changes. Allocates
    /// nothing. Fails if the count of owners is at its maximum.
    pub fn share(&self) -> Result<Arc<File, Global>, AllocError>
        ensures { IfOk result (λ file. arc_value file ≡ self.now.file) }
    {
        Arc::try_clone(&self.file)
    }

    /// Puts another file at the same path.
    pub fn replace(&mut self, file: Arc<File, Global>)
        ensures { self.new ≡ record self.old { file = arc_value file } }
    {
        self.file = file;
    }
}

//! The files of a device.

ghost use Rattle.std.specs.Arc.{arc_value};
ghost use Rattle.std.specs.Option.{option_copied};
ghost use Rattle.std.specs.Prelude.{◌≡◌, ◌+◌, ◌^◌, ◌<◌, ◌≤◌, [], length, All, Option, Some, None, OnOk, OnErr, IfOk, MatchResult};
ghost use Rattle.std.specs.List.{list_any};
ghost use Rattle.adb_files.specs.declared.file.FileError.{FileError};
ghost use Rattle.adb_files.specs.Paths.{is_below};
ghost use Rattle.adb_files.specs.Files.{IsFileMap, ChangesAt, file_at, with_file, without, next_path, total, is_directory, is_under_file, put_refusal, read_refusal};
ghost use Rattle.adb_files.specs.Listing.{listing};
ghost use Rattle.adb_files.specs.Served.{stat_in};
ghost use Rattle.adb_files.specs.Places.{StandsAt, FitsAt};

use crate::file::{File, FileError, have_32_bits};
use crate::listing::{dirent_of, shown_in};
use crate::path::{ROOT, is_below, is_path, slash_behind};
use crate::place::{first_from, place_at, store};
use crate::slot::Slot;
use crate::stat::Stat;
use adb_sync::Dirent;
use std::alloc::{AllocError, Global};
use std::marker::Model;
use std::sync::Arc;

/// The maximum number of bytes of all files.
pub const MAX_STORED: usize = 268_435_456;

/// The files of a device, a map from path to file. Contracts see it as the list of its entries in
/// rising order of the bytes of their paths. A directory is `/`, or a proper leading path of a
/// file.
#[derive(Drop)]
pub struct Files {
    alloc: Global,
    slots: Vec<Slot>,
    used: usize,
}

impl Model for Files {
    ghost use Rattle.std.specs.Prelude.{◌≡◌, List};
    ghost use Rattle.adb_files.specs.Entries.{Entry};
    ghost use Rattle.adb_files.specs.Files.{IsFileMap, total};

    ghost Value = { List Entry };

    ghost view = { λ files. files.slots.items };

    ghost invariant = { λ files. IsFileMap files.slots.items
        × (files.used ≡ total files.slots.items) };
}

impl Files {
    /// Returns a map without files. Allocates nothing.
    pub fn new(alloc: Global) -> Files
        ensures { result ≡ [] }
    {
        Files {
            alloc,
            slots: Vec::new(alloc),
            used: 0,
        }
    }

    /// Returns the file at the path; `None` exactly if there is none.
    pub fn get(&self, path: &[u8]) -> Option<&File>
        ensures file { option_copied result ≡ file_at path.now self.now }
        ensures files { IsFileMap self.now }
    {
        match self.place(path) {
            Ok(i) => Some(self.slots[i].file()),
            Err(_) => None,
        }
    }

    /// Puts a file at the path, in place of the one that is there. Refusals are checked in this
    /// order: `BadPath`, `IsDirectory`, `NotDirectory`, `NoSpace`. After an error the files are
    /// unchanged, and the new one is dropped.
    pub fn put(&mut self, path: &[u8], file: File) -> Result<(), FileError>
        requires { length path.now < 2 ^ 32 }
        ensures ok { OnOk result (ChangesAt path.now (Some file) self.old self.new) }
        ensures list { OnOk result (self.new ≡ with_file path.now file self.old) }
        ensures err { OnErr result (self.new ≡ self.old) }
        ensures files { IsFileMap self.new }
        ensures refused { (error : FileError)
            → put_refusal self.old path.now (length file.bytes) ≡ Some error → result ≡ Err error }
        ensures granted { put_refusal self.old path.now (length file.bytes) ≡ None
            → OnErr result (result ≡ Err FileError.OutOfMemory) }
    {
        have_32_bits(file.mode, file.mtime);
        let size = file.bytes.len();
        if let Some(refusal) = self.put_refusal(path, size) {
            return Err(refusal);
        }
        let used = self.used_without(path) + size;
        store(self.alloc, &mut self.slots, path, file)?;
        self.used = used;
        Ok(())
    }

    /// Removes the file at the path. Refusals are checked in this order: `BadPath`, `IsDirectory`,
    /// `NoFile`. After an error the files are unchanged. Allocates nothing.
    pub fn remove(&mut self, path: &[u8]) -> Result<(), FileError>
        ensures ok { OnOk result (ChangesAt path.now None self.old self.new) }
        ensures list { OnOk result (self.new ≡ without path.now self.old) }
        ensures err { OnErr result (self.new ≡ self.old) }
        ensures files { IsFileMap self.new }
        ensures refused { (error : FileError)
            → read_refusal self.old path.now ≡ Some error → result ≡ Err error }
        ensures granted { read_refusal self.old path.now ≡ None → result ≡ Ok tt }
    {
        let used = self.used_without(path);
        let i = self.place_of_file(path)?;
        self.slots.remove(i);
        self.used = used;
        Ok(())
    }

    /// Returns the least path of a file that is greater than `after` in the order of bytes; `None`
    /// exactly if no file has a greater one.
    pub fn next_path(&self, after: &[u8]) -> Option<&[u8]>
        ensures path { option_copied result ≡ next_path after.now self.now }
    {
        let slots = self.slots.as_slice();
        let next = match self.place(after) {
            Ok(i) => i + 1,
            Err(i) => i,
        };
        if next == slots.len() {
            return None;
        }
        Some(slots[next].path())
    }

    /// Returns the entries of a directory, including its subdirectories, in the order of the bytes
    /// of their names. A directory has the mode 16,877, no bytes and the time 0. A bad path, a
    /// file, or a path with nothing there has no entries. Fails if an allocation fails.
    pub fn list(&self, path: &[u8]) -> Result<Vec<Dirent>, AllocError>
        ensures list { IfOk result (λ entries. entries.items ≡ listing path.now self.now) }
        ensures names { All (λ entry. length entry.name < 2 ^ 32) (listing path.now self.now) }
    {
        let mut entries = Vec::new(self.alloc);
        if !is_path(path) {
            return Ok(entries);
        }
        for (name, stat) in shown_in(self.alloc, self.slots.as_slice(), path)? {
            entries.push(dirent_of(name, stat))?;
        }
        Ok(entries)
    }

    /// Returns the attributes of the path: those of a directory, of a file, or all zeros if nothing
    /// is there.
    pub(crate) fn stat(&self, path: &[u8]) -> Stat
        ensures { result ≡ stat_in self.now path.now }
    {
        if self.is_directory(path) {
            return Stat::directory();
        }
        match self.place(path) {
            Ok(i) => Stat::of(self.slots[i].file()),
            Err(_) => Stat::nothing(),
        }
    }

    /// Returns whether the path is that of a directory.
    pub fn is_directory(&self, path: &[u8]) -> bool
        ensures { result ≡ is_directory self.now path.now }
    {
        is_path(path) && (path == ROOT || self.has_below(path))
    }

    /// Returns the reason why no file is read or removed at the path: the first of `BadPath`,
    /// `IsDirectory` and `NoFile` that applies. `None` exactly if there is a file at the path.
    pub fn read_refusal(&self, path: &[u8]) -> Option<FileError>
        ensures { result ≡ read_refusal self.now path.now }
    {
        self.place_of_file(path).err()
    }

    /// Returns the file at the path as a shared owner, which stays valid when the map changes, or
    /// the reason why none is read. Allocates nothing. Fails if the count of the file's owners is
    /// at its maximum.
    pub(crate) fn share(
        &self,
        path: &[u8],
    ) -> Result<Result<Arc<File, Global>, FileError>, AllocError>
        ensures { IfOk result (λ shared. MatchResult shared
            (λ file. (file_at path.now self.now ≡ Some (arc_value file))
            × (read_refusal self.now path.now ≡ None))
            (λ refusal. read_refusal self.now path.now ≡ Some refusal)) }
    {
        match self.place_of_file(path) {
            Ok(i) => Ok(Ok(self.slots[i].share()?)),
            Err(refusal) => Ok(Err(refusal)),
        }
    }

    /// Returns the reason why a file of this many bytes is not put at the path.
    pub(crate) fn put_refusal(&self, path: &[u8], size: usize) -> Option<FileError>
        ensures { result ≡ put_refusal self.now path.now size }
    {
        if !is_path(path) {
            return Some(FileError::BadPath);
        }
        if self.is_directory(path) {
            return Some(FileError::IsDirectory);
        }
        if self.is_under_file(path) {
            return Some(FileError::NotDirectory);
        }
        (size > MAX_STORED - self.used_without(path)).then_some(FileError::NoSpace)
    }

    /// Returns the place of the file at the path among the entries, or the reason why none is read
    /// there.
    fn place_of_file(&self, path: &[u8]) -> Result<usize, FileError>
        ensures { MatchResult result
            (λ i. StandsAt path.now self.now i × (read_refusal self.now path.now ≡ None))
            (λ refusal. read_refusal self.now path.now ≡ Some refusal) }
    {
        if !is_path(path) {
            return Err(FileError::BadPath);
        }
        if self.is_directory(path) {
            return Err(FileError::IsDirectory);
        }
        match self.place(path) {
            Ok(i) => Ok(i),
            Err(_) => Err(FileError::NoFile),
        }
    }

    /// Returns the place of the path among the entries.
    fn place(&self, path: &[u8]) -> Result<usize, usize>
        ensures { MatchResult result
            (λ i. StandsAt path.now self.now i)
            (λ i. FitsAt path.now self.now i) }
    {
        place_at(self.slots.as_slice(), path)
    }

    /// Returns whether a file lies below a directory of the path.
    fn has_below(&self, path: &[u8]) -> bool
        ensures { result ≡ list_any (λ entry. is_below path.now entry.path) self.now }
    {
        let slots = self.slots.as_slice();
        let first = first_from(slots, path, slash_behind(path));
        first < slots.len() && is_below(path, slots[first].path())
    }

    /// Returns whether the path continues below a file.
    fn is_under_file(&self, path: &[u8]) -> bool
        ensures { result ≡ is_under_file self.now path.now }
    {
        for (i, byte) in path.iter().enumerate() {
            if *byte == b'/' && self.get(&path[..i]).is_some() {
                return true;
            }
        }
        false
    }

    /// Returns how many bytes the files at other paths have.
    fn used_without(&self, path: &[u8]) -> usize
        ensures used { result ≡ total (without path.now self.now) }
        ensures files { IsFileMap self.now }
        ensures within { result ≤ total self.now }
    {
        match self.place(path) {
            Ok(i) => self.used - self.slots[i].file().bytes.len(),
            Err(_) => self.used,
        }
    }
}

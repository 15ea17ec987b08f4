//! A tree that keeps only the sizes of its files.

ghost use Rattle.std.specs.Option.{option_copied};
ghost use Rattle.std.specs.Prelude.{◌≡◌, ◌+◌, ◌^◌, ◌<◌, ◌≤◌, [], Some, true, is_some, length, IfOk, OnErr};
ghost use Rattle.adb_files.specs.declared.file.File.{File};
ghost use Rattle.adb_files.specs.Files.{IsFileMap, file_at, next_path, total};
ghost use Rattle.adb_script.specs.declared.script.TheConstants.{MAX_LINES};
ghost use Rattle.adb_sync_client.specs.Texts.{push_text};
ghost use Rattle.adb_script.specs.declared.word.TheConstants.{MAX_WORD};
ghost use Rattle.adb_trees.specs.NamedTree.{named_file};
ghost use Rattle.adb_trees.specs.Trees.{Puts, PutsLine};
ghost use Rattle.adb_trees.specs.declared.tree.TheConstants.{MAX_TREE};
ghost use Rattle.byteorder.specs.Endian.{little_bytes, little_number};

use crate::line::FileLine;
use adb_files::{File, FileError, Files};
use adb_outside::Text;
use adb_script::pattern_text;
use byteorder::{ByteOrder, LittleEndian};
use std::alloc::{AllocError, Global};
use std::marker::Model;

/// Files in which each byte is its index mod 251. Only the length of each file is kept. Contracts
/// see the list of files, with their bytes, in rising order of the bytes of their paths.
#[derive(Drop)]
pub struct NamedTree {
    alloc: Global,
    kept: Files,
}

impl Model for NamedTree {
    ghost use Rattle.std.specs.Prelude.{List};
    ghost use Rattle.adb_files.specs.Entries.{Entry};
    ghost use Rattle.adb_trees.specs.NamedTree.{AreKept, named_files};

    ghost Value = { List Entry };

    ghost view = { λ tree. named_files tree.kept };

    ghost invariant = { λ tree. AreKept tree.kept };
}

impl NamedTree {
    /// Makes a tree without files. It allocates nothing.
    pub fn new(alloc: Global) -> NamedTree
        ensures { result ≡ [] }
    {
        NamedTree {
            alloc,
            kept: Files::new(alloc),
        }
    }

    /// Returns the least path of a file that is greater than `after` in the order of bytes. `None`
    /// exactly if no file has a greater one.
    pub fn next_path(&self, after: &[u8]) -> Option<&[u8]>
        ensures { option_copied result ≡ next_path after.now self.now }
    {
        self.kept.next_path(after)
    }

    /// Proves that the files are a map from path to file.
    pub fn are_a_map(&self)
        ensures { IsFileMap self.now }
    {
        self.kept.get(b"");
    }

    /// Returns the bytes of a session that pushes the file at a path to that path. The bytes of the
    /// file are made for it.
    pub fn push_text(&self, alloc: Global, path: &[u8]) -> Result<Text, AllocError>
        requires { is_some (file_at path.now self.now) ≡ true }
        ensures { (file : File) → file_at path.now self.now ≡ Some file
            → IfOk result (λ text. text ≡ push_text path.now file.mode file.mtime file.bytes) }
    {
        match self.kept.get(path) {
            Some(file) => text_of(alloc, path, file),
            None => unreachable!(),
        }
    }

    /// Returns whether a path was named.
    pub fn has(&self, path: &[u8]) -> bool
        ensures { result ≡ is_some (file_at path.now self.now) }
    {
        self.kept.get(path).is_some()
    }

    /// Puts the file of a line. Returns `false` if it is refused; the tree is then unchanged.
    ///
    /// `AllocError`: an allocation failed, and the tree is unchanged.
    pub(crate) fn put(&mut self, line: &FileLine<'_>) -> Result<bool, AllocError>
        requires room { total self.old + line.now.size ≤ MAX_TREE }
        requires few { length self.old < MAX_LINES }
        ensures put { IfOk result (λ put. PutsLine put line.now self.old self.new) }
        ensures err { OnErr result (self.new ≡ self.old) }
    {
        let bytes = Text::from_slice(self.alloc, &size_bytes(line.size))?;
        let file = File {
            mode: line.mode,
            mtime: line.mtime,
            bytes,
        };
        put_file(&mut self.kept, line.path.as_slice(), file)
    }
}

/// Puts a file. Returns `false` if it is refused; the files are then unchanged.
///
/// `AllocError`: an allocation failed, and the files are unchanged.
fn put_file(files: &mut Files, path: &[u8], file: File) -> Result<bool, AllocError>
    requires { length path.now < 2 ^ 32 }
    ensures put { IfOk result (λ put. Puts put path.now file files.old files.new) }
    ensures err { OnErr result (files.new ≡ files.old) }
{
    match files.put(path, file) {
        Ok(()) => Ok(true),
        Err(FileError::OutOfMemory) => Err(AllocError),
        Err(_) => Ok(false),
    }
}

/// Returns the bytes that push the file that is kept as this one.
fn text_of(alloc: Global, path: &[u8], kept: &File) -> Result<Text, AllocError>
    requires path { length path.now ≤ MAX_WORD }
    requires size { length kept.now.bytes ≡ 4 }
    ensures { IfOk result (λ text. text
        ≡ push_text path.now kept.now.mode kept.now.mtime (named_file kept.now).bytes) }
{
    let size = size_in(kept.bytes.as_slice());
    pattern_text(alloc, path, kept.mode, kept.mtime, size)
}

/// Encodes a number of bytes as it is kept.
fn size_bytes(size: u32) -> [u8; 4]
    ensures bytes { result ≡ little_bytes 4 size }
    ensures size { size < 2 ^ 32 }
{
    let mut bytes = [0; 4];
    LittleEndian::write_u32(&mut bytes, size);
    bytes
}

/// Decodes a number of bytes that is kept.
fn size_in(bytes: &[u8]) -> u32
    requires { length bytes.now ≡ 4 }
    ensures { result ≡ little_number 4 bytes.now }
{
    LittleEndian::read_u32(bytes)
}

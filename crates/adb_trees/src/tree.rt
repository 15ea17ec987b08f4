//! A tree that is built from the lines that name its files.

ghost use Rattle.std.specs.Prelude.{◌≡◌, ◌+◌, ◌<◌, length, nat_lt, is_some, Some, IfOk};
ghost use Rattle.adb_files.specs.Files.{file_at};
ghost use Rattle.adb_script.specs.declared.script.TheConstants.{MAX_LINES};
ghost use Rattle.adb_trees.specs.Lines.{line_of};
ghost use Rattle.adb_trees.specs.Trees.{Takes, behind, no_tree};
ghost use Rattle.adb_trees.specs.declared.tree.TheConstants.{MAX_TREE};

use crate::line::{FileLine, read_line};
use crate::named::NamedTree;
use std::alloc::{AllocError, Global};
use std::marker::Model;

/// The maximum number of bytes of all files of a tree.
pub const MAX_TREE: u32 = 67_108_864;

/// The files that the lines so far name. Contracts see them, and the number of bytes that they have
/// together.
#[derive(Drop)]
pub struct Tree {
    files: NamedTree,
    size: u32,
}

impl Model for Tree {
    ghost use Rattle.std.specs.Prelude.{◌≤◌};
    ghost use Rattle.adb_files.specs.Files.{total};
    ghost use Rattle.adb_trees.specs.Trees.{Tree};
    ghost use Rattle.adb_trees.specs.declared.tree.TheConstants.{MAX_TREE};

    ghost Value = { Tree };

    ghost view = { λ tree. record { files = tree.files; size = tree.size } };

    ghost invariant = { λ tree. (total tree.files ≤ tree.size) × (tree.size ≤ MAX_TREE) };
}

impl Tree {
    /// Makes a tree without files. It allocates nothing.
    pub fn new(alloc: Global) -> Tree
        ensures { result ≡ no_tree }
    {
        Tree {
            files: NamedTree::new(alloc),
            size: 0,
        }
    }

    /// Takes the file that a line names, given without its newline. Returns `false` if the line is
    /// refused; the tree is then unchanged.
    pub fn take(&mut self, text: &[u8]) -> Result<bool, AllocError>
        requires { length self.old.files < MAX_LINES }
        ensures { IfOk result (λ taken.
            Takes taken (behind self.old (line_of text.now)) self.old self.new) }
    {
        match read_line(text) {
            Some(line) => self.take_file(&line),
            None => Ok(false),
        }
    }

    /// Returns the files.
    pub fn into_files(self) -> NamedTree
        ensures { result ≡ self.files }
    {
        self.files
    }

    /// Takes the file of a line.
    fn take_file(&mut self, line: &FileLine<'_>) -> Result<bool, AllocError>
        requires { length self.old.files < MAX_LINES }
        ensures { IfOk result (λ taken.
            Takes taken (behind self.old (Some line.now)) self.old self.new) }
    {
        if self.has(line.path.as_slice()) || self.is_too_much(line.size) {
            return Ok(false);
        }
        if !self.files.put(line)? {
            return Ok(false);
        }
        self.size += line.size;
        Ok(true)
    }

    /// Returns whether a path was named.
    fn has(&self, path: &[u8]) -> bool
        ensures { result ≡ is_some (file_at path.now self.now.files) }
    {
        self.files.has(path)
    }

    /// Returns whether `size` more bytes are too many.
    fn is_too_much(&self, size: u32) -> bool
        ensures { result ≡ nat_lt MAX_TREE (self.now.size + size) }
    {
        size > MAX_TREE - self.size
    }
}

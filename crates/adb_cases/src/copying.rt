//! A tree with a file that a device refuses.

ghost use Rattle.std.specs.Prelude.{◌≡◌, ◌≤◌, true};
ghost use Rattle.adb_trees.specs.Trees.{AreNamed};

use adb_copy::{CopyError, push_tree};
use adb_copying::ScriptTree;
use adb_files::Files;
use adb_script::ScriptError;
use adb_trees::read_tree;
use adb_world::World;
use std::alloc::{AllocError, Global};

/// A tree that is pushed onto a device with a file in the way.
struct Row {
    /// The bytes that were sent before, with the time 1.
    sent: &'static [u8],
    /// The path of the file that they create.
    there: &'static [u8],
    /// Three files, with the times 2, 3 and 4.
    tree: &'static [u8],
    /// The path of the first of them, which is stored.
    first: &'static [u8],
    /// The path of the second of them, which is refused, and the text of the refusal.
    refused: &'static [u8],
    text: &'static [u8],
    /// The path of the third of them, which is not sent.
    third: &'static [u8],
}

const ROWS: &[Row] = &[
    Row {
        sent: b"SEND\x08\0\0\0/a,33188DONE\x01\0\0\0",
        there: b"/a",
        tree: b"/0 33188 2 5\n/a/x 33188 3 5\n/b 33188 4 5\n",
        first: b"/0",
        refused: b"/a/x",
        text: b"not a directory",
        third: b"/b",
    },
    Row {
        sent: b"SEND\x0a\0\0\0/d/x,33188DONE\x01\0\0\0",
        there: b"/d/x",
        tree: b"/c 33188 2 5\n/d 33188 3 5\n/e 33188 4 5\n",
        first: b"/c",
        refused: b"/d",
        text: b"is a directory",
        third: b"/e",
    },
];

/// Returns whether there is a file with this path and time.
fn has(files: &Files, path: &[u8], mtime: u32) -> bool {
    match files.get(path) {
        Some(file) => file.mtime == mtime,
        None => false,
    }
}

/// Returns whether the earlier file is kept, the first file of the tree is stored, and the others
/// are not.
fn is_kept(files: &Files, row: &Row) -> bool {
    has(files, row.there, 1)
        && has(files, row.first, 2)
        && files.get(row.refused).is_none()
        && files.get(row.third).is_none()
}

/// Returns whether a push reports the file that is refused.
fn is_told(alloc: Global, world: &mut World, tree: &ScriptTree, row: &Row) -> bool
    requires given { world.old.given ≤ 1 }
    requires settled { world.old.settled ≡ true }
    requires tree { AreNamed tree.now.tree }
{
    match push_tree(alloc, world, 1, tree) {
        Err(CopyError::Refused { path, text }) => {
            path.as_slice() == row.refused && text.as_slice() == row.text
        }
        Ok(()) | Err(CopyError::OutOfMemory) => false,
    }
}

/// Returns whether the tree of a row is refused in a new world, and the files are as expected then.
fn is_refused(alloc: Global, world: &mut World, row: &Row) -> Result<bool, AllocError>
    requires given { world.old.given ≡ 0 }
    requires settled { world.old.settled ≡ true }
{
    world.sync(1, row.sent)?;
    match read_tree(alloc, row.tree) {
        Ok(tree) => {
            let tree = ScriptTree { tree };
            Ok(is_told(alloc, world, &tree, row) && is_kept(world.files(), row))
        }
        Err(ScriptError::BadLine { .. }) => Ok(false),
        Err(ScriptError::OutOfMemory) => Err(AllocError),
    }
}

fn is_refused_in_new(alloc: Global, row: &Row) -> Result<bool, AllocError> {
    let mut world = World::new(alloc)?;
    is_refused(alloc, &mut world, row)
}

/// Returns the index of the first row that does not hold.
pub fn first_fault(alloc: Global) -> Result<Option<usize>, AllocError> {
    for (at, row) in ROWS.iter().enumerate() {
        if !is_refused_in_new(alloc, row)? {
            return Ok(Some(at));
        }
    }
    Ok(None)
}

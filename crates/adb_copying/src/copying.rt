//! Copying the tree of a script.

ghost use Rattle.std.specs.Prelude.{ℕ, ◌≡◌, ◌≢◌, [], List, Err, Some, true, length, IfOk, OnOk};
ghost use Rattle.adb_copy.specs.declared.error.CopyError.TheVariants as errors;
ghost use Rattle.adb_copy.specs.Pushing.{FilesPushed};
ghost use Rattle.adb_files.specs.Entries.{Entry};
ghost use Rattle.adb_script.specs.Told.{texts_of};
ghost use Rattle.adb_trees.specs.Shown.{copied_lines, lines_of};
ghost use Rattle.adb_trees.specs.Trees.{AreNamed, first_bad, tree_of};

use crate::named::ScriptTree;
use crate::shown::ShownTree;
use adb_copy::{CopyError, directories_are_few, pull_into, push_tree};
use adb_script::{Line, ScriptError};
use adb_trees::{NamedTree, read_tree};
use adb_world::World;
use std::alloc::{AllocError, Global};

/// Copies the tree that a script names to the device of a new world and back, and returns a line
/// for each file that came back. The seed does not change the lines.
///
/// - `BadLine`: a line is refused; it is the first one. The whole script is read before anything is
///   copied, so the world is unchanged.
/// - `OutOfMemory`: an allocation failed. The world is spent, or a part of the tree was copied. The
///   device has a prefix of the files of the tree, each of them whole, and no others.
pub fn copy_tree(
    alloc: Global,
    world: &mut World,
    script: &[u8],
    seed: u64,
) -> Result<Vec<Line>, ScriptError>
    requires settled { world.old.settled ≡ true }
    requires given { world.old.given ≡ 0 }
    requires empty { world.old.files ≡ [] }
    ensures lines { IfOk result (λ lines.
        copied_lines script.now ≡ Some (texts_of lines.items)) }
    ensures files { OnOk result (tree_of script.now ≡ Some world.new.files) }
    ensures bad { (line : ℕ) → result ≡ Err (ScriptError.BadLine line)
        → first_bad script.now ≡ Some line }
    ensures told { (line : ℕ) → first_bad script.now ≡ Some line
        → result ≢ Err ScriptError.OutOfMemory → result ≡ Err (ScriptError.BadLine line) }
    ensures before { (line : ℕ) → result ≡ Err (ScriptError.BadLine line)
        → world.new ≡ world.old }
    ensures in_part { (tree : List Entry) → tree_of script.now ≡ Some tree
        → FilesPushed tree [] world.new.files }
{
    let tree = read_tree(alloc, script)?;
    match copy_files(alloc, world, tree, seed) {
        Ok(lines) => Ok(lines),
        Err(AllocError) => Err(ScriptError::OutOfMemory),
    }
}

/// Copies files to the device and back, and returns the lines of the files that came back.
fn copy_files(
    alloc: Global,
    world: &mut World,
    tree: NamedTree,
    seed: u64,
) -> Result<Vec<Line>, AllocError>
    requires settled { world.old.settled ≡ true }
    requires given { world.old.given ≡ 0 }
    requires empty { world.old.files ≡ [] }
    requires tree { AreNamed tree }
    ensures lines { IfOk result (λ lines. texts_of lines.items ≡ lines_of tree) }
    ensures files { OnOk result (world.new.files ≡ tree) }
    ensures in_part { FilesPushed tree [] world.new.files }
{
    directories_are_few();
    tree.are_a_map();
    push(alloc, world, tree, seed)?;
    let mut copied = ShownTree::new(alloc);
    pull_into(alloc, world, seed, &mut copied)?;
    copied.lines()
}

/// Pushes files to a device that has none. Such a device refuses no tree.
fn push(alloc: Global, world: &mut World, tree: NamedTree, seed: u64) -> Result<(), AllocError>
    requires settled { world.old.settled ≡ true }
    requires given { world.old.given ≡ 0 }
    requires empty { world.old.files ≡ [] }
    requires tree { AreNamed tree }
    ensures files { OnOk result (world.new.files ≡ tree) }
    ensures settled { OnOk result (world.new.settled ≡ true) }
    ensures given { OnOk result (world.new.given ≡ length tree) }
    ensures in_part { FilesPushed tree [] world.new.files }
{
    let tree = ScriptTree { tree };
    match push_tree(alloc, world, seed, &tree) {
        Ok(()) => Ok(()),
        Err(error) => Err(memory_of(error)),
    }
}

/// Returns the error of an allocation failure, the only error of a push that is not refused.
fn memory_of(error: CopyError) -> AllocError
    requires { error ≡ errors.OutOfMemory }
{
    match error {
        CopyError::OutOfMemory => AllocError,
        CopyError::Refused { .. } => unreachable!(),
    }
}

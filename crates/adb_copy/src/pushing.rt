//! Pushing a tree of files.

ghost use Rattle.std.specs.Option.{option_or};
ghost use Rattle.std.specs.Prelude.{◌≡◌, ◌≢◌, ◌+◌, ◌<◌, ◌≤◌, [], ◌∷◌, List, ℕ, true, false, is_some, length, Some, Ok, Err, IsErr, OnOk};
ghost use Rattle.adb_copy.specs.Pushing.{FilesPushed, Pushes};
ghost use Rattle.adb_copy.specs.Trees.{AreCopied, Refusal, all_pushed, entry_of, pushed, refused_at};
ghost use Rattle.adb_copy.specs.Worlds.{Syncs, SyncsAtMost};
ghost use Rattle.adb_copy.specs.declared.error.CopyError.TheVariants as errors;
ghost use Rattle.adb_files.specs.declared.file.File.{File};
ghost use Rattle.adb_files.specs.Files.{IsFileMap, file_at};
ghost use Rattle.adb_world.specs.Parts.{most_sessions};

use crate::error::CopyError;
use crate::pushed::PushedTree;
use crate::seeds::next_seed;
use crate::sending::read_answer;
use adb_world::World;
use rand_core::SeedableRng;
use rand_pcg::Pcg32;
use std::alloc::Global;

/// Pushes each file of a tree to the world's device, in byte order of the paths, each in a session
/// of its own. The device has each file with the same mode, time and bytes, and all else is
/// unchanged.
///
/// - `Refused`: the device refused a file. The files before it are stored. A device without files
///   refuses no file.
/// - `OutOfMemory`: an allocation failed. The world is spent, or some sessions were given. The
///   device has a prefix of the files of the tree, each of them whole, and all else is unchanged.
pub fn push_tree<T: PushedTree>(
    alloc: Global,
    world: &mut World,
    seed: u64,
    tree: &T,
) -> Result<(), CopyError>
    requires settled { world.old.settled ≡ true }
    requires tree { AreCopied (T.files tree.now) }
    requires room { world.old.given + length (T.files tree.now) ≤ most_sessions }
    ensures ok { OnOk result (pushed world.old.files (T.files tree.now)
        ≡ all_pushed world.new.files) }
    ensures in_place { OnOk result ((path : List ℕ) → file_at path world.new.files
        ≡ option_or (file_at path (T.files tree.now)) (file_at path world.old.files)) }
    ensures syncs { OnOk result (Syncs (length (T.files tree.now)) world.old world.new) }
    ensures empty { world.old.files ≡ [] → result ≢ Err errors.OutOfMemory
        → (result ≡ Ok tt) × (world.new.files ≡ T.files tree.now) }
    ensures refused { (path text : List ℕ) → result ≡ Err (errors.Refused path text)
        → pushed world.old.files (T.files tree.now) ≡ refused_at world.new.files path text }
    ensures told { (refusal : Refusal)
        → (pushed world.old.files (T.files tree.now)).refused ≡ Some refusal
        → result ≢ Err errors.OutOfMemory
        → result ≡ Err (errors.Refused refusal.path refusal.text) }
    ensures part { world.old.spent ≡ false → world.new.spent ≡ false
        → FilesPushed (T.files tree.now) world.old.files world.new.files
        × SyncsAtMost (length (T.files tree.now)) world.old world.new }
    ensures in_part { FilesPushed (T.files tree.now) world.old.files world.new.files }
    ensures stays { world.old.spent ≡ true
        → (T.files tree.now ≢ [] → IsErr result) × (world.new ≡ world.old) }
{
    tree.are_a_map();
    push_files(alloc, world, seed, tree)
}

/// Pushes the files of a tree in order.
fn push_files<T: PushedTree>(
    alloc: Global,
    world: &mut World,
    seed: u64,
    tree: &T,
) -> Result<(), CopyError>
    requires settled { world.old.settled ≡ true }
    requires map { IsFileMap (T.files tree.now) }
    requires tree { AreCopied (T.files tree.now) }
    requires room { world.old.given + length (T.files tree.now) ≤ most_sessions }
    ensures { Pushes (T.files tree.now) result world.old world.new }
{
    let mut words = Pcg32::seed_from_u64(seed);
    let mut after: &[u8] = b"";
    while let Some(path) = tree.next_path(after) {
        push_next(alloc, world, next_seed(&mut words), tree, path)?;
        after = path;
    }
    Ok(())
}

/// Pushes the file at a path.
fn push_next<T: PushedTree>(
    alloc: Global,
    world: &mut World,
    seed: u64,
    tree: &T,
    path: &[u8],
) -> Result<(), CopyError>
    requires settled { world.old.settled ≡ true }
    requires map { IsFileMap (T.files tree.now) }
    requires tree { AreCopied (T.files tree.now) }
    requires there { is_some (file_at path.now (T.files tree.now)) ≡ true }
    requires room { world.old.given < most_sessions }
    ensures { (file : File) → file_at path.now (T.files tree.now) ≡ Some file
        → Pushes (entry_of path.now file ∷ []) result world.old world.new }
{
    let ask = tree.text(alloc, path)?;
    let answer = world.sync_text(seed, ask)?;
    read_answer(alloc, path, answer.as_slice())
}

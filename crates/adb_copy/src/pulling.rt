//! Pulling the files of the device.

ghost use Rattle.std.specs.Prelude.{◌≡◌, ◌+◌, ◌<◌, ◌≤◌, ◌++◌, ◌∷◌, [], true, false, List, length, map, None, IfOk, IsErr, OnErr, OnOk};
ghost use Rattle.adb_files.specs.Entries.{Entry};
ghost use Rattle.adb_files.specs.Files.{IsFileMap, put_refusal, with_file};
ghost use Rattle.adb_files.specs.Listing.{listing};
ghost use Rattle.adb_copy.specs.Pulled.{Fits, Pulls, PullsAtMost, WalksInto};
ghost use Rattle.adb_copy.specs.Pulling.{directories};
ghost use Rattle.adb_copy.specs.Trees.{AreCopied};
ghost use Rattle.adb_copy.specs.Waiting.{IsFile, found_in, owed};
ghost use Rattle.adb_world.specs.Parts.{most_sessions};
ghost use Rattle.adb_copy.specs.Worlds.{Syncs};
ghost use Rattle.adb_sync_client.specs.declared.request.TheConstants.{MAX_ASKED_PATH};

use crate::asking::{list, pull};
use crate::found::Found;
use crate::pulled::PulledTree;
use crate::seeds::next_seed;
use adb_files::Files;
use adb_sync::Dirent;
use adb_world::World;
use rand_core::SeedableRng;
use rand_pcg::Pcg32;
use std::alloc::{AllocError, Global};

/// Returns the files of the world's device, entry for entry. The files of the device are unchanged.
/// The requests are those of a client, each in a session of its own: a LIST of the root and of each
/// directory that a listing names, and a RECV of each file. All that was started in the world must
/// have settled.
///
/// - `AllocError`: an allocation failed. The world is spent, or only some sessions were given. The
///   files of the device are unchanged.
pub fn pull_tree(alloc: Global, world: &mut World, seed: u64) -> Result<Files, AllocError>
    requires settled { world.old.settled ≡ true }
    requires files { AreCopied world.old.files }
    requires room { world.old.given
        + (length world.old.files + length (directories world.old.files)) ≤ most_sessions }
    ensures tree { IfOk result (λ tree. tree ≡ world.old.files) }
    ensures files { world.new.files ≡ world.old.files }
    ensures syncs { OnOk result (Syncs
        (length world.old.files + length (directories world.old.files)) world.old world.new) }
    ensures left { world.new.spent ≡ false → PullsAtMost
        (length world.old.files + length (directories world.old.files)) world.old world.new }
    ensures stays { world.old.spent ≡ true → IsErr result × (world.new ≡ world.old) }
{
    let mut tree = Files::new(alloc);
    pull_into(alloc, world, seed, &mut tree)?;
    Ok(tree)
}

/// Pulls the files of the world's device, as `pull_tree` does, into a tree that represents no
/// files. Each file is put into the tree once it is received. The errors are those of `pull_tree`.
pub fn pull_into<T: PulledTree>(
    alloc: Global,
    world: &mut World,
    seed: u64,
    tree: &mut T,
) -> Result<(), AllocError>
    requires settled { world.old.settled ≡ true }
    requires files { AreCopied world.old.files }
    requires none { T.Holds tree.old [] }
    requires room { world.old.given
        + (length world.old.files + length (directories world.old.files)) ≤ most_sessions }
    ensures tree { OnOk result (T.Holds tree.new world.old.files) }
    ensures files { world.new.files ≡ world.old.files }
    ensures syncs { OnOk result (Syncs
        (length world.old.files + length (directories world.old.files)) world.old world.new) }
    ensures left { world.new.spent ≡ false → PullsAtMost
        (length world.old.files + length (directories world.old.files)) world.old world.new }
    ensures stays { world.old.spent ≡ true → IsErr result × (world.new ≡ world.old) }
{
    look_at_files(world);
    let mut words = Pcg32::seed_from_u64(seed);
    let mut pending = Vec::new(alloc);
    let root = Found::root(alloc)?;
    pending.push(root)?;
    while let Some(found) = pending.pop() {
        let seed = next_seed(&mut words);
        visit(alloc, world, seed, found, &mut pending, tree)?;
    }
    Ok(())
}

/// States that the files of the device are a map from path to file. It reads no file.
fn look_at_files(world: &World)
    ensures { IsFileMap world.now.files }
{
    let _root = world.files().get(b"/");
}

/// Lists a directory that was found, or pulls a file that was found.
fn visit<T: PulledTree>(
    alloc: Global,
    world: &mut World,
    seed: u64,
    found: Found,
    pending: &mut Vec<Found>,
    tree: &mut T,
) -> Result<(), AllocError>
    requires settled { world.old.settled ≡ true }
    requires map { IsFileMap world.old.files }
    requires files { AreCopied world.old.files }
    requires walks { WalksInto T.Holds world.old.files (pending.old.items ++ found ∷ [])
        tree.old }
    requires room { world.old.given
        + owed world.old.files (pending.old.items ++ found ∷ []) ≤ most_sessions }
    ensures walks { OnOk result (WalksInto T.Holds world.old.files pending.new.items tree.new) }
    ensures owed { OnOk result (owed world.old.files (pending.old.items ++ found ∷ [])
        ≡ owed world.old.files pending.new.items + 1) }
    ensures pulls { OnOk result (Pulls 1 world.old world.new) }
    ensures left { world.new.spent ≡ false → PullsAtMost 1 world.old world.new }
    ensures kept { OnErr result (world.new.files ≡ world.old.files) }
    ensures stays { world.old.spent ≡ true → IsErr result × (world.new ≡ world.old) }
{
    if found.is_directory() {
        list_found(alloc, world, seed, &found, pending)?;
        Ok(())
    } else {
        pull_found(alloc, world, seed, &found, tree)?;
        Ok(())
    }
}

/// Lists a directory that was found, and appends its entries to the pending ones.
fn list_found(
    alloc: Global,
    world: &mut World,
    seed: u64,
    found: &Found,
    pending: &mut Vec<Found>,
) -> Result<(), AllocError>
    requires settled { world.old.settled ≡ true }
    requires room { world.old.given < most_sessions }
    requires map { IsFileMap world.old.files }
    requires files { AreCopied world.old.files }
    requires short { length found.now.path ≤ MAX_ASKED_PATH }
    ensures entries { OnOk result (pending.new.items ≡ pending.old.items
        ++ map (found_in found.now.path) (listing found.now.path world.old.files)) }
    ensures pulls { OnOk result (Pulls 1 world.old world.new) }
    ensures left { world.new.spent ≡ false → PullsAtMost 1 world.old world.new }
    ensures kept { OnErr result (world.new.files ≡ world.old.files) }
    ensures stays { world.old.spent ≡ true → IsErr result × (world.new ≡ world.old) }
{
    let directory = found.path.as_slice();
    let entries = list(alloc, world, seed, directory)?;
    add_entries(alloc, pending, directory, entries.as_slice())?;
    Ok(())
}

/// Pulls a file that was found into a tree that does not refuse it.
fn pull_found<T: PulledTree>(
    alloc: Global,
    world: &mut World,
    seed: u64,
    found: &Found,
    tree: &mut T,
) -> Result<(), AllocError>
    requires settled { world.old.settled ≡ true }
    requires room { world.old.given < most_sessions }
    requires map { IsFileMap world.old.files }
    requires short { length found.now.path ≤ MAX_ASKED_PATH }
    requires there { IsFile world.old.files found.now }
    requires fits { (is : IsFile world.old.files found.now)
        → Fits T.Holds tree.old found.now.path (length is.file.bytes) }
    ensures put { (is : IsFile world.old.files found.now) (files : List Entry)
        → T.Holds tree.old files → put_refusal files found.now.path (length is.file.bytes) ≡ None
        → OnOk result (T.Holds tree.new (with_file found.now.path is.file files)) }
    ensures pulls { OnOk result (Pulls 1 world.old world.new) }
    ensures left { world.new.spent ≡ false → PullsAtMost 1 world.old world.new }
    ensures kept { OnErr result (world.new.files ≡ world.old.files) }
    ensures stays { world.old.spent ≡ true → IsErr result × (world.new ≡ world.old) }
{
    let file = pull(alloc, world, seed, found)?;
    tree.put(found.path.as_slice(), file)?;
    Ok(())
}

/// Appends the entries of a directory to the pending ones.
fn add_entries(
    alloc: Global,
    pending: &mut Vec<Found>,
    directory: &[u8],
    entries: &[Dirent],
) -> Result<(), AllocError>
    ensures { OnOk result (pending.new.items
        ≡ pending.old.items ++ map (found_in directory.now) entries.now) }
{
    for entry in entries {
        let found = Found::in_directory(alloc, directory, entry)?;
        pending.push(found)?;
    }
    Ok(())
}

//! Requests about a path to the device of a world.

ghost use Rattle.std.specs.Prelude.{◌≡◌, ◌<◌, ◌≤◌, true, false, ℕ, length, take, IfOk, IsErr, OnErr, OnOk};
ghost use Rattle.adb_files.specs.Files.{IsFileMap};
ghost use Rattle.adb_files.specs.Listing.{listing};
ghost use Rattle.adb_files.specs.Requests.{requests_in};
ghost use Rattle.adb_files.specs.Served.{serve_all, served};
ghost use Rattle.adb_copy.specs.Pulled.{Pulls, PullsAtMost};
ghost use Rattle.adb_copy.specs.Trees.{AreCopied};
ghost use Rattle.adb_copy.specs.Waiting.{IsDone, IsFile};
ghost use Rattle.adb_world.specs.Parts.{most_sessions};
ghost use Rattle.adb_sync_client.specs.declared.step.Step.TheVariants as steps;
ghost use Rattle.adb_sync_client.specs.declared.request.TheConstants.{MAX_ASKED_PATH};

use crate::found::Found;
use adb_files::File;
use adb_outside::Text;
use adb_script::read_whole;
use adb_sync::Dirent;
use adb_sync_client::{Entries, PathAsk, PathValue, Step, written_files_are_pulled};
use adb_world::World;
use std::alloc::{AllocError, Global};

/// Returns the entries of a directory.
///
/// - `AllocError`: an allocation failed. The files are unchanged.
pub fn list(
    alloc: Global,
    world: &mut World,
    seed: u64,
    directory: &[u8],
) -> Result<Vec<Dirent>, AllocError>
    requires settled { world.old.settled ≡ true }
    requires room { world.old.given < most_sessions }
    requires map { IsFileMap world.old.files }
    requires files { AreCopied world.old.files }
    requires short { length directory.now ≤ MAX_ASKED_PATH }
    ensures entries { IfOk result (λ entries.
        entries.items ≡ listing directory.now world.old.files) }
    ensures pulls { OnOk result (Pulls 1 world.old world.new) }
    ensures left { world.new.spent ≡ false → PullsAtMost 1 world.old world.new }
    ensures kept { OnErr result (world.new.files ≡ world.old.files) }
    ensures stays { world.old.spent ≡ true → IsErr result × (world.new ≡ world.old) }
{
    let step = ask::<Entries>(alloc, world, seed, directory)?;
    let entries = value_of(step);
    Ok(entries.into_vec())
}

/// Returns a file that was found, with its bytes.
///
/// - `AllocError`: an allocation failed. The files are unchanged.
pub fn pull(alloc: Global, world: &mut World, seed: u64, found: &Found) -> Result<File, AllocError>
    requires settled { world.old.settled ≡ true }
    requires room { world.old.given < most_sessions }
    requires map { IsFileMap world.old.files }
    requires short { length found.now.path ≤ MAX_ASKED_PATH }
    requires there { IsFile world.old.files found.now }
    ensures file { (is : IsFile world.old.files found.now) → IfOk result (λ file. file ≡ is.file) }
    ensures pulls { OnOk result (Pulls 1 world.old world.new) }
    ensures left { world.new.spent ≡ false → PullsAtMost 1 world.old world.new }
    ensures kept { OnErr result (world.new.files ≡ world.old.files) }
    ensures stays { world.old.spent ≡ true → IsErr result × (world.new ≡ world.old) }
{
    written_files_are_pulled();
    let step = ask::<Text>(alloc, world, seed, found.path.as_slice())?;
    let bytes = value_of(step);
    Ok(File {
        mode: found.mode,
        mtime: found.mtime,
        bytes,
    })
}

/// Returns the value of an answer that is complete and no refusal.
fn value_of<V: Drop>(step: Step<V>) -> V
    requires { IsDone step }
    ensures { step ≡ steps.Done result }
{
    match step {
        Step::Done(value) => value,
        Step::More => unreachable!(),
        Step::Refused(_) => unreachable!(),
        Step::BadAnswer { .. } => unreachable!(),
    }
}

/// Makes a request about a path in a session of its own, and returns the parsed answer. The request
/// leaves the files unchanged.
fn ask<V: PathValue>(
    alloc: Global,
    world: &mut World,
    seed: u64,
    path: &[u8],
) -> Result<Step<V>, AllocError>
    requires settled { world.old.settled ≡ true }
    requires room { world.old.given < most_sessions }
    requires short { length path.now ≤ MAX_ASKED_PATH }
    requires leaves { (served world.old.files (V.text path.now)).files ≡ world.old.files }
    requires in_part { (k : ℕ) → (serve_all world.old.files
        (take k (requests_in (V.text path.now)))).files ≡ world.old.files }
    ensures step { IfOk result (λ step.
        step ≡ V.value (served world.old.files (V.text path.now)).answer) }
    ensures pulls { OnOk result (Pulls 1 world.old world.new) }
    ensures left { world.new.spent ≡ false → PullsAtMost 1 world.old world.new }
    ensures kept { OnErr result (world.new.files ≡ world.old.files) }
    ensures stays { world.old.spent ≡ true → IsErr result × (world.new ≡ world.old) }
{
    let mut ask = PathAsk::<V>::new(alloc, path)?;
    let text = Text::from_slice(alloc, ask.out())?;
    let answer = world.sync_text(seed, text)?;
    let step = read_whole(&mut ask, answer.as_slice())?;
    Ok(step)
}

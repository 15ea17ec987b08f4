//! The place of a path among the files.

ghost use Rattle.std.specs.Prelude.{◌≡◌, ◌++◌, MatchResult, OnOk, OnErr};
ghost use Rattle.adb_files.specs.Files.{IsRising, ChangesAt, with_file};
ghost use Rattle.adb_files.specs.Places.{StandsAt, FitsAt, BeginsAt};

use crate::file::File;
use crate::path::compare;
use crate::slot::Slot;
use adb_outside::Text;
use std::alloc::{AllocError, Global};
use std::sync::Arc;

/// Returns the place of the slot of the path `front` and `back`, or the place where it would be
/// inserted.
pub fn place_of(slots: &[Slot], front: &[u8], back: &[u8]) -> Result<usize, usize>
    requires { IsRising slots.now }
    ensures { MatchResult result
        (λ i. StandsAt (front.now ++ back.now) slots.now i)
        (λ i. FitsAt (front.now ++ back.now) slots.now i) }
{
    slots.binary_search_by(|slot| compare(slot.path(), front, back))
}

/// Returns the place of the slot of the path, or the place where it would be inserted.
pub fn place_at(slots: &[Slot], path: &[u8]) -> Result<usize, usize>
    requires { IsRising slots.now }
    ensures { MatchResult result
        (λ i. StandsAt path.now slots.now i)
        (λ i. FitsAt path.now slots.now i) }
{
    place_of(slots, path, b"")
}

/// Returns the place of the first slot with a path that is not before `front` and `back`.
pub fn first_from(slots: &[Slot], front: &[u8], back: &[u8]) -> usize
    requires { IsRising slots.now }
    ensures { BeginsAt (front.now ++ back.now) slots.now result }
{
    match place_of(slots, front, back) {
        Ok(i) | Err(i) => i,
    }
}

/// Puts a file at the path, in place of the one that is there. If an allocation fails, the slots
/// are unchanged.
pub fn store(
    alloc: Global,
    slots: &mut Vec<Slot>,
    path: &[u8],
    file: File,
) -> Result<(), AllocError>
    requires { IsRising slots.old.items }
    ensures list { OnOk result (slots.new.items ≡ with_file path.now file slots.old.items) }
    ensures changes { OnOk result
        (ChangesAt path.now (Some file) slots.old.items slots.new.items) }
    ensures err { OnErr result (slots.new.items ≡ slots.old.items) }
{
    let file = Arc::new(alloc, file)?;
    match place_at(slots.as_slice(), path) {
        Ok(i) => slots[i].replace(file),
        Err(i) => {
            let path = Text::from_slice(alloc, path)?;
            slots.insert(i, Slot::new(path, file))?;
        }
    }
    Ok(())
}

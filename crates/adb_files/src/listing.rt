//! The entries of a directory.

ghost use Rattle.std.specs.Prelude.{◌≡◌, ◌<◌, ℕ, true, length, slice_index_or, IfOk};
ghost use Rattle.adb_files.specs.Entries.{Entry};
ghost use Rattle.adb_files.specs.Paths.{is_below};
ghost use Rattle.adb_files.specs.Files.{IsFileMap};
ghost use Rattle.adb_files.specs.Listing.{slash_in, shown_in, dirent_of, named, Advances};

use crate::path::{is_below, slash_behind};
use crate::place::first_from;
use crate::slot::Slot;
use crate::stat::Stat;
use adb_outside::Text;
use adb_sync::Dirent;
use std::alloc::{AllocError, Global};
use std::collections::BTreeMap;

/// The attributes of the names in a directory.
type Shown = BTreeMap<Vec<u8>, Stat>;

/// The byte after a slash in the order of bytes.
const BEHIND_SLASH: &[u8] = b"0";

/// Returns the names in a directory with the attributes that the files below it give them. Only the
/// first file below a subdirectory is looked at.
pub fn shown_in(alloc: Global, slots: &[Slot], directory: &[u8]) -> Result<Shown, AllocError>
    requires { IsFileMap slots.now }
    ensures { IfOk result (λ found. named found.entries ≡ shown_in directory.now slots.now) }
{
    let mut found = BTreeMap::new(alloc);
    let mut at = first_from(slots, directory, slash_behind(directory));
    while at < slots.len() && is_below(directory, slots[at].path()) {
        at = show(alloc, slots, at, directory, &mut found)?;
    }
    Ok(found)
}

/// Adds the name and attributes that the file at a place gives the directory above it. Returns the
/// place of the next file that may give another name.
fn show(
    alloc: Global,
    slots: &[Slot],
    at: usize,
    directory: &[u8],
    found: &mut Shown,
) -> Result<usize, AllocError>
    requires files { IsFileMap slots.now }
    requires within { at < length slots.now }
    requires below { (other : Entry)
        → is_below directory.now (slice_index_or slots.now at other).path ≡ true }
    ensures { IfOk result (λ next. Advances directory.now slots.now at next
        (named found.old.entries) (named found.new.entries)) }
{
    let slot = &slots[at];
    let path = slot.path();
    let start = directory.len() + slash_behind(directory).len();
    let rest = &path[start..];
    match slash_in(rest) {
        None => {
            found.insert(Vec::from_slice(alloc, rest)?, Stat::of(slot.file()))?;
            Ok(at + 1)
        }
        Some(length) => {
            found.insert(Vec::from_slice(alloc, &rest[..length])?, Stat::directory())?;
            Ok(first_from(slots, &path[..start + length], BEHIND_SLASH))
        }
    }
}

/// Returns the place of the first slash.
fn slash_in(rest: &[u8]) -> Option<usize>
    ensures { result ≡ slash_in rest.now }
{
    rest.iter().position(|byte| *byte == b'/')
}

/// Returns the directory entry of a name and its attributes.
pub fn dirent_of(name: Vec<u8>, stat: Stat) -> Dirent
    ensures { result ≡ dirent_of (name.items, stat) }
{
    Dirent {
        name: Text::from_vec(name),
        mode: stat.mode,
        size: stat.size,
        mtime: stat.mtime,
    }
}

//! The entries of a directory.

ghost use Rattle.std.specs.Prelude.{◌≡◌, IfOk};

use adb_sync::Dirent;
use std::alloc::{AllocError, Global};
use std::marker::Model;

/// The entries of a directory, in the order of the answer. Contracts see them as that list.
#[derive(Drop)]
pub struct Entries {
    entries: Vec<Dirent>,
}

impl Model for Entries {
    ghost use Rattle.std.specs.Prelude.{List};
    ghost use Rattle.adb_sync.specs.declared.answer.Dirent.{Dirent};

    ghost Value = { List Dirent };

    ghost view = { λ e. e.entries.items };
}

impl Entries {
    /// Returns a copy of these entries. Fails if an allocation fails.
    pub fn copy_of(alloc: Global, entries: &[Dirent]) -> Result<Entries, AllocError>
        ensures { IfOk result (λ copy. copy ≡ entries.now) }
    {
        let mut copies = Vec::new(alloc);
        for entry in entries {
            let copy = copy_of(entry)?;
            copies.push(copy)?;
        }
        Ok(Entries { entries: copies })
    }

    /// Returns the entries of a `Vec`, which is moved. Allocates nothing.
    pub fn from_vec(entries: Vec<Dirent>) -> Entries
        ensures { result ≡ entries.items }
    {
        Entries { entries }
    }

    /// Returns the entries.
    pub fn as_slice(&self) -> &[Dirent]
        ensures { result.now ≡ self.now }
    {
        self.entries.as_slice()
    }

    /// Returns the entries as a `Vec`. Allocates nothing.
    pub fn into_vec(self) -> Vec<Dirent>
        ensures { result.items ≡ self }
    {
        self.entries
    }
}

/// Returns a copy of an entry.
fn copy_of(entry: &Dirent) -> Result<Dirent, AllocError>
    ensures { IfOk result (λ copy. copy ≡ entry.now) }
{
    Ok(Dirent {
        name: entry.name.copy()?,
        mode: entry.mode,
        size: entry.size,
        mtime: entry.mtime,
    })
}

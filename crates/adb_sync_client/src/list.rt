//! Listing a directory.

use crate::asking::{PathAsk, PathValue};
use crate::entries::Entries;
use crate::kind::AnswerKind;
use crate::request::spelled;
use crate::told::Told;
use adb_outside::{ByteQueue, Text};
use adb_sync::SyncAsk;
use std::alloc::{AllocError, Global};

/// LIST of a path. Its value is the entries of the directory.
pub type List = PathAsk<Entries>;

impl PathValue for Entries {
    ghost use Rattle.std.specs.Prelude.{refl};
    ghost use Rattle.adb_sync_client.specs.declared.kind.AnswerKind.TheVariants as kinds;
    ghost use Rattle.adb_sync_client.specs.Texts.{list_text};
    ghost use Rattle.adb_sync_client.specs.Values.{list_value};

    ghost kind = { kinds.List };

    ghost text = { list_text };

    ghost part = { λ said. said.entries };

    ghost value = { list_value };

    ghost is_part = { λ bytes. refl };

    fn kind() -> AnswerKind {
        AnswerKind::List
    }

    fn request(alloc: Global, path: &[u8]) -> Result<ByteQueue, AllocError> {
        spelled(alloc, &SyncAsk::List(Text::from_slice(alloc, path)?))
    }

    fn of(told: &Told) -> Result<Entries, AllocError> {
        Entries::copy_of(*told.entries.allocator(), told.entries.as_slice())
    }

    fn give(told: &mut Told) -> Entries {
        Entries::from_vec(told.give_entries())
    }
}

//! Pulling a file.

use crate::asking::{PathAsk, PathValue};
use crate::kind::AnswerKind;
use crate::request::spelled;
use crate::told::Told;
use adb_outside::{ByteQueue, Text};
use adb_sync::SyncAsk;
use std::alloc::{AllocError, Global};

/// RECV of a path. Its value is the bytes of the file.
pub type Pull = PathAsk<Text>;

impl PathValue for Text {
    ghost use Rattle.std.specs.Prelude.{refl};
    ghost use Rattle.adb_sync_client.specs.declared.kind.AnswerKind.TheVariants as kinds;
    ghost use Rattle.adb_sync_client.specs.Texts.{pull_text};
    ghost use Rattle.adb_sync_client.specs.Values.{pull_value};

    ghost kind = { kinds.Pull };

    ghost text = { pull_text };

    ghost part = { λ said. said.bytes };

    ghost value = { pull_value };

    ghost is_part = { λ bytes. refl };

    fn kind() -> AnswerKind {
        AnswerKind::Pull
    }

    fn request(alloc: Global, path: &[u8]) -> Result<ByteQueue, AllocError> {
        spelled(alloc, &SyncAsk::Recv(Text::from_slice(alloc, path)?))
    }

    fn of(told: &Told) -> Result<Text, AllocError> {
        told.bytes.copy()
    }

    fn give(told: &mut Told) -> Text {
        told.give_bytes()
    }
}

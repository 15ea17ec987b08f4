//! The attributes of a path.

use crate::asking::{PathAsk, PathValue};
use crate::kind::AnswerKind;
use crate::request::spelled;
use crate::step::StatValue;
use crate::told::Told;
use adb_outside::{ByteQueue, Text};
use adb_sync::SyncAsk;
use std::alloc::{AllocError, Global};

/// STAT of a path. Its value is the attributes of the path.
pub type Stat = PathAsk<StatValue>;

impl PathValue for StatValue {
    ghost use Rattle.std.specs.Prelude.{refl};
    ghost use Rattle.adb_sync_client.specs.declared.kind.AnswerKind.TheVariants as kinds;
    ghost use Rattle.adb_sync_client.specs.Texts.{stat_text};
    ghost use Rattle.adb_sync_client.specs.Values.{stat_value};

    ghost kind = { kinds.Stat };

    ghost text = { stat_text };

    ghost part = { λ said. said.stat };

    ghost value = { stat_value };

    ghost is_part = { λ bytes. refl };

    fn kind() -> AnswerKind {
        AnswerKind::Stat
    }

    fn request(alloc: Global, path: &[u8]) -> Result<ByteQueue, AllocError> {
        spelled(alloc, &SyncAsk::Stat(Text::from_slice(alloc, path)?))
    }

    fn of(told: &Told) -> Result<StatValue, AllocError> {
        Ok(told.stat)
    }

    fn give(told: &mut Told) -> StatValue {
        told.stat
    }
}

//! The up rule for several streams, in rising id.

ghost use Rattle.std.specs.Prelude.{◌≡◌, ℕ};
ghost use Rattle.adb_history.specs.Flow.{up_all};
ghost use Rattle.adb_hub_tables.specs.Endings.{Reports};
ghost use Rattle.adb_hub_tables.specs.Tables.{state_of};
ghost use Rattle.adb_hub_tables.specs.Places.{IsCounted};
ghost use Rattle.adb_hub_rules.specs.Up.{IsSized};
ghost use Rattle.adb_hub_rules.specs.Sweep.{up_each, CoversUp, IsReadyEach, UsesEach};

use crate::up_rule::up;
use adb_hub_tables::{Endings, Tables};
use std::collections::BTreeSet;

/// Applies the up rule to the streams of these ids, one after another. If no other stream has bytes
/// to send, this is the up rule for all streams.
pub fn up_each(tables: &mut Tables, ends: &mut Endings, ids: &BTreeSet<u32>)
    requires ready { IsReadyEach ids.now.keys tables.old }
    requires sized { IsSized tables.old }
    requires counted { IsCounted tables.old }
    ensures state { state_of tables.new ≡ (up_each ids.now.keys (state_of tables.old)).state }
    ensures all { (k : ℕ) → CoversUp ids.now.keys k (state_of tables.old)
        → state_of tables.new ≡ (up_all k (state_of tables.old)).state }
    ensures reports { (k : ℕ) → CoversUp ids.now.keys k (state_of tables.old)
        → Reports (up_all k (state_of tables.old)).told
        ends.old tables.old ends.new tables.new }
    ensures uses { UsesEach ids.now.keys tables.old tables.new }
    ensures devices { tables.new.devices ≡ tables.old.devices }
{
    for id in ids.iter() {
        up(tables, ends, *id);
    }
}

//! Devices that are unplugged.

ghost use Rattle.std.specs.Prelude.{◌≡◌, is_some};
ghost use Rattle.adb_outside.specs.declared.kinds.Cause.{Cause};
ghost use Rattle.adb_capture.specs.declared.entry.Entry.TheVariants.{Detach};
ghost use Rattle.adb_hub_tables.specs.Endings.{Tells};
ghost use Rattle.adb_hub_tables.specs.Fit.{IsFit, IsReached, Makes};
ghost use Rattle.adb_hub_tables.specs.Tables.{state_of};

use adb_history::Ending;
use adb_hub_rules::end_link;
use adb_hub_tables::{Endings, Tables};

/// Unplugs a device: removes its link, if it is there, and ends its streams. It allocates nothing.
/// The streams that end are recorded, in the log's spare places.
pub fn detach(tables: &mut Tables, ends: &mut Endings, link: u32)
    requires fit { IsFit tables.old }
    requires reached { IsReached (state_of tables.old) }
    ensures made { (cause : Cause) → Makes (Detach link cause) tables.old tables.new }
    ensures told { (cause : Cause) → Tells (Detach link cause) ends.old tables.old ends.new }
{
    if has_link(tables, link) {
        end_link(tables, ends, link, Ending::Lost);
    }
}

/// Returns whether a link exists.
fn has_link(tables: &Tables, link: u32) -> bool
    ensures { result ≡ is_some ((state_of tables.now).links link) }
{
    tables.links.contains_key(&link)
}

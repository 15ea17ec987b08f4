//! Handing out output to links.

ghost use Rattle.std.specs.Prelude.{◌≡◌, ◌<◌, take, IfOk, OnErr};
ghost use Rattle.adb_capture.specs.declared.entry.Entry.TheVariants.{Send};
ghost use Rattle.adb_hub_tables.specs.Fit.{IsFit, IsReached, Keeps};
ghost use Rattle.adb_hub_tables.specs.Tables.{state_of};
ghost use Rattle.adb_hub_hand_outs.specs.Handed.{due_on, IsFront, HandsOut};

use adb_hub_rules::hand_link;
use adb_hub_tables::Tables;
use adb_outside::{HandOut, Text};
use std::alloc::AllocError;

/// Hands out the first bytes of a link's output queue, at most `max`. Returns `None` exactly if the
/// link does not exist or its queue is empty. If an allocation fails, nothing has changed.
pub fn send(tables: &mut Tables, link: u32, max: usize) -> Result<Option<HandOut>, AllocError>
    requires fit { IsFit tables.old }
    requires reached { IsReached (state_of tables.old) }
    requires some { 0 < max }
    ensures bytes { IfOk result (IsFront max (due_on ((state_of tables.old).links link))) }
    ensures made { IfOk result (λ bytes. HandsOut (Send link) bytes tables.old tables.new) }
    ensures kept { OnErr result (Keeps tables.old tables.new) }
{
    let bytes = front_of(tables, link, max)?;
    if bytes.is_empty() {
        return Ok(None);
    }
    hand_link(tables, link, bytes.len());
    Ok(Some(bytes))
}

/// Returns the first bytes of a link's output queue, at most `max`.
fn front_of(tables: &Tables, link: u32, max: usize) -> Result<HandOut, AllocError>
    ensures { IfOk result (λ bytes.
        bytes ≡ take max (due_on ((state_of tables.now).links link))) }
{
    match tables.links.get(&link) {
        Some(port) => port.link.front(max),
        None => Ok(HandOut::own(Text::new(tables.alloc))),
    }
}

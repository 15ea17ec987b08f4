//! The list of the devices for a client that tracks it (SERVICES.TXT, `host:track-devices`).

ghost use Rattle.std.specs.Prelude.{◌≡◌, ◌<◌, ◌^◌, length, IfOk};
ghost use Rattle.adb_reply.specs.Answer.{device_list};
ghost use Rattle.adb_history.specs.Tracking.{tracked_list};
ghost use Rattle.adb_hub_tables.specs.Tables.{state_of};
ghost use Rattle.adb_hub_hand_outs.specs.Handed.{list_to};

use adb_hub_tables::Tables;
use adb_outside::Text;
use adb_registry::Registry;
use adb_reply::push_string;
use std::alloc::{AllocError, Global};

/// Returns the current list, if the client's list is stale and its output queue is empty.
pub(crate) fn list_for(tables: &Tables, client: u32) -> Result<Option<Text>, AllocError>
    ensures { let s = state_of tables.now in
        IfOk result (λ list. list ≡ list_to s.devices (s.clients client)) }
{
    let Some(row) = tables.clients.get(&client) else {
        return Ok(None);
    };
    if row.owed() > 0 || !row.about().mark {
        return Ok(None);
    }
    let list = tracked_list(tables.alloc, &tables.devices, row.about().long)?;
    Ok(Some(list))
}

/// Returns the list after its length.
fn tracked_list(alloc: Global, devices: &Registry, long: bool) -> Result<Text, AllocError>
    ensures { IfOk result (λ list. list ≡ tracked_list devices.now long) }
{
    let lines = device_list(devices, long)?;
    let mut list = Text::new(alloc);
    push_string(&mut list, lines.as_slice())?;
    Ok(list)
}

fn device_list(devices: &Registry, long: bool) -> Result<Text, AllocError>
    ensures lines { IfOk result (λ list. list ≡ device_list devices.now.rows long) }
    ensures fits { IfOk result (λ list. length list < 2 ^ 16) }
{
    if long {
        devices.long_list()
    } else {
        devices.short_list()
    }
}

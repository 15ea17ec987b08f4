//! Places that are reserved for acknowledgements to devices.

ghost use Rattle.std.specs.Prelude.{◌≡◌, option_map, OnOk};
ghost use Rattle.adb_outside.specs.Tables.{at};
ghost use Rattle.adb_hub_tables.specs.Widening.{Widens};
ghost use Rattle.adb_hub_rules.specs.Handing.{HasRoom, open_stream};

use adb_client::Phase;
use adb_hub_tables::{Tables, reserve_packets};
use std::alloc::AllocError;

/// Reserves a place for the acknowledgement to the device of a client's open stream.
pub(crate) fn keep_answer(tables: &mut Tables, client: u32) -> Result<(), AllocError>
    ensures room { OnOk result
        (HasRoom 1 (open_stream (at client tables.new.clients.entries) tables.new) tables.new) }
    ensures widens { Widens tables.old tables.new }
{
    match open_link(tables, client) {
        Some(link) => reserve_packets(&mut tables.links, link, 1),
        None => Ok(()),
    }
}

/// Returns the link of the stream that a client has open.
fn open_link(tables: &Tables, client: u32) -> Option<u32>
    ensures { result ≡ option_map (λ stream. stream.link)
        (open_stream (at client tables.now.clients.entries) tables.now) }
{
    let row = tables.clients.get(&client)?;
    match row.about().phase {
        Phase::Streaming(id) => link_of(tables, id),
        _ => None,
    }
}

/// Returns the link of a stream.
fn link_of(tables: &Tables, id: u32) -> Option<u32>
    ensures { result ≡ option_map (λ stream. stream.link) (at id tables.now.streams.streams) }
{
    match tables.streams.get(id) {
        Some(stream) => Some(stream.link),
        None => None,
    }
}

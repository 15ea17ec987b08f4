//! Bytes of clients, and clients that come through forwards.

ghost use Rattle.std.specs.Prelude.{◌≡◌, ◌+◌, OnOk, OnErr};
ghost use Rattle.adb_capture.specs.declared.entry.Entry.TheVariants.{Enter, Read};
ghost use Rattle.adb_hub_tables.specs.Endings.{Tells};
ghost use Rattle.adb_hub_tables.specs.Fit.{IsFit, IsReached, Makes, Keeps};
ghost use Rattle.adb_hub_tables.specs.Tables.{state_of};

use crate::asking::ask;
use crate::entering::come;
use crate::sending::send;
use crate::taking::take_in;
use adb_client::Phase;
use adb_hub_rules::phase_of;
use adb_hub_tables::{Endings, Tables};
use std::alloc::AllocError;

/// Adds a client that came through the forward of a port: a stream is asked for on the device to
/// which the forward leads. If it leads nowhere, no row is kept for the client. If an allocation
/// fails, nothing has changed.
pub fn enter(tables: &mut Tables, client: u32, port: u16) -> Result<(), AllocError>
    requires fit { IsFit tables.old }
    requires reached { IsReached (state_of tables.old) }
    requires next { client ≡ tables.old.joined + 1 }
    ensures made { OnOk result (Makes (Enter client port) tables.old tables.new) }
    ensures kept { OnErr result (Keeps tables.old tables.new) }
{
    come(tables, client, port)
}

/// Submits bytes of a client: they are its requests, are sent on its stream, or are held until its
/// stream is open. If an allocation fails, nothing has changed. The streams that end are recorded,
/// in the log's spare places.
pub fn read(
    tables: &mut Tables,
    ends: &mut Endings,
    client: u32,
    piece: &[u8],
) -> Result<(), AllocError>
    requires fit { IsFit tables.old }
    requires reached { IsReached (state_of tables.old) }
    ensures made { OnOk result (Makes (Read client piece.now) tables.old tables.new) }
    ensures told { OnOk result (Tells (Read client piece.now) ends.old tables.old ends.new) }
    ensures kept { OnErr result (Keeps tables.old tables.new) }
    ensures quiet { OnErr result (ends.new ≡ ends.old) }
{
    match phase_of(tables, client) {
        Phase::Asking => ask(tables, ends, client, piece),
        Phase::Opening(_) => take_in(tables, client, piece),
        Phase::Streaming(id) => send(tables, ends, client, id, piece),
        Phase::Binding | Phase::Tracking | Phase::Closing | Phase::Gone => Ok(()),
    }
}

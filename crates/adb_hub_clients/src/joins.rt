//! Clients that come.

ghost use Rattle.std.specs.Prelude.{◌≡◌, ◌+◌, Some, OnOk, OnErr};
ghost use Rattle.adb_outside.specs.Tables.{Puts};
ghost use Rattle.adb_capture.specs.declared.entry.Entry.TheVariants.{Join};
ghost use Rattle.adb_hub_tables.specs.Fit.{IsFit, IsReached, Makes, Keeps};
ghost use Rattle.adb_hub_tables.specs.Tables.{state_of};

use adb_client::Client;
use adb_hub_tables::{Tables, TouchedMap};
use std::alloc::AllocError;

/// Adds a client, under the next number. If an allocation fails, nothing has changed.
pub fn join(tables: &mut Tables, client: u32) -> Result<(), AllocError>
    requires fit { IsFit tables.old }
    requires reached { IsReached (state_of tables.old) }
    requires next { client ≡ tables.old.joined + 1 }
    ensures made { OnOk result (Makes (Join client) tables.old tables.new) }
    ensures kept { OnErr result (Keeps tables.old tables.new) }
{
    let row = Client::new(tables.alloc, client, false)?;
    put_client(&mut tables.clients, client, row)?;
    tables.joined = client;
    Ok(())
}

/// Inserts a client's row under its number.
fn put_client(clients: &mut TouchedMap<Client>, id: u32, client: Client) -> Result<(), AllocError>
    ensures put { OnOk result (Puts id (Some client) clients.old.entries clients.new.entries) }
    ensures err { OnErr result (clients.new.entries ≡ clients.old.entries) }
{
    clients.insert(id, client)?;
    Ok(())
}

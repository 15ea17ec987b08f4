//! Clients that come through forwards (SERVICES.TXT, `<host-prefix>:forward`).

ghost use Rattle.std.specs.Prelude.{◌≡◌, ◌≤◌, ◌<◌, ◌+◌, ◌++◌, ◌∷◌, [], ℕ, List, length, true};
ghost use Rattle.std.specs.Prelude.{None, Some, IfOk, OnOk, OnErr};
ghost use Rattle.adb_outside.specs.Tables.{at, Puts};
ghost use Rattle.adb_wire.specs.declared.headers.TheConstants.{MAX_PAYLOAD};
ghost use Rattle.adb_history.specs.Rows.{State};
ghost use Rattle.adb_history.specs.Streams.{opens};
ghost use Rattle.adb_history.specs.Reading.{comes, enters};
ghost use Rattle.adb_hub_tables.specs.Fit.{IsFit};
ghost use Rattle.adb_hub_tables.specs.Tables.{state_of};
ghost use Rattle.adb_hub_clients.specs.Leaving.{Leaves};
ghost use Rattle.adb_hub_clients.specs.Entering.{Leads, new_entrant};

use crate::opening::{Asker, open, open_payload};
use adb_client::Client;
use adb_hub_tables::{Tables, TouchedMap};
use bytes::Bytes;
use std::alloc::{AllocError, Global};

/// The way to a device: its link, and the payload of the OPEN for a service there.
#[derive(Drop)]
struct Way {
    link: u32,
    payload: Bytes,
}

/// Adds a client that comes through the forward of a port, and asks for that forward's stream. If
/// the forward leads nowhere, no row is kept for the client.
pub(crate) fn come(tables: &mut Tables, client: u32, port: u16) -> Result<(), AllocError>
    requires fit { IsFit tables.old }
    requires next { client ≡ tables.old.joined + 1 }
    requires fresh { (state_of tables.old).clients client ≡ None }
    ensures made { OnOk result
        (Leaves (enters client port (state_of tables.old)).state tables.new) }
    ensures kept { OnErr result (Leaves (state_of tables.old) tables.new) }
{
    match way_of(tables, port)? {
        Some(way) => come_by(tables, client, way),
        None => {
            tables.joined = client;
            Ok(())
        }
    }
}

/// Returns the way to the device of a port's forward, if the device is connected.
fn way_of(tables: &Tables, port: u16) -> Result<Option<Way>, AllocError>
    ensures { IfOk result (λ way. Leads way (at port tables.now.forwards) tables.now.devices) }
{
    let Some(row) = tables.forwards.find(port) else {
        return Ok(None);
    };
    if !tables.is_connected(row.transport) {
        return Ok(None);
    }
    Ok(Some(Way {
        link: row.transport,
        payload: open_payload(tables.alloc, row.remote.as_slice())?,
    }))
}

/// Adds a client that asks for a stream.
fn come_by(tables: &mut Tables, client: u32, way: Way) -> Result<(), AllocError>
    requires fit { IsFit tables.old }
    requires next { client ≡ tables.old.joined + 1 }
    requires fresh { (state_of tables.old).clients client ≡ None }
    requires size { length way.payload ≤ MAX_PAYLOAD }
    ensures made { OnOk result ((service : List ℕ) → way.payload ≡ service ++ 0 ∷ []
        → Leaves (opens true client way.link service
        (comes true client (state_of tables.old))).state tables.new) }
    ensures kept { OnErr result (Leaves (state_of tables.old) tables.new) }
{
    add_client(tables, client)?;
    let asker = Asker {
        client,
        forwarded: true,
        link: way.link,
    };
    match open(tables, &asker, way.payload) {
        Ok(()) => Ok(()),
        Err(error) => {
            take_out(tables, client);
            Err(error)
        }
    }
}

/// Adds the next client.
fn add_client(tables: &mut Tables, client: u32) -> Result<(), AllocError>
    requires fit { IsFit tables.old }
    requires next { client ≡ tables.old.joined + 1 }
    ensures made { OnOk result (Leaves (comes true client (state_of tables.old)) tables.new) }
    ensures kept { OnErr result (Leaves (state_of tables.old) tables.new) }
{
    insert(&mut tables.clients, tables.alloc, client)?;
    tables.joined = client;
    Ok(())
}

/// Inserts a client that came through a forward.
fn insert(clients: &mut TouchedMap<Client>, alloc: Global, client: u32) -> Result<(), AllocError>
    ensures ok { OnOk result (Puts client (Some (new_entrant client))
        clients.old.entries clients.new.entries) }
    ensures err { OnErr result (clients.new.entries ≡ clients.old.entries) }
{
    clients.insert(client, Client::new(alloc, client, true)?)?;
    Ok(())
}

/// Removes the client that came last, and takes back its number.
fn take_out(tables: &mut Tables, client: u32)
    requires fit { IsFit tables.old }
    requires drawn { 0 < client }
    ensures { (s : State) → s.clients client ≡ None → client ≡ s.joined + 1
        → state_of tables.old ≡ comes true client s → Leaves s tables.new }
{
    tables.drop_client(client);
    tables.joined = client - 1;
}

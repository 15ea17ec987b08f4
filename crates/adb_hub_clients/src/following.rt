//! The actions after the last request of a client, each a function: memory is allocated first, then
//! the replies are queued, and then the action is performed.

ghost use Rattle.std.specs.Prelude.{◌≡◌, ◌+◌, ◌≤◌, [], List, ℕ, length, Some, None};
ghost use Rattle.std.specs.Prelude.{false, option_and_then, OnOk, OnErr};
ghost use Rattle.adb_outside.specs.Tables.{at, change_row, without};
ghost use Rattle.adb_wire.specs.declared.headers.TheConstants.{MAX_PAYLOAD};
ghost use Rattle.adb_history.specs.Rows.{to_client};
ghost use Rattle.adb_history.specs.Clients.{closes};
ghost use Rattle.adb_history.specs.Forwarding.{put_forward};
ghost use Rattle.adb_history.specs.Streams.{opens};
ghost use Rattle.adb_history.specs.Reading.{tracks, awaits, goes_on};
ghost use Rattle.adb_laws_resting.specs.Wanted.{IsSoundNext, IsRebound};
ghost use Rattle.adb_hub_tables.specs.Fit.{IsFit};
ghost use Rattle.adb_hub_tables.specs.Tables.{state_of, client_row};
ghost use Rattle.adb_hub_tables.specs.Tracked.{clients_of, IsAmong};
ghost use Rattle.adb_hub_clients.specs.Leaving.{Leaves, IsPlaced};
ghost use Rattle.adb_hub_clients.specs.Asking.{hears, CanHearAt, FitsNext};

use crate::hearing::{Heard, hear};
use crate::opening::{Asker, open_behind, open_payload};
use crate::stopping::stop;
use adb_client::{Client, Phase, Want};
use adb_forward::ForwardError;
use adb_hub_tables::{Tables, TouchedMap};
use adb_outside::Text;
use adb_reply::Next;
use std::alloc::AllocError;
use std::collections::BTreeSet;

/// Queues the replies to a client's requests, and then performs the action after the last of them.
pub(crate) fn follow(
    tables: &mut Tables,
    client: u32,
    heard: &Heard,
    next: Option<Next>,
) -> Result<(), AllocError>
    requires fit { IsFit tables.old }
    requires ready { CanHearAt heard.now (at client tables.old.clients.entries) }
    requires fits { FitsNext next }
    requires follows { IsSoundNext tables.old.forwards next }
    ensures made { OnOk result (Leaves (goes_on next client
        (hears heard.now client (state_of tables.old))).state tables.new) }
    ensures kept { OnErr result (Leaves (state_of tables.old) tables.new) }
{
    match next {
        Some(next) => follow_next(tables, client, heard, next),
        None => {
            hear(tables, client, heard);
            Ok(())
        }
    }
}

fn follow_next(
    tables: &mut Tables,
    client: u32,
    heard: &Heard,
    next: Next,
) -> Result<(), AllocError>
    requires fit { IsFit tables.old }
    requires ready { CanHearAt heard.now (at client tables.old.clients.entries) }
    requires fits { FitsNext (Some next) }
    requires follows { IsSoundNext tables.old.forwards (Some next) }
    ensures made { OnOk result (Leaves (goes_on (Some next) client
        (hears heard.now client (state_of tables.old))).state tables.new) }
    ensures kept { OnErr result (Leaves (state_of tables.old) tables.new) }
{
    match next {
        Next::Select(_) => hear(tables, client, heard),
        Next::Close => close(tables, client, heard),
        Next::Track { long } => return track(tables, client, heard, long),
        Next::Open { transport, service } => {
            return open(tables, client, heard, transport, &service);
        }
        Next::Bind {
            transport,
            local,
            remote,
            chosen: _,
        } => bind(
            tables,
            client,
            heard,
            Want {
                transport,
                local,
                remote,
            },
        ),
        Next::Rebind {
            transport,
            local,
            remote,
        } => return rebind(tables, client, heard, transport, local, &remote),
        Next::Unbind(local) => unbind(tables, client, heard, local),
        Next::UnbindAll => unbind_all(tables, client, heard),
        Next::Stop => end(tables, client, heard),
    }
    Ok(())
}

/// Stops reading from the client.
fn close(tables: &mut Tables, client: u32, heard: &Heard)
    requires fit { IsFit tables.old }
    requires ready { CanHearAt heard.now (at client tables.old.clients.entries) }
    ensures { Leaves (closes client (hears heard.now client (state_of tables.old))) tables.new }
{
    hear(tables, client, heard);
    shut(tables, client);
}

/// Stops reading from a client; if its output queue is empty, its row is removed.
fn shut(tables: &mut Tables, client: u32)
    requires { IsFit tables.old }
    ensures { Leaves (closes client (state_of tables.old)) tables.new }
{
    tables.close_client(client);
}

/// Makes the client a tracker of the list of devices.
fn track(tables: &mut Tables, client: u32, heard: &Heard, long: bool) -> Result<(), AllocError>
    requires fit { IsFit tables.old }
    requires ready { CanHearAt heard.now (at client tables.old.clients.entries) }
    ensures made { OnOk result (Leaves (to_client client (tracks long)
        (hears heard.now client (state_of tables.old))) tables.new) }
    ensures kept { OnErr result (Leaves (state_of tables.old) tables.new) }
{
    list(tables, client)?;
    hear(tables, client, heard);
    set_tracking(tables, client, long);
    Ok(())
}

/// Adds a client to the set of trackers.
fn list(tables: &mut Tables, client: u32) -> Result<(), AllocError>
    requires { IsFit tables.old }
    ensures made { Leaves (state_of tables.old) tables.new }
    ensures listed { OnOk result (IsAmong client tables.new.trackers.keys) }
    ensures others { tables.new ≡ record tables.old { trackers = tables.new.trackers } }
{
    add_key(&mut tables.trackers, client)
}

fn add_key(trackers: &mut BTreeSet<u32>, client: u32) -> Result<(), AllocError>
    ensures listed { OnOk result (IsAmong client trackers.new.keys) }
    ensures stays { (c : ℕ) → IsAmong c trackers.old.keys → IsAmong c trackers.new.keys }
{
    trackers.insert(client)?;
    Ok(())
}

fn set_tracking(tables: &mut Tables, client: u32, long: bool)
    requires fit { IsFit tables.old }
    requires listed { IsAmong client tables.old.trackers.keys }
    ensures { Leaves (to_client client (tracks long) (state_of tables.old)) tables.new }
{
    track_in(&mut tables.clients, client, long);
}

fn track_in(clients: &mut TouchedMap<Client>, client: u32, long: bool)
    ensures rows { clients_of clients.new.entries
        ≡ change_row client (option_and_then (tracks long)) (clients_of clients.old.entries) }
    ensures placed { (c : ℕ) (trackers : List ℕ) → IsAmong client trackers
        → IsPlaced c trackers (at c clients.old.entries)
        → IsPlaced c trackers (at c clients.new.entries) }
{
    if let Some(row) = clients.get_mut(&client) {
        track_row(row, long);
    }
}

fn track_row(row: &mut Client, long: bool)
    ensures row { Some (client_row row.new) ≡ tracks long (client_row row.old) }
    ensures phase { row.new.about.phase ≡ Phase.Tracking }
{
    drop_held(row);
    let about = row.about_mut();
    about.phase = Phase::Tracking;
    about.long = long;
    about.mark = false;
}

/// Drops the held bytes of a client.
fn drop_held(row: &mut Client)
    ensures row { client_row row.new ≡ record (client_row row.old) { held = [] } }
    ensures places { row.new.places ≡ row.old.places }
{
    let n = row.held();
    row.pass_over(n);
}

/// Asks for a stream to a service of a device, for the client.
fn open(
    tables: &mut Tables,
    client: u32,
    heard: &Heard,
    link: u32,
    service: &Text,
) -> Result<(), AllocError>
    requires fit { IsFit tables.old }
    requires ready { CanHearAt heard.now (at client tables.old.clients.entries) }
    requires size { length service.now + 1 ≤ MAX_PAYLOAD }
    ensures made { OnOk result (Leaves (opens false client link service.now
        (hears heard.now client (state_of tables.old))).state tables.new) }
    ensures kept { OnErr result (Leaves (state_of tables.old) tables.new) }
{
    let payload = open_payload(tables.alloc, service.as_slice())?;
    let asker = Asker {
        client,
        forwarded: false,
        link,
    };
    open_behind(tables, &asker, heard, payload)
}

/// Makes the client wait for the listener of a forward.
fn bind(tables: &mut Tables, client: u32, heard: &Heard, want: Want)
    requires fit { IsFit tables.old }
    requires ready { CanHearAt heard.now (at client tables.old.clients.entries) }
    ensures { Leaves (to_client client (awaits want)
        (hears heard.now client (state_of tables.old))) tables.new }
{
    hear(tables, client, heard);
    set_waiting(tables, client, want);
}

fn set_waiting(tables: &mut Tables, client: u32, want: Want)
    requires { IsFit tables.old }
    ensures { Leaves (to_client client (awaits want) (state_of tables.old)) tables.new }
{
    wait_in(&mut tables.clients, client, want);
}

fn wait_in(clients: &mut TouchedMap<Client>, client: u32, want: Want)
    ensures rows { clients_of clients.new.entries
        ≡ change_row client (option_and_then (awaits want)) (clients_of clients.old.entries) }
    ensures placed { (c : ℕ) (trackers : List ℕ) → IsPlaced c trackers (at c clients.old.entries)
        → IsPlaced c trackers (at c clients.new.entries) }
{
    if let Some(row) = clients.get_mut(&client) {
        wait_row(row, want);
    }
}

fn wait_row(row: &mut Client, want: Want)
    ensures row { Some (client_row row.new) ≡ awaits want (client_row row.old) }
    ensures phase { row.new.about.phase ≡ Phase.Binding }
{
    drop_held(row);
    let about = row.about_mut();
    about.phase = Phase::Binding;
    about.want = Some(want);
}

/// Gives the forward of a port another device and end, and stops reading from the client.
fn rebind(
    tables: &mut Tables,
    client: u32,
    heard: &Heard,
    transport: u32,
    local: u16,
    remote: &Text,
) -> Result<(), AllocError>
    requires fit { IsFit tables.old }
    requires ready { CanHearAt heard.now (at client tables.old.clients.entries) }
    requires follows { IsRebound local remote.now tables.old.forwards }
    ensures made { OnOk result (Leaves (goes_on (Some (Next.Rebind transport local remote.now))
        client (hears heard.now client (state_of tables.old))).state tables.new) }
    ensures kept { OnErr result (Leaves (state_of tables.old) tables.new) }
{
    put_forward(tables, transport, local, remote)?;
    close(tables, client, heard);
    Ok(())
}

/// Gives the forward of a port a device and an end; if the device is gone, it does nothing.
fn put_forward(
    tables: &mut Tables,
    transport: u32,
    local: u16,
    remote: &Text,
) -> Result<(), AllocError>
    requires fit { IsFit tables.old }
    requires follows { IsRebound local remote.now tables.old.forwards }
    ensures made { OnOk result (Leaves (record (state_of tables.old) {
      forwards = put_forward local transport remote.now tables.old.devices tables.old.forwards;
    }) tables.new) }
    ensures kept { OnErr result (Leaves (state_of tables.old) tables.new) }
    ensures clients { tables.new.clients ≡ tables.old.clients }
{
    let Some(row) = tables.devices.row(transport) else {
        return Ok(());
    };
    let put = tables.forwards.put(
        local,
        transport,
        row.serial.as_slice(),
        remote.as_slice(),
        false,
    );
    match put {
        Ok(()) => Ok(()),
        Err(ForwardError::OutOfMemory) => Err(AllocError),
        Err(_) => unreachable!(),
    }
}

/// Ends the forward of a port, and stops reading from the client.
fn unbind(tables: &mut Tables, client: u32, heard: &Heard, local: u16)
    requires fit { IsFit tables.old }
    requires ready { CanHearAt heard.now (at client tables.old.clients.entries) }
    ensures { Leaves (goes_on (Some (Next.Unbind local)) client
        (hears heard.now client (state_of tables.old))).state tables.new }
{
    remove_forward(tables, local);
    close(tables, client, heard);
}

fn remove_forward(tables: &mut Tables, local: u16)
    requires { IsFit tables.old }
    ensures made { Leaves (record (state_of tables.old) {
      forwards = without local tables.old.forwards;
    }) tables.new }
    ensures clients { tables.new.clients ≡ tables.old.clients }
{
    tables.forwards.remove(local);
}

/// Ends all forwards, and stops reading from the client.
fn unbind_all(tables: &mut Tables, client: u32, heard: &Heard)
    requires fit { IsFit tables.old }
    requires ready { CanHearAt heard.now (at client tables.old.clients.entries) }
    ensures { Leaves (goes_on (Some Next.UnbindAll) client
        (hears heard.now client (state_of tables.old))).state tables.new }
{
    remove_forwards(tables);
    close(tables, client, heard);
}

fn remove_forwards(tables: &mut Tables)
    requires { IsFit tables.old }
    ensures made { Leaves (record (state_of tables.old) { forwards = [] }) tables.new }
    ensures clients { tables.new.clients ≡ tables.old.clients }
{
    tables.forwards.remove_all();
}

/// Stops the server.
pub(crate) fn end(tables: &mut Tables, client: u32, heard: &Heard)
    requires fit { IsFit tables.old }
    requires ready { CanHearAt heard.now (at client tables.old.clients.entries) }
    ensures { Leaves (goes_on (Some Next.Stop) client
        (hears heard.now client (state_of tables.old))).state tables.new }
{
    hear(tables, client, heard);
    stop(tables, client);
}

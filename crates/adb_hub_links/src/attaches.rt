//! Devices that are plugged in.

ghost use Rattle.std.specs.Prelude.{◌<◌, ◌^◌, ◌≡◌, ◌≢◌, ◌+◌, None, Some};
ghost use Rattle.std.specs.Prelude.{IfOk, IsOkUnless, MatchOption, OnOk, OnErr};
ghost use Rattle.adb_outside.specs.Tables.{IsRising, Puts};
ghost use Rattle.adb_registry.specs.Registry.{attach_refusal};
ghost use Rattle.adb_wire.specs.declared.command.Command.TheVariants.{Cnxn};
ghost use Rattle.adb_capture.specs.declared.entry.Entry.TheVariants.{Attach};
ghost use Rattle.adb_hub_tables.specs.Fit.{IsFit, IsReached, Makes, Keeps};
ghost use Rattle.adb_hub_tables.specs.Tables.{state_of};
ghost use Rattle.adb_hub_links.specs.Plugged.{greeted, greeting};

use adb_hub_tables::{Port, Tables, TouchedMap};
use adb_link::Link;
use adb_outside::Kind;
use adb_registry::AttachError;
use adb_wire::{Command, Head, MAX_PAYLOAD, VERSION};
use bytes::Bytes;
use std::alloc::{AllocError, Global};

/// Attaches a device that was plugged in, under the next id, and returns the id. The server's own
/// identity is queued for it, and each tracker's list is stale. The registry's refusals are checked
/// first, in its order. After an error nothing has changed.
pub fn attach(tables: &mut Tables, kind: Kind, serial: &[u8]) -> Result<u32, AttachError>
    requires fit { IsFit tables.old }
    requires reached { IsReached (state_of tables.old) }
    ensures refused { MatchOption (attach_refusal tables.old.devices serial.now)
        (IsOkUnless result AttachError.OutOfMemory) (λ refusal. result ≡ Err refusal) }
    ensures id { IfOk result (λ id. id ≡ tables.old.devices.drawn + 1) }
    ensures fits { IfOk result (λ id. id < 2 ^ 32) }
    ensures made { IfOk result (λ id. Makes (Attach id kind serial.now) tables.old tables.new) }
    ensures kept { OnErr result (Keeps tables.old tables.new) }
{
    match tables.devices.refusal(serial) {
        Some(refusal) => Err(refusal),
        None => plug_in(tables, kind, serial),
    }
}

/// Attaches a device that is not refused.
fn plug_in(tables: &mut Tables, kind: Kind, serial: &[u8]) -> Result<u32, AttachError>
    requires fit { IsFit tables.old }
    requires reached { IsReached (state_of tables.old) }
    requires taken { attach_refusal tables.old.devices serial.now ≡ None }
    ensures memory { IsOkUnless result AttachError.OutOfMemory }
    ensures id { IfOk result (λ id. id ≡ tables.old.devices.drawn + 1) }
    ensures fits { IfOk result (λ id. id < 2 ^ 32) }
    ensures made { IfOk result (λ id. Makes (Attach id kind serial.now) tables.old tables.new) }
    ensures kept { OnErr result (Keeps tables.old tables.new) }
{
    let id = next_id(tables);
    let port = greeted(tables.alloc)?;
    put_port(&mut tables.links, id, port)?;
    match tables.devices.attach(kind, serial) {
        Ok(id) => {
            tables.mark_all();
            Ok(id)
        }
        Err(error) => {
            take_port(&mut tables.links, id);
            Err(error)
        }
    }
}

/// Returns the id that the next device gets; no stream is on its link yet.
fn next_id(tables: &Tables) -> u32
    requires { tables.now.devices.drawn ≢ u32.MAX }
    ensures id { result ≡ tables.now.devices.drawn + 1 }
    ensures rises { IsRising tables.now.streams.streams }
{
    tables.streams.are_sound();
    tables.devices.drawn() + 1
}

/// Returns a link with the server's identity queued.
fn greeted(alloc: Global) -> Result<Port, AllocError>
    ensures { IfOk result (λ port. port ≡ greeted) }
{
    let mut link = Link::new(alloc);
    link.owe_slice(
        &greeting(),
        Bytes::from_static(b"host::features=shell_v2,hub_credit"),
    )?;
    Ok(Port { link, kept: 0 })
}

/// Returns the header of the server's identity.
fn greeting() -> Head
    ensures { result ≡ greeting }
{
    Head {
        command: Command::Cnxn,
        arg0: VERSION,
        arg1: MAX_PAYLOAD,
        length: 34,
        check: 0,
    }
}

/// Inserts a link under its id.
fn put_port(links: &mut TouchedMap<Port>, id: u32, port: Port) -> Result<(), AllocError>
    ensures put { OnOk result (Puts id (Some port) links.old.entries links.new.entries) }
    ensures err { OnErr result (links.new.entries ≡ links.old.entries) }
{
    links.insert(id, port)?;
    Ok(())
}

/// Removes the link of an id.
fn take_port(links: &mut TouchedMap<Port>, id: u32)
    ensures { Puts id None links.old.entries links.new.entries }
{
    links.remove(&id);
}

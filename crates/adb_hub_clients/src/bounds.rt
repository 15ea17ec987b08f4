//! Listeners that were bound, or could not be.

ghost use Rattle.std.specs.Prelude.{◌≡◌, ◌≤◌, ◌<◌, ◌++◌, codes, true, length, Some};
ghost use Rattle.std.specs.Prelude.{IfOk, OnOk, OnErr};
ghost use Rattle.adb_client.specs.declared.about.Want.{Want};
ghost use Rattle.adb_capture.specs.declared.entry.Entry.TheVariants.{Bound};
ghost use Rattle.adb_history.specs.Forwarding.{is_unbound, bound_by, told_port};
ghost use Rattle.adb_hub_tables.specs.Fit.{IsFit, IsReached, Makes, Keeps};
ghost use Rattle.adb_hub_tables.specs.Tables.{state_of};
ghost use Rattle.adb_hub_clients.specs.Binding.{waits, want_of, WantsForward, IsBound};
ghost use Rattle.adb_laws_resting.specs.Wanted.{IsRemote};

use adb_client::{Phase, Want};
use adb_forward::{ForwardError, Forwards};
use adb_hub_tables::{Tables, reserve_slices};
use adb_outside::Text;
use adb_registry::Registry;
use adb_reply::push_string;
use bytes::Bytes;
use itoa::Buffer;
use std::alloc::{AllocError, Global};

/// Reports the listener of a waiting client: it is bound to a port, or could not be if the port is
/// 0. The answer is queued for the client, which is closing then. If an allocation fails, nothing
/// has changed.
pub fn bound(tables: &mut Tables, client: u32, port: u16) -> Result<(), AllocError>
    requires fit { IsFit tables.old }
    requires reached { IsReached (state_of tables.old) }
    ensures made { OnOk result (Makes (Bound client port) tables.old tables.new) }
    ensures kept { OnErr result (Keeps tables.old tables.new) }
{
    bind_client(tables, client, port)
}

/// Does the same for a client that wants an allowed forward, if it wants one.
fn bind_client(tables: &mut Tables, client: u32, port: u16) -> Result<(), AllocError>
    requires fit { IsFit tables.old }
    requires reached { IsReached (state_of tables.old) }
    requires wants { WantsForward ((state_of tables.old).clients client) }
    ensures made { OnOk result (Makes (Bound client port) tables.old tables.new) }
    ensures kept { OnErr result (Keeps tables.old tables.new) }
{
    if !waits(tables, client) {
        return Ok(());
    }
    reserve_slices(&mut tables.clients, client, 1)?;
    let reply = bind(tables, client, port)?;
    tables.owe_client(client, reply);
    tables.close_client(client);
    Ok(())
}

/// Returns whether a client waits for the listener of a forward.
fn waits(tables: &Tables, client: u32) -> bool
    ensures { result ≡ waits ((state_of tables.now).clients client) }
{
    match tables.clients.get(&client) {
        Some(row) => row.about().phase == Phase::Binding && row.about().want.is_some(),
        None => false,
    }
}

/// Puts the forward that a client wants, if its listener is bound. Returns the answer to the
/// client.
fn bind(tables: &mut Tables, client: u32, port: u16) -> Result<Bytes, AllocError>
    requires waits { waits ((state_of tables.old).clients client) ≡ true }
    requires wants { WantsForward ((state_of tables.old).clients client) }
    ensures bound { IfOk result (λ reply. (want : Want)
        → want_of ((state_of tables.old).clients client) ≡ Some want
        → IsBound want port tables.old reply tables.new.forwards) }
    ensures others { tables.new ≡ record tables.old { forwards = tables.new.forwards } }
    ensures short { IfOk result (λ reply. length reply ≤ 64) }
    ensures err { OnErr result (tables.new.forwards ≡ tables.old.forwards) }
{
    let Some(row) = tables.clients.get(&client) else {
        unreachable!()
    };
    match &row.about().want {
        Some(want) => forward(
            tables.alloc,
            &mut tables.forwards,
            &tables.devices,
            want,
            port,
        ),
        None => unreachable!(),
    }
}

/// Puts a forward that is wanted, if its listener is bound. Returns the answer to the client.
fn forward(
    alloc: Global,
    forwards: &mut Forwards,
    devices: &Registry,
    want: &Want,
    port: u16,
) -> Result<Bytes, AllocError>
    requires { IsRemote want.now.remote }
    ensures reply { IfOk result (λ reply.
        reply ≡ (bound_by want.now port devices.now forwards.old).reply) }
    ensures after { OnOk result
        (forwards.new ≡ (bound_by want.now port devices.now forwards.old).forwards) }
    ensures short { IfOk result (λ reply. length reply ≤ 64) }
    ensures err { OnErr result (forwards.new ≡ forwards.old) }
{
    if is_unbound(want.local, port, forwards) {
        return Ok(Bytes::from_static(b"FAIL0014cannot bind listener"));
    }
    let Some(row) = devices.row(want.transport) else {
        return Ok(Bytes::from_static(b"FAIL001ddevice offline (no transport)"));
    };
    if forwards.is_full() {
        return Ok(Bytes::from_static(b"FAIL0011too many forwards"));
    }
    let reply = told(alloc, want.local, port)?;
    let serial = row.serial.as_slice();
    match forwards.put(port, want.transport, serial, want.remote.as_slice(), false) {
        Ok(()) => Ok(reply),
        Err(ForwardError::OutOfMemory) => Err(AllocError),
        Err(_) => unreachable!(),
    }
}

/// Returns whether a listener at a port, or at none, can't serve a client that asked for a port.
fn is_unbound(asked: u16, port: u16, forwards: &Forwards) -> bool
    ensures { result ≡ is_unbound asked port forwards.now }
{
    port == 0 || (asked != 0 && asked != port) || forwards.find(port).is_some()
}

/// Returns the answer that the listener is bound, with its port if any port was asked for.
fn told(alloc: Global, asked: u16, port: u16) -> Result<Bytes, AllocError>
    ensures reply { IfOk result (λ reply. reply ≡ codes "OKAYOKAY" ++ told_port asked port) }
    ensures short { IfOk result (λ reply. length reply ≤ 64) }
{
    if asked != 0 {
        return Ok(Bytes::from_static(b"OKAYOKAY"));
    }
    let mut text = Text::from_slice(alloc, b"OKAYOKAY")?;
    push_string(&mut text, Buffer::new().format(port).as_bytes())?;
    share(text)
}

/// Returns the bytes of a text, to be shared.
fn share(text: Text) -> Result<Bytes, AllocError>
    ensures { IfOk result (λ bytes. bytes ≡ text) }
{
    let bytes = Bytes::from_vec(text.into_vec())?;
    Ok(bytes)
}

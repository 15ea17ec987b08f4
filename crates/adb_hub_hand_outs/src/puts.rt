//! Handing out output to clients.

ghost use Rattle.std.specs.Prelude.{◌≡◌, ◌<◌, ℕ, None, Some, take, IfOk, OnOk, OnErr};
ghost use Rattle.adb_outside.specs.Tables.{at};
ghost use Rattle.adb_capture.specs.declared.entry.Entry.TheVariants.{Put};
ghost use Rattle.adb_hub_tables.specs.Fit.{IsFit, IsReached, Keeps};
ghost use Rattle.adb_hub_tables.specs.Tables.{state_of};
ghost use Rattle.adb_hub_hand_outs.specs.Handed.{due_to, offered_to, list_to, listed};
ghost use Rattle.adb_hub_hand_outs.specs.Handed.{Lists, IsFront, HandsOut};

use crate::lists::list_for;
use crate::places::keep_answer;
use adb_client::Client;
use adb_hub_rules::hand_client;
use adb_hub_tables::{Tables, TouchedMap};
use adb_outside::{HandOut, Text};
use std::alloc::AllocError;

/// Hands out the first bytes for a client, at most `max`: those of its output queue or, if the
/// queue is empty, of the current list of the devices, if the client's list is stale. Returns
/// `None` exactly if the client does not exist or there are no such bytes. If an allocation fails,
/// nothing has changed.
pub fn put(tables: &mut Tables, client: u32, max: usize) -> Result<Option<HandOut>, AllocError>
    requires fit { IsFit tables.old }
    requires reached { IsReached (state_of tables.old) }
    requires some { 0 < max }
    ensures bytes { let s = state_of tables.old in
        IfOk result (IsFront max (offered_to s.devices (s.clients client))) }
    ensures made { IfOk result (λ bytes. HandsOut (Put client) bytes tables.old tables.new) }
    ensures kept { OnErr result (Keeps tables.old tables.new) }
{
    match list_for(tables, client)? {
        Some(list) => put_list(tables, client, &list, max),
        None => put_due(tables, client, max),
    }
}

/// Hands out the first bytes of a client's output queue, without a list.
fn put_due(tables: &mut Tables, client: u32, max: usize) -> Result<Option<HandOut>, AllocError>
    requires fit { IsFit tables.old }
    requires reached { IsReached (state_of tables.old) }
    requires some { 0 < max }
    requires due { let s = state_of tables.old in
        list_to s.devices (s.clients client) ≡ None }
    ensures bytes { let s = state_of tables.old in
        IfOk result (IsFront max (offered_to s.devices (s.clients client))) }
    ensures made { IfOk result (λ bytes. HandsOut (Put client) bytes tables.old tables.new) }
    ensures kept { OnErr result (Keeps tables.old tables.new) }
{
    let bytes = front_of(tables, client, max)?;
    if bytes.is_empty() {
        return Ok(None);
    }
    keep_answer(tables, client)?;
    hand_client(tables, client, bytes.len());
    Ok(Some(bytes))
}

/// Returns the first bytes of a client's output queue, at most `max`.
fn front_of(tables: &Tables, client: u32, max: usize) -> Result<HandOut, AllocError>
    ensures { IfOk result (λ bytes.
        bytes ≡ take max (due_to ((state_of tables.now).clients client))) }
{
    match tables.clients.get(&client) {
        Some(row) => row.front(max),
        None => Ok(HandOut::own(Text::new(tables.alloc))),
    }
}

/// Queues the whole list for a client with a stale list, and hands out its first bytes.
fn put_list(
    tables: &mut Tables,
    client: u32,
    list: &Text,
    max: usize,
) -> Result<Option<HandOut>, AllocError>
    requires fit { IsFit tables.old }
    requires reached { IsReached (state_of tables.old) }
    requires some { 0 < max }
    requires stale { let s = state_of tables.old in
        list_to s.devices (s.clients client) ≡ Some list.now }
    ensures bytes { let s = state_of tables.old in
        IfOk result (IsFront max (offered_to s.devices (s.clients client))) }
    ensures made { IfOk result (λ bytes. HandsOut (Put client) bytes tables.old tables.new) }
    ensures kept { OnErr result (Keeps tables.old tables.new) }
{
    let bytes = HandOut::own(Text::from_slice(tables.alloc, first(list.as_slice(), max))?);
    owe_list(&mut tables.clients, client, list)?;
    hand_client(tables, client, bytes.len());
    Ok(Some(bytes))
}

/// Returns the first bytes of a text, at most `max`.
fn first(text: &[u8], max: usize) -> &[u8]
    ensures { result.now ≡ take max text.now }
{
    &text[..max.min(text.len())]
}

/// Queues the list for a client of these. The client's list is no longer stale then.
fn owe_list(clients: &mut TouchedMap<Client>, id: u32, list: &Text) -> Result<(), AllocError>
    ensures ok { OnOk result (Lists id list.now clients.old.entries clients.new.entries) }
    ensures err { OnErr result ((c : ℕ) → at c clients.new.entries ≡ at c clients.old.entries) }
{
    match clients.get_mut(&id) {
        Some(client) => list_to(client, list),
        None => Ok(()),
    }
}

fn list_to(client: &mut Client, list: &Text) -> Result<(), AllocError>
    ensures ok { OnOk result (client.new ≡ listed list.now client.old) }
    ensures err { OnErr result (client.new ≡ client.old) }
{
    client.owe(list.as_slice())?;
    client.about_mut().mark = false;
    Ok(())
}

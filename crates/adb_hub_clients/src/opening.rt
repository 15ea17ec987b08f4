//! Requests for streams (protocol.txt, OPEN).

ghost use Rattle.std.specs.Prelude.{◌≡◌, ◌≢◌, ◌≤◌, ◌<◌, ◌++◌, ◌∷◌, [], ◌+◌, ◌-◌, ℕ, List, length};
ghost use Rattle.std.specs.Prelude.{codes, Err, IfOk, OnOk, OnErr, option_map};
ghost use Rattle.adb_outside.specs.Tables.{at};
ghost use Rattle.adb_wire.specs.declared.headers.TheConstants.{MAX_PAYLOAD};
ghost use Rattle.adb_wire.specs.Format.{packet_under};
ghost use Rattle.adb_link.specs.Linked.{IsHeadOf};
ghost use Rattle.adb_reply.specs.Strings.{failed};
ghost use Rattle.adb_stream.specs.declared.streams.DrawError.TheVariants.{NoIds};
ghost use Rattle.adb_history.specs.Rows.{to_client, to_link, in_phase};
ghost use Rattle.adb_history.specs.Clients.{closes_with};
ghost use Rattle.adb_history.specs.Links.{open_packet, owe_link, is_credit};
ghost use Rattle.adb_history.specs.Streams.{draw, no_ids_left, opens, stream_ids};
ghost use Rattle.adb_hub_tables.specs.Fit.{IsFit};
ghost use Rattle.adb_hub_tables.specs.Tables.{state_of, link_row, owing_row, owes_packet};
ghost use Rattle.adb_hub_tables.specs.Places.{HasPlaces, LinkRoom};
ghost use Rattle.adb_hub_clients.specs.Leaving.{Leaves, HasSlices, counting};
ghost use Rattle.adb_hub_clients.specs.Asking.{hears, CanHearAt};
ghost use Rattle.adb_hub_clients.specs.Opening.{IsNextId, drawn_for, asked_for};
ghost use Rattle.adb_hub_clients.specs.declared.hearing.Heard.{Heard};

use crate::hearing::{Heard, hear};
use crate::places::{make_packets, make_slices};
use adb_client::Phase;
use adb_hub_tables::{Port, Tables};
use adb_outside::SplitBytes;
use adb_stream::{CREDIT_WINDOW, DrawError};
use adb_wire::{Command, Head};
use bytes::Bytes;
use std::alloc::{AllocError, Global};
use std::vec::Vec;

/// The client that asks for a stream, and the link.
#[derive(Clone, Copy, Drop)]
pub struct Asker {
    pub client: u32,
    /// Whether the client came through a forward.
    pub forwarded: bool,
    pub link: u32,
}

/// Returns the payload of the OPEN for a service: the service, and a NUL.
pub fn open_payload(alloc: Global, service: &[u8]) -> Result<Bytes, AllocError>
    ensures { IfOk result (λ payload. payload ≡ service.now ++ 0 ∷ []) }
{
    let mut payload = Vec::new(alloc);
    payload.extend_from_slice(service)?;
    payload.push(0)?;
    Ok(Bytes::from_vec(payload)?)
}

/// Asks for a stream: draws the next id, queues the OPEN with that payload for the link, and lets
/// the client wait for the device's answer. If no id is left, a refusal is queued for the client,
/// unless it came through a forward.
pub fn open(tables: &mut Tables, asker: &Asker, payload: Bytes) -> Result<(), AllocError>
    requires fit { IsFit tables.old }
    requires size { length payload ≤ MAX_PAYLOAD }
    ensures made { OnOk result ((service : List ℕ) → payload ≡ service ++ 0 ∷ []
        → Leaves (opens asker.now.forwarded asker.now.client asker.now.link service
        (state_of tables.old)).state tables.new) }
    ensures kept { OnErr result (Leaves (state_of tables.old) tables.new) }
{
    let id = draw_for(tables, asker)?;
    ask_device(tables, asker, id, payload);
    Ok(())
}

/// Asks for a stream, as the last of some requests demands, after the replies to them.
pub(crate) fn open_behind(
    tables: &mut Tables,
    asker: &Asker,
    heard: &Heard,
    payload: Bytes,
) -> Result<(), AllocError>
    requires fit { IsFit tables.old }
    requires size { length payload ≤ MAX_PAYLOAD }
    requires ready { CanHearAt heard.now (at asker.now.client tables.old.clients.entries) }
    ensures made { OnOk result ((service : List ℕ) → payload ≡ service ++ 0 ∷ []
        → Leaves (opens asker.now.forwarded asker.now.client asker.now.link service
        (hears heard.now asker.now.client (state_of tables.old))).state tables.new) }
    ensures kept { OnErr result (Leaves (state_of tables.old) tables.new) }
{
    let id = draw_for(tables, asker)?;
    hear(tables, asker.client, heard);
    ask_device(tables, asker, id, payload);
    Ok(())
}

/// Allocates memory for a stream, and draws its id, if one is left.
fn draw_for(tables: &mut Tables, asker: &Asker) -> Result<Option<u32>, AllocError>
    requires { IsFit tables.old }
    ensures next { IfOk result (λ id. IsNextId id (state_of tables.old)) }
    ensures made { IfOk result (λ id.
        Leaves (drawn_for id asker.now (state_of tables.old)) tables.new) }
    ensures kept { OnErr result (Leaves (state_of tables.old) tables.new) }
    ensures room { OnOk result (LinkRoom 1 (at asker.now.link tables.new.links.entries)) }
    ensures slices { OnOk result (HasSlices 2 (at asker.now.client tables.new.clients.entries)) }
    ensures ready { (heard : Heard)
        → CanHearAt heard (at asker.now.client tables.old.clients.entries)
        → CanHearAt heard (at asker.now.client tables.new.clients.entries) }
{
    make_packets(tables, asker.link, 2)?;
    make_slices(tables, asker.client, 2)?;
    match add_stream(tables, asker) {
        Ok(id) => Ok(Some(id)),
        Err(DrawError::NoIds) => Ok(None),
        Err(DrawError::OutOfMemory) => Err(AllocError),
    }
}

/// Asks the device for the stream that was drawn. If none was, a refusal is queued for the client.
fn ask_device(tables: &mut Tables, asker: &Asker, id: Option<u32>, payload: Bytes)
    requires fit { IsFit tables.old }
    requires size { length payload ≤ MAX_PAYLOAD }
    requires link { LinkRoom 1 (at asker.now.link tables.old.links.entries) }
    requires client { HasSlices 2 (at asker.now.client tables.old.clients.entries) }
    ensures { (service : List ℕ) → payload ≡ service ++ 0 ∷ []
        → Leaves (asked_for id asker.now service (state_of tables.old)) tables.new }
{
    match id {
        Some(id) => begin(tables, asker, id, payload),
        None => refuse(tables, asker),
    }
}

/// Draws the next stream for a client and a link, which counts it.
fn add_stream(tables: &mut Tables, asker: &Asker) -> Result<u32, DrawError>
    requires fit { IsFit tables.old }
    requires room { HasPlaces 2 (at asker.now.link tables.old.links.entries) }
    ensures drawn { IfOk result (λ id. id ≡ tables.old.streams.drawn + 1) }
    ensures left { IfOk result (λ id. tables.old.streams.drawn ≢ stream_ids) }
    ensures made { OnOk result (Leaves (draw (is_credit asker.now.link tables.old.devices)
        asker.now.client asker.now.link (state_of tables.old)) tables.new) }
    ensures room { OnOk result (LinkRoom 1 (at asker.now.link tables.new.links.entries)) }
    ensures clients { tables.new.clients ≡ tables.old.clients }
    ensures devices { tables.new.devices ≡ tables.old.devices }
    ensures no_ids { result ≡ Err NoIds → tables.old.streams.drawn ≡ stream_ids }
    ensures err { OnErr result (tables.new ≡ tables.old) }
{
    let credit = tables.is_credit(asker.link);
    let id = tables.streams.draw(asker.client, asker.link, credit)?;
    count_stream(tables, asker.link);
    Ok(id)
}

/// Increments the number of a link's streams.
fn count_stream(tables: &mut Tables, link: u32)
    requires { HasPlaces 2 (at link tables.old.links.entries) }
    ensures state { state_of tables.new ≡ state_of tables.old }
    ensures tables { tables.new ≡ record tables.old { links = tables.new.links } }
    ensures here { at link tables.new.links.entries
        ≡ option_map counting (at link tables.old.links.entries) }
    ensures others { (k : ℕ) → k ≢ link
        → at k tables.new.links.entries ≡ at k tables.old.links.entries }
{
    if let Some(port) = tables.links.get_mut(&link) {
        port.kept += 1;
    }
}

/// Asks the device for the stream of an id, and lets the client wait for the answer.
fn begin(tables: &mut Tables, asker: &Asker, id: u32, payload: Bytes)
    requires fit { IsFit tables.old }
    requires size { length payload ≤ MAX_PAYLOAD }
    requires link { LinkRoom 1 (at asker.now.link tables.old.links.entries) }
    requires client { HasSlices 1 (at asker.now.client tables.old.clients.entries) }
    ensures { (service : List ℕ) → payload ≡ service ++ 0 ∷ [] → Leaves (owe_link asker.now.link
        (open_packet (is_credit asker.now.link tables.old.devices) id service)
        (to_client asker.now.client (in_phase (Phase.Opening id)) (state_of tables.old))).state
        tables.new }
{
    wait(tables, asker.client, id);
    owe_open(tables, asker.link, id, payload);
}

/// Lets a client wait for its stream.
fn wait(tables: &mut Tables, client: u32, id: u32)
    requires { HasSlices 1 (at client tables.old.clients.entries) }
    ensures state { state_of tables.new
        ≡ to_client client (in_phase (Phase.Opening id)) (state_of tables.old) }
    ensures fit { IsFit tables.old → IsFit tables.new }
    ensures others { tables.new ≡ record tables.old { clients = tables.new.clients } }
{
    if let Some(row) = tables.clients.get_mut(&client) {
        row.about_mut().phase = Phase::Opening(id);
    }
}

/// Queues the OPEN of the stream of an id, with that payload, for a link.
fn owe_open(tables: &mut Tables, link: u32, id: u32, payload: Bytes)
    requires fit { IsFit tables.old }
    requires size { length payload ≤ MAX_PAYLOAD }
    requires room { LinkRoom 1 (at link tables.old.links.entries) }
    ensures { (service : List ℕ) → payload ≡ service ++ 0 ∷ [] → Leaves (owe_link link
        (open_packet (is_credit link tables.old.devices) id service) (state_of tables.old)).state
        tables.new }
{
    let credit = tables.is_credit(link);
    let head = open_head(id, credit, &payload);
    put_packet(tables, link, &head, payload);
}

/// Returns the header of an OPEN: it gives the device a whole window of credit if the link has
/// credit.
fn open_head(id: u32, credit: bool, payload: &Bytes) -> Head
    requires { length payload.now ≤ MAX_PAYLOAD }
    ensures of { IsHeadOf result payload.now }
    ensures packet { (service : List ℕ) → payload.now ≡ service ++ 0 ∷ []
        → packet_under result payload.now ≡ open_packet credit id service }
{
    Head {
        command: Command::Open,
        arg0: id,
        arg1: if credit { CREDIT_WINDOW } else { 0 },
        length: payload.len() as u32,
        check: 0,
    }
}

/// Appends a packet to the output queue of a link.
fn put_packet(tables: &mut Tables, link: u32, head: &Head, payload: Bytes)
    requires room { LinkRoom 1 (at link tables.old.links.entries) }
    requires head { IsHeadOf head.now payload }
    ensures state { state_of tables.new
        ≡ to_link link (owes_packet (packet_under head.now payload)) (state_of tables.old) }
    ensures fit { IsFit tables.old → IsFit tables.new }
{
    if let Some(port) = tables.links.get_mut(&link) {
        put_on(port, head, payload);
    }
}

/// Appends a packet to the output queue of a link.
fn put_on(port: &mut Port, head: &Head, payload: Bytes)
    requires place { 0 < port.old.link.spare }
    requires head { IsHeadOf head.now payload }
    ensures row { link_row port.new
        ≡ owing_row (packet_under head.now payload) (link_row port.old) }
    ensures place { port.new.link.spare ≡ port.old.link.spare - 1 }
    ensures kept { port.new.kept ≡ port.old.kept }
    ensures incoming { port.new.link.incoming ≡ port.old.link.incoming }
    ensures version { port.new.link.version ≡ port.old.link.version }
{
    port.link.owe_slice_spare(head, SplitBytes::whole(payload));
}

/// Refuses a stream because none can be drawn: the refusal is queued for the client, unless it came
/// through a forward.
fn refuse(tables: &mut Tables, asker: &Asker)
    requires fit { IsFit tables.old }
    requires client { HasSlices 2 (at asker.now.client tables.old.clients.entries) }
    ensures { Leaves (no_ids_left asker.now.forwarded asker.now.client (state_of tables.old)).state
        tables.new }
{
    if asker.forwarded {
        tables.drop_client(asker.client);
    } else {
        tell_no_ids(tables, asker.client);
    }
}

/// Queues the refusal that no stream can be drawn for a client.
fn tell_no_ids(tables: &mut Tables, client: u32)
    requires fit { IsFit tables.old }
    requires client { HasSlices 2 (at client tables.old.clients.entries) }
    ensures { Leaves (closes_with client (failed (codes "no stream ids left")).bytes
        (state_of tables.old)).state tables.new }
{
    tables.owe_client(client, Bytes::from_static(b"FAIL0012no stream ids left"));
    tables.close_client(client);
}

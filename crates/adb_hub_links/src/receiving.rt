//! Bytes of a device's link.

ghost use Rattle.std.specs.Prelude.{◌≡◌, ◌≤◌, true, length, OnOk, OnErr};
ghost use Rattle.adb_outside.specs.Tables.{at};
ghost use Rattle.adb_capture.specs.declared.entry.Entry.{Entry};
ghost use Rattle.adb_wire.specs.Deframing.{no_bytes};
ghost use Rattle.adb_wire.specs.declared.headers.TheConstants.{MAX_PAYLOAD};
ghost use Rattle.adb_history.specs.Machine.{May};
ghost use Rattle.adb_hub_tables.specs.Endings.{Records, Tells};
ghost use Rattle.adb_hub_tables.specs.Fit.{IsFit, IsReached, Keeps, Makes};
ghost use Rattle.adb_hub_tables.specs.Tables.{state_of};
ghost use Rattle.adb_hub_links.specs.Cutting.{IsCutting, cut_in};
ghost use Rattle.adb_hub_links.specs.Settling.{HasSettled, LeavesNamed, settles};
ghost use Rattle.adb_hub_links.specs.Whole.{IsFreshAt, alone};

use crate::cutting::{Cutting, came, with_piece};
use crate::one_packet::{reserve_one, settle_one};
use crate::reserving::reserve;
use crate::settling::settle;
use crate::waiting::wait;
use crate::whole::{Whole, packet_alone};
use adb_hub_tables::{Endings, Port, Tables, TouchedMap};
use adb_wire::Packet;
use std::alloc::AllocError;

/// Submits bytes of a link: the packets that are whole now are handled, in order, a wrong byte
/// breaks the link, and the held bytes of clients are sent on the streams for which an OKAY came.
/// If the link is gone, nothing happens. If an allocation fails, only the numbers of reserved
/// places and of prepared pieces may have grown. The streams that end are recorded, in the log's
/// spare places.
pub fn recv(
    tables: &mut Tables,
    ends: &mut Endings,
    link: u32,
    piece: &[u8],
) -> Result<(), AllocError>
    requires fit { IsFit tables.old }
    requires reached { IsReached (state_of tables.old) }
    requires may { May (state_of tables.old) (Entry.Recv link piece.now) }
    ensures made { OnOk result (Makes (Entry.Recv link piece.now) tables.old tables.new) }
    ensures told { OnOk result (Tells (Entry.Recv link piece.now) ends.old tables.old ends.new) }
    ensures kept { OnErr result (Keeps tables.old tables.new) }
    ensures quiet { OnErr result (ends.new ≡ ends.old) }
{
    if is_fresh(&tables.links, link) {
        if let Some(packet) = packet_alone(tables.alloc, piece)? {
            return take_alone(tables, ends, link, packet);
        }
    }
    recv_piece(tables, ends, link, piece)
}

/// Submits bytes of a link, whatever they are: they are cut after the held bytes.
fn recv_piece(
    tables: &mut Tables,
    ends: &mut Endings,
    link: u32,
    piece: &[u8],
) -> Result<(), AllocError>
    requires fit { IsFit tables.old }
    requires reached { IsReached (state_of tables.old) }
    requires may { May (state_of tables.old) (Entry.Recv link piece.now) }
    ensures made { OnOk result (Makes (Entry.Recv link piece.now) tables.old tables.new) }
    ensures told { OnOk result (Tells (Entry.Recv link piece.now) ends.old tables.old ends.new) }
    ensures kept { OnErr result (Keeps tables.old tables.new) }
    ensures quiet { OnErr result (ends.new ≡ ends.old) }
{
    let Some(port) = tables.links.get(&link) else {
        return Ok(());
    };
    if piece.len() < port.link.missing() {
        return wait(&mut tables.links, link, piece);
    }
    let incoming = with_piece(tables.alloc, &mut tables.links, link, piece)?;
    let cutting = Cutting::of(tables.alloc, incoming)?;
    take(tables, ends, link, cutting)
}

/// Submits a whole packet of a link, like `recv` with its bytes. If the link is known to hold
/// nothing, and verifies no check words, the header is not parsed again, and the payload is shared.
pub fn recv_whole(
    tables: &mut Tables,
    ends: &mut Endings,
    link: u32,
    packet: &Whole,
) -> Result<(), AllocError>
    requires fit { IsFit tables.old }
    requires reached { IsReached (state_of tables.old) }
    requires may { May (state_of tables.old) (Entry.Recv link packet.now) }
    ensures made { OnOk result (Makes (Entry.Recv link packet.now) tables.old tables.new) }
    ensures told { OnOk result (Tells (Entry.Recv link packet.now) ends.old tables.old ends.new) }
    ensures kept { OnErr result (Keeps tables.old tables.new) }
    ensures quiet { OnErr result (ends.new ≡ ends.old) }
{
    if is_fresh(&tables.links, link) && packet.stands_alone() {
        let packet = packet.packet()?;
        return take_alone(tables, ends, link, packet);
    }
    recv_piece(tables, ends, link, packet.as_slice())
}

/// Returns whether a link lives that is known to hold nothing and that verifies no check words.
fn is_fresh(links: &TouchedMap<Port>, link: u32) -> bool
    ensures { result ≡ true → IsFreshAt (at link links.now.entries) }
{
    match links.get(&link) {
        Some(port) => port.link.is_fresh(),
        None => false,
    }
}

/// Handles a single packet, on a link to which nothing was fed.
fn take_alone(
    tables: &mut Tables,
    ends: &mut Endings,
    link: u32,
    packet: Packet,
) -> Result<(), AllocError>
    requires size { length packet.payload ≤ MAX_PAYLOAD }
    requires fit { IsFit tables.old }
    requires fresh { IsFreshAt (at link tables.old.links.entries) }
    requires leaves { LeavesNamed link (alone packet) (state_of tables.old) }
    ensures settled { OnOk result
        (HasSettled link (alone packet) no_bytes tables.old tables.new) }
    ensures told { OnOk result (Records (settles link (alone packet) (state_of tables.old)).told
        ends.old tables.old ends.new) }
    ensures kept { OnErr result (Keeps tables.old tables.new) }
    ensures quiet { OnErr result (ends.new ≡ ends.old) }
{
    let came = came(tables.alloc, packet)?;
    let id = reserve_one(tables, link, &came)?;
    settle_one(tables, ends, link, came, id);
    Ok(())
}

/// Handles the packets of a link, after all memory was allocated.
fn take(
    tables: &mut Tables,
    ends: &mut Endings,
    link: u32,
    cutting: Cutting,
) -> Result<(), AllocError>
    requires cut { IsCutting cutting }
    requires fit { IsFit tables.old }
    requires leaves { LeavesNamed link (cut_in cutting) (state_of tables.old) }
    ensures settled { OnOk result
        (HasSettled link (cut_in cutting) cutting.incoming tables.old tables.new) }
    ensures told { OnOk result (Records (settles link (cut_in cutting) (state_of tables.old)).told
        ends.old tables.old ends.new) }
    ensures kept { OnErr result (Keeps tables.old tables.new) }
    ensures quiet { OnErr result (ends.new ≡ ends.old) }
{
    let ids = reserve(tables, link, &cutting.packets)?;
    settle(tables, ends, link, cutting, &ids);
    Ok(())
}

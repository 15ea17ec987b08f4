//! Handling the packets of a link, and sending on the streams that they name, without an
//! allocation.

ghost use Rattle.std.specs.Prelude.{◌≡◌, ◌≢◌, ℕ, Some, All, length, is_some, option_map};
ghost use Rattle.adb_outside.specs.Tables.{at};
ghost use Rattle.adb_wire.specs.Deframing.{Deframing};
ghost use Rattle.adb_wire.specs.declared.format.PacketFault.{PacketFault};
ghost use Rattle.adb_history.specs.Events.{then_also};
ghost use Rattle.adb_history.specs.Packets.{faulty, treat_all};
ghost use Rattle.adb_hub_rules.specs.Came.{IsCame, packets_of, slices_in};
ghost use Rattle.adb_hub_tables.specs.Endings.{Records, Reports};
ghost use Rattle.adb_hub_tables.specs.Places.{ClientRoom, IsProvided, LinkRoom, Takes, Uses};
ghost use Rattle.adb_hub_tables.specs.Tables.{state_of};
ghost use Rattle.adb_hub_links.specs.Cutting.{IsCutting, cut_in};
ghost use Rattle.adb_hub_links.specs.Settling.{CanSettle, HasSettled, reading, settles};

use crate::cutting::Cutting;
use adb_history::Ending;
use adb_hub_rules::{Came, end_link, treat_all, up_each};
use adb_hub_tables::{Endings, Port, Tables, TouchedMap};
use adb_wire::Deframer;
use std::collections::{BTreeSet, VecDeque};

/// Handles the packets of a link, breaks it if a byte was wrong, and sends the held bytes of the
/// streams of these ids.
pub(crate) fn settle(
    tables: &mut Tables,
    ends: &mut Endings,
    link: u32,
    cutting: Cutting,
    ids: &BTreeSet<u32>,
)
    requires cut { IsCutting cutting }
    requires can { CanSettle link cutting.packets.items cutting.incoming ids.now.keys
        tables.old }
    ensures settled { HasSettled link (cut_in cutting) cutting.incoming tables.old tables.new }
    ensures told { Records (settles link (cut_in cutting) (state_of tables.old)).told
        ends.old tables.old ends.new }
{
    let Cutting {
        incoming,
        packets,
        broken,
    } = cutting;
    put_incoming(&mut tables.links, link, incoming);
    treat(tables, ends, link, packets, broken);
    up_each(tables, ends, ids);
}

/// Replaces the input of a link.
fn put_incoming(links: &mut TouchedMap<Port>, link: u32, incoming: Deframer)
    ensures here { at link links.new.entries
        ≡ option_map (reading incoming) (at link links.old.entries) }
    ensures apart { (k : ℕ) → k ≢ link → at k links.new.entries ≡ at k links.old.entries }
{
    if let Some(port) = links.get_mut(&link) {
        port.link.put_incoming(incoming);
    }
}

/// Handles the packets of a link, and breaks it if a byte was wrong.
fn treat(tables: &mut Tables, ends: &mut Endings, link: u32, packets: VecDeque<Came>, broken: bool)
    requires came { All IsCame packets.items }
    requires provided { IsProvided tables.old }
    requires link { LinkRoom (length packets.items) (at link tables.old.links.entries) }
    requires clients { (c : ℕ) → ClientRoom
        (slices_in (packets_of packets.items) tables.old.streams.streams c)
        (at c tables.old.clients.entries) }
    ensures state { (c : Deframing) → c.given ≡ packets_of packets.items
        → broken ≡ is_some c.fault → state_of tables.new
        ≡ (then_also (treat_all link c.given (state_of tables.old)) (faulty link c.fault)).state }
    ensures reports { (c : Deframing) → c.given ≡ packets_of packets.items
        → broken ≡ is_some c.fault → Reports
        (then_also (treat_all link c.given (state_of tables.old)) (faulty link c.fault)).told
        ends.old tables.old ends.new tables.new }
    ensures takes { Takes link (length packets.items)
        (slices_in (packets_of packets.items) tables.old.streams.streams)
        tables.old tables.new }
{
    treat_all(tables, ends, link, packets);
    if broken {
        break_off(tables, ends, link);
    }
}

/// Breaks a link, which may be gone, because a byte of it was wrong.
fn break_off(tables: &mut Tables, ends: &mut Endings, link: u32)
    requires { IsProvided tables.old }
    ensures state { (fault : PacketFault) → state_of tables.new
        ≡ (faulty link (Some fault) (state_of tables.old)).state }
    ensures reports { (fault : PacketFault) → Reports
        (faulty link (Some fault) (state_of tables.old)).told
        ends.old tables.old ends.new tables.new }
    ensures uses { (t c : ℕ) → Uses t 0 c 0 tables.old tables.new }
{
    if tables.links.contains_key(&link) {
        end_link(tables, ends, link, Ending::Broken);
    }
}

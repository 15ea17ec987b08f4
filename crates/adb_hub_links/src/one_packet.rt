//! Packets that come alone. They need no queue, and no sets or maps of numbers.

ghost use Rattle.std.specs.Prelude.{◌≡◌, ◌∷◌, [], ℕ, IfOk, OnOk, option_to_list};
ghost use Rattle.adb_outside.specs.Tables.{at};
ghost use Rattle.adb_wire.specs.Deframing.{no_bytes};
ghost use Rattle.adb_history.specs.Flow.{up_all};
ghost use Rattle.adb_laws_resting.specs.Named.{granted_by};
ghost use Rattle.adb_hub_rules.specs.Came.{IsCame, packet_of};
ghost use Rattle.adb_hub_rules.specs.Sweep.{CoversUp, IsReadyEach, UsesEach};
ghost use Rattle.adb_hub_rules.specs.Up.{IsSized};
ghost use Rattle.adb_hub_tables.specs.Endings.{Records, Reports};
ghost use Rattle.adb_hub_tables.specs.Fit.{IsFit};
ghost use Rattle.adb_hub_tables.specs.Places.{ClientRoom, IsCounted};
ghost use Rattle.adb_hub_tables.specs.Tables.{state_of};
ghost use Rattle.adb_hub_tables.specs.Tracked.{IsAmong};
ghost use Rattle.adb_hub_tables.specs.Widening.{Widens, WidensClients};
ghost use Rattle.adb_hub_links.specs.Counting.{fed_slices};
ghost use Rattle.adb_hub_links.specs.Cutting.{cut_with};
ghost use Rattle.adb_hub_links.specs.Reserving.{IsCutAt, IsReserved, all_writes};
ghost use Rattle.adb_hub_links.specs.Settling.{CanSettle, HasSettled, settles};
ghost use Rattle.adb_hub_links.specs.Whole.{IsFreshAt};

use crate::counting::{fed_client, sum};
use crate::naming::named_on;
use crate::preparing::prepare_also;
use adb_client::Client;
use adb_hub_rules::{Came, credit_word, treat, up};
use adb_hub_tables::{Endings, Tables, TouchedMap, reserve_packets, reserve_slices};
use adb_stream::Streams;
use adb_wire::Command;
use std::alloc::AllocError;

/// Allocates the memory to handle a packet of a link, and to send the held bytes of the stream that
/// it names, if it is an OKAY. Returns the id of that stream.
pub(crate) fn reserve_one(
    tables: &mut Tables,
    link: u32,
    came: &Came,
) -> Result<Option<u32>, AllocError>
    requires fit { IsFit tables.old }
    ensures widens { Widens tables.old tables.new }
    ensures reserved { IfOk result (λ id.
        IsReserved link (came.now ∷ []) (option_to_list id) tables.new) }
{
    let id = named_on(&tables.streams, link, came);
    let client = fed_client(&tables.streams, came);
    reserve_fed(&mut tables.clients, client)?;
    let maxdata = tables.maxdata_of(link);
    let writes = prepare_named(&mut tables.clients, &tables.streams, id, came, maxdata)?;
    let places = sum(writes, 1)?;
    reserve_packets(&mut tables.links, link, places)?;
    Ok(id)
}

/// Reserves a place for a slice for a client, if there is one, in addition to those that each
/// keeps.
fn reserve_fed(clients: &mut TouchedMap<Client>, client: Option<u32>) -> Result<(), AllocError>
    requires { (c : ℕ) → ClientRoom 0 (at c clients.old.entries) }
    ensures widens { WidensClients clients.old.entries clients.new.entries }
    ensures room { OnOk result ((c : ℕ) → ClientRoom (fed_slices client c)
        (at c clients.new.entries)) }
{
    match client {
        Some(client) => reserve_slices(clients, client, 1),
        None => Ok(()),
    }
}

/// Prepares the held bytes of a stream's client, if there is one: as many as the stream may write
/// after the credit that a packet gives it. Returns the maximum number of writes. Its device
/// accepts `maxdata` bytes in one packet.
fn prepare_named(
    clients: &mut TouchedMap<Client>,
    streams: &Streams,
    id: Option<u32>,
    came: &Came,
    maxdata: usize,
) -> Result<usize, AllocError>
    ensures widens { WidensClients clients.old.entries clients.new.entries }
    ensures cut { OnOk result ((l : ℕ) → IsAmong l (option_to_list id)
        → IsCutAt (granted_by came.now.head.command (packet_of came.now) l) maxdata
        (at l streams.now.streams) clients.new.entries) }
    ensures writes { IfOk result (λ writes. writes
        ≡ all_writes (granted_by came.now.head.command (packet_of came.now)) maxdata
        (option_to_list id) streams.now.streams clients.old.entries) }
{
    match id {
        Some(id) => {
            let more = granted_by(came, id);
            prepare_also(clients, streams.get(id).copied(), more, maxdata, 0)
        }
        None => Ok(0),
    }
}

/// Returns how much credit a packet gives the stream of an id.
fn granted_by(came: &Came, id: u32) -> usize
    ensures { result ≡ granted_by came.now.head.command (packet_of came.now) id }
{
    match came.head.command {
        Command::Okay if came.head.arg1 == id => {
            credit_word(came.payload.as_slice()).unwrap_or(0) as usize
        }
        _ => 0,
    }
}

/// Handles a packet of a link that holds nothing, and sends the held bytes of the stream of this
/// id, if there is one. Allocates nothing.
pub(crate) fn settle_one(
    tables: &mut Tables,
    ends: &mut Endings,
    link: u32,
    came: Came,
    id: Option<u32>,
)
    requires came { IsCame came }
    requires fresh { IsFreshAt (at link tables.old.links.entries) }
    requires can { CanSettle link (came ∷ []) no_bytes (option_to_list id) tables.old }
    ensures settled { HasSettled link (cut_with no_bytes (came ∷ [])) no_bytes
        tables.old tables.new }
    ensures told { Records
        (settles link (cut_with no_bytes (came ∷ [])) (state_of tables.old)).told
        ends.old tables.old ends.new }
{
    treat(tables, ends, link, came);
    up_named(tables, ends, id);
}

/// Applies the up rule to the stream of an id, if there is one. If no other stream has bytes to
/// send, this is the up rule for all streams.
fn up_named(tables: &mut Tables, ends: &mut Endings, id: Option<u32>)
    requires ready { IsReadyEach (option_to_list id) tables.old }
    requires sized { IsSized tables.old }
    requires counted { IsCounted tables.old }
    ensures uses { UsesEach (option_to_list id) tables.old tables.new }
    ensures all { (k : ℕ) → CoversUp (option_to_list id) k (state_of tables.old)
        → state_of tables.new ≡ (up_all k (state_of tables.old)).state }
    ensures reports { (k : ℕ) → CoversUp (option_to_list id) k (state_of tables.old)
        → Reports (up_all k (state_of tables.old)).told ends.old tables.old ends.new tables.new }
{
    if let Some(id) = id {
        up(tables, ends, id);
    }
}

//! Preparing the held bytes of clients for sending.

ghost use Rattle.std.specs.Prelude.{◌≡◌, ◌≤◌, length, IfOk, IfSome, OnOk};
ghost use Rattle.adb_outside.specs.Tables.{at};
ghost use Rattle.adb_hub_tables.specs.Ready.{up_bytes, up_writes, IsCut, IsCutBehind, writes_behind};
ghost use Rattle.adb_hub_tables.specs.Widening.{WidensClient, WidensClients};

use crate::touched_map::TouchedMap;
use adb_client::Client;
use adb_stream::Flow;
use std::alloc::AllocError;

/// Prepares the held bytes of a client for sending: as many as a stream of that flow may write
/// after credit for `more` more bytes, in packets of at most `maxdata` bytes. Returns the maximum
/// number of writes.
pub fn make_ready(
    clients: &mut TouchedMap<Client>,
    client: u32,
    flow: &Flow,
    more: usize,
    maxdata: usize,
) -> Result<usize, AllocError>
    ensures widens { WidensClients clients.old.entries clients.new.entries }
    ensures cut { OnOk result
        (IsCutBehind flow.now more maxdata (at client clients.new.entries)) }
    ensures writes { IfOk result (λ writes. writes
        ≡ writes_behind flow.now more maxdata (at client clients.old.entries)) }
{
    match clients.get_mut(&client) {
        Some(row) => make_row_ready(row, flow, more, maxdata),
        None => Ok(0),
    }
}

fn make_row_ready(
    client: &mut Client,
    flow: &Flow,
    more: usize,
    maxdata: usize,
) -> Result<usize, AllocError>
    ensures widens { WidensClient client.old client.new }
    ensures cut { OnOk result (IsCut flow.now more maxdata client.new) }
    ensures writes { IfOk result (λ writes. writes
        ≡ up_writes flow.now more maxdata (length client.old.held)) }
{
    let held = client.held();
    let writes = up_writes(flow, more, maxdata, held).ok_or(AllocError)?;
    client.prepare_cuts(up_bytes(flow, more, maxdata, held), writes)?;
    Ok(writes)
}

/// Returns how many of `held` bytes a stream may send at most, after credit for `more` more bytes.
fn up_bytes(flow: &Flow, more: usize, maxdata: usize, held: usize) -> usize
    ensures bytes { result ≡ up_bytes flow.now more maxdata held }
    ensures within { result ≤ held }
{
    match flow {
        Flow::One(_) => maxdata.min(held),
        Flow::Credit(credit) => (credit.can_send() as usize).saturating_add(more).min(held),
    }
}

/// Returns the maximum number of writes, if it can be counted.
fn up_writes(flow: &Flow, more: usize, maxdata: usize, held: usize) -> Option<usize>
    ensures { IfSome result (λ writes. writes ≡ up_writes flow.now more maxdata held) }
{
    match flow {
        Flow::One(_) => Some(1),
        Flow::Credit(_) => {
            let most = up_bytes(flow, more, maxdata, held);
            most.checked_div(maxdata).unwrap_or(0).checked_add(1)
        }
    }
}

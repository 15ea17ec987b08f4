//! The stop of the server (SERVICES.TXT, `host:kill`).

ghost use Rattle.std.specs.Prelude.{◌≡◌, ◌+◌, ℕ, length, nat_lt};
ghost use Rattle.adb_outside.specs.Tables.{at};
ghost use Rattle.adb_history.specs.Losing.{all_stop, stops};
ghost use Rattle.adb_hub_tables.specs.Endings.{Records};
ghost use Rattle.adb_hub_tables.specs.declared.tables.Tables.{Tables as Held};
ghost use Rattle.adb_hub_tables.specs.Fit.{IsFit};
ghost use Rattle.adb_hub_tables.specs.Tables.{state_of};
ghost use Rattle.adb_hub_clients.specs.Leaving.{Leaves, IsOnAny};
ghost use Rattle.adb_hub_clients.specs.Stopping.{alone, recorded_at, one_left};

use adb_history::Ending;
use adb_hub_tables::{Ended, Endings, Tables};
use adb_stream::Streams;

/// Stops the server: all rows are removed but that of the client that asked for it. That client's
/// output queue is still handed out. Allocates nothing.
pub fn stop(tables: &mut Tables, client: u32)
    requires { IsFit tables.old }
    ensures { Leaves (stops client (state_of tables.old)).state tables.new }
{
    tables.close_client(client);
    forget_others(tables, client);
}

/// Records that all streams end because the server stops, in rising id. A log without a spare place
/// records none, and costs nothing.
pub(crate) fn record_all(streams: &Streams, ends: &mut Endings)
    ensures { (t : Held) → t.streams ≡ streams.now
        → Records (all_stop streams.now.drawn (λ l. at l streams.now.streams))
        ends.old t ends.new }
{
    streams.are_sound();
    let mut left = streams.len();
    let mut id = 0u32;
    while left > 0 && id < u32::MAX && ends.has_spare() {
        id += 1;
        left = record_at(streams, ends, id, left);
    }
}

/// Records that the stream of an id ends, if it lives; returns how many are left of `left`.
fn record_at(streams: &Streams, ends: &mut Endings, id: u32, left: usize) -> usize
    ensures log { ends.new ≡ recorded_at id (at id streams.now.streams) ends.old }
    ensures left { result ≡ one_left (at id streams.now.streams) left }
{
    match streams.get(id) {
        Some(stream) => {
            let ended = Ended {
                stream: id,
                client: stream.client,
                link: stream.link,
                ending: Ending::Stopped,
            };
            ends.push_unless(stream.part.orphan, ended);
            left.saturating_sub(1)
        }
        None => left,
    }
}

/// Removes all rows but that of one client.
fn forget_others(tables: &mut Tables, client: u32)
    requires fit { IsFit tables.old }
    requires listed { IsOnAny client (at client tables.old.clients.entries) }
    ensures { Leaves (alone client (state_of tables.old)) tables.new }
{
    tables.clients.keep_only(client);
    tables.trackers.clear();
    tables.links.clear();
    tables.streams.clear();
    tables.devices.clear();
    tables.forwards.remove_all();
    tables.stopped = true;
}

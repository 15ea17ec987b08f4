//! Streams: how they end (protocol.txt, CLOSE).

ghost use Rattle.std.specs.Prelude.{◌≡◌, ◌≢◌, ◌<◌, ℕ, Some};
ghost use Rattle.adb_outside.specs.Tables.{at, without};
ghost use Rattle.adb_stream.specs.Streams.{IsFirstOf, HasNoneOf};
ghost use Rattle.adb_history.specs.Streams.{client_loses, ends_row, ends_telling, all_end};
ghost use Rattle.adb_hub_tables.specs.Endings.{Log, Reports, add_unless, ended_of};
ghost use Rattle.adb_hub_tables.specs.Tables.{state_of};
ghost use Rattle.adb_hub_tables.specs.Places.{LinkRoom, ClientRoom, streams_on, IsCounted, IsProvided, Uses};

use adb_client::Phase;
use adb_history::Ending;
use adb_hub_tables::{Ended, Endings, Tables};
use adb_stream::Stream;

/// Closes a client after the end of its stream. If the client waits for the stream, the refusal is
/// queued for it.
fn client_loses(tables: &mut Tables, client: u32)
    requires { ClientRoom 0 (at client tables.old.clients.entries) }
    ensures state { let s = state_of tables.old in
        state_of tables.new ≡ (client_loses (s.clients client) client s).state }
    ensures streams { tables.new.streams ≡ tables.old.streams }
    ensures links { tables.new.links ≡ tables.old.links }
    ensures others { (k : ℕ) → k ≢ client
        → at k tables.new.clients.entries ≡ at k tables.old.clients.entries }
    ensures uses { (t c : ℕ) → Uses t 0 c 0 tables.old tables.new }
{
    let Some(row) = tables.clients.get(&client) else {
        return;
    };
    let forwarded = row.about().forwarded;
    match row.about().phase {
        Phase::Streaming(_) => tables.close_client(client),
        Phase::Opening(_) if forwarded => tables.close_client(client),
        Phase::Opening(_) => tables.refuse_client(client),
        _ => {}
    }
}

/// Ends a stream: removes its row, and closes its client.
pub(crate) fn end_row(
    tables: &mut Tables,
    ends: &mut Endings,
    id: u32,
    stream: &Stream,
    ending: Ending,
)
    requires here { at id tables.old.streams.streams ≡ Some stream.now }
    requires place { ClientRoom 0 (at stream.now.client tables.old.clients.entries) }
    ensures state { state_of tables.new
        ≡ (ends_row id ending stream.now (state_of tables.old)).state }
    ensures reports { Reports (ends_row id ending stream.now (state_of tables.old)).told
        ends.old tables.old ends.new tables.new }
    ensures rows { tables.new.streams ≡ record tables.old.streams {
      streams = without id tables.old.streams.streams;
    } }
    ensures others { (k : ℕ) → k ≢ stream.now.client
        → at k tables.new.clients.entries ≡ at k tables.old.clients.entries }
    ensures uses { (t c : ℕ) → Uses t 0 c 0 tables.old tables.new }
{
    tables.drop_stream(id, stream);
    client_loses(tables, stream.client);
    record_end(ends, id, stream, ending);
}

/// Ends a stream as `end_row` does, and sends its device a CLSE.
pub(crate) fn end_telling(
    tables: &mut Tables,
    ends: &mut Endings,
    id: u32,
    stream: &Stream,
    ending: Ending,
)
    requires here { at id tables.old.streams.streams ≡ Some stream.now }
    requires counted { IsCounted tables.old }
    requires link { LinkRoom 0 (at stream.now.link tables.old.links.entries) }
    requires client { ClientRoom 0 (at stream.now.client tables.old.clients.entries) }
    ensures state { state_of tables.new
        ≡ (ends_telling id ending stream.now (state_of tables.old)).state }
    ensures reports { Reports (ends_telling id ending stream.now (state_of tables.old)).told
        ends.old tables.old ends.new tables.new }
    ensures others { (k : ℕ) → k ≢ stream.now.client
        → at k tables.new.clients.entries ≡ at k tables.old.clients.entries }
    ensures uses { (c : ℕ) → Uses stream.now.link 0 c 0 tables.old tables.new }
{
    tables.drop_stream(id, stream);
    tables.owe_close(stream.link, id, stream.part.remote);
    client_loses(tables, stream.client);
    record_end(ends, id, stream, ending);
}

/// Records that a stream ended.
fn record_end(ends: &mut Endings, id: u32, stream: &Stream, ending: Ending)
    ensures { ends.new
        ≡ add_unless stream.now.part.orphan (ended_of id ending stream.now) ends.old }
{
    let ended = Ended {
        stream: id,
        client: stream.client,
        link: stream.link,
        ending,
    };
    ends.push_unless(stream.part.orphan, ended);
}

/// Ends all streams of a link, in rising id.
pub(crate) fn end_all(tables: &mut Tables, ends: &mut Endings, link: u32, ending: Ending)
    requires { IsProvided tables.old }
    ensures state { state_of tables.new ≡ (all_end link ending (state_of tables.old)).state }
    ensures reports { Reports (all_end link ending (state_of tables.old)).told
        ends.old tables.old ends.new tables.new }
    ensures none { HasNoneOf link tables.new.streams.streams }
    ensures uses { (t c : ℕ) → Uses t 0 c 0 tables.old tables.new }
{
    while let Some(id) = tables.streams.first_of(link) {
        end_first(tables, ends, link, id, ending);
    }
}

/// Ends the first stream of a link. The endings of the others follow it in the log.
fn end_first(tables: &mut Tables, ends: &mut Endings, link: u32, id: u32, ending: Ending)
    requires provided { IsProvided tables.old }
    requires first { IsFirstOf link tables.old.streams.streams id }
    ensures state { (all_end link ending (state_of tables.new)).state
        ≡ (all_end link ending (state_of tables.old)).state }
    ensures reports { (log : Log) (t : Tables)
        → Reports (all_end link ending (state_of tables.new)).told ends.new tables.new log t
        → Reports (all_end link ending (state_of tables.old)).told ends.old tables.old log t }
    ensures fewer { streams_on link tables.new.streams.streams
        < streams_on link tables.old.streams.streams }
    ensures uses { (t c : ℕ) → Uses t 0 c 0 tables.old tables.new }
{
    if let Some(stream) = tables.streams.get(id).copied() {
        end_row(tables, ends, id, &stream, ending);
    }
}

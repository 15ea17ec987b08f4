//! Clients: their output, and how they close.

ghost use Rattle.std.specs.Prelude.{◌≡◌, ◌≢◌, ◌≤◌, ◌+◌, ℕ, codes, [], true, false, Some, None, List, length, option_and_then, if◌then◌else◌};
ghost use Rattle.std.specs.BTreeMap.{is_at};
ghost use Rattle.std.specs.Ordering.{nat_cmp};
ghost use Rattle.std.specs.Set.{remove_key};
ghost use Rattle.adb_outside.specs.Tables.{at, Puts, change_row};
ghost use Rattle.adb_client.specs.declared.output.TheConstants.{MAX_SLICE};
ghost use Rattle.adb_reply.specs.Strings.{failed};
ghost use Rattle.adb_history.specs.Rows.{to_client, none_kept, in_phase};
ghost use Rattle.adb_history.specs.Clients.{owe_client, closing, closes, closes_with};
ghost use Rattle.adb_history.specs.Losing.{input_ended};
ghost use Rattle.adb_hub_tables.specs.Tables.{client_row, shut_row, refused, state_of};
ghost use Rattle.adb_hub_tables.specs.Tracked.{clients_of, IsListedAt};
ghost use Rattle.adb_hub_tables.specs.Places.{IsWaiting, ClientRoom, kept_places, HoldsAsReady, StaysHeld, Uses};

use crate::tables::Tables;
use crate::touched_map::TouchedMap;
use adb_client::{Client, Phase};
use bytes::Bytes;

impl Tables {
    /// Queues bytes for a client in a place that was reserved. It takes one place for a slice of
    /// that client, and none of a link.
    pub fn owe_client(&mut self, client: u32, bytes: Bytes)
        requires place { ClientRoom 1 (at client self.old.clients.entries) }
        requires size { length bytes ≤ MAX_SLICE }
        ensures state { state_of self.new ≡ (owe_client client bytes (state_of self.old)).state }
        ensures streams { self.new.streams ≡ self.old.streams }
        ensures links { self.new.links ≡ self.old.links }
        ensures uses { (t : ℕ) → Uses t 0 client 1 self.old self.new }
    {
        if let Some(row) = self.clients.get_mut(&client) {
            row.owe_slice_spare(bytes);
        }
    }

    /// Marks a client as having its stream open.
    pub fn open_client(&mut self, client: u32, stream: u32)
        ensures state { state_of self.new
            ≡ to_client client (in_phase (Phase.Streaming stream)) (state_of self.old) }
        ensures streams { self.new.streams ≡ self.old.streams }
        ensures links { self.new.links ≡ self.old.links }
        ensures uses { (t c : ℕ) → Uses t 0 c 0 self.old self.new }
    {
        if let Some(row) = self.clients.get_mut(&client) {
            row.about_mut().phase = Phase::Streaming(stream);
        }
    }

    /// Records that a client's input ended in order.
    pub fn note_end(&mut self, client: u32)
        ensures state { state_of self.new ≡ to_client client input_ended (state_of self.old) }
        ensures streams { self.new.streams ≡ self.old.streams }
        ensures links { self.new.links ≡ self.old.links }
        ensures uses { (t c : ℕ) → Uses t 0 c 0 self.old self.new }
    {
        if let Some(row) = self.clients.get_mut(&client) {
            row.about_mut().ended = true;
        }
    }

    /// Stops reading from a client. If its output queue is empty, its row is removed. Takes no
    /// place.
    pub fn close_client(&mut self, client: u32)
        ensures state { state_of self.new ≡ closes client (state_of self.old) }
        ensures streams { self.new.streams ≡ self.old.streams }
        ensures links { self.new.links ≡ self.old.links }
        ensures others { (k : ℕ) → k ≢ client
            → at k self.new.clients.entries ≡ at k self.old.clients.entries }
        ensures uses { (t c : ℕ) → Uses t 0 c 0 self.old self.new }
    {
        if self.close_row(client) {
            self.drop_client(client);
        }
    }

    /// Queues the refusal of a stream for a client that waits for one, in the place that the client
    /// reserved for it.
    pub fn refuse_client(&mut self, client: u32)
        requires { IsWaiting (at client self.old.clients.entries) }
        ensures state { state_of self.new
            ≡ (closes_with client (failed (codes "closed")).bytes (state_of self.old)).state }
        ensures streams { self.new.streams ≡ self.old.streams }
        ensures links { self.new.links ≡ self.old.links }
        ensures others { (k : ℕ) → k ≢ client
            → at k self.new.clients.entries ≡ at k self.old.clients.entries }
        ensures uses { (t c : ℕ) → Uses t 0 c 0 self.old self.new }
    {
        refuse_in(&mut self.clients, client);
    }

    /// Stops reading from a client. Returns whether its row is to be removed.
    fn close_row(&mut self, client: u32) -> bool
        ensures stays { result ≡ false → state_of self.new ≡ closes client (state_of self.old) }
        ensures goes { result ≡ true → to_client client none_kept (state_of self.new)
            ≡ closes client (state_of self.old) }
        ensures streams { self.new.streams ≡ self.old.streams }
        ensures links { self.new.links ≡ self.old.links }
        ensures others { (k : ℕ) → k ≢ client
            → at k self.new.clients.entries ≡ at k self.old.clients.entries }
        ensures uses { (t c : ℕ) → Uses t 0 c 0 self.old self.new }
    {
        close_in(&mut self.clients, client)
    }

    /// Removes the row of a client. Takes no place.
    pub fn drop_client(&mut self, client: u32)
        ensures state { state_of self.new ≡ to_client client none_kept (state_of self.old) }
        ensures streams { self.new.streams ≡ self.old.streams }
        ensures links { self.new.links ≡ self.old.links }
        ensures others { (k : ℕ) → k ≢ client
            → at k self.new.clients.entries ≡ at k self.old.clients.entries }
        ensures uses { (t c : ℕ) → Uses t 0 c 0 self.old self.new }
    {
        self.remove_client(client);
    }

    fn remove_client(&mut self, client: u32)
        ensures row { Puts client None self.old.clients.entries self.new.clients.entries }
        ensures trackers { self.new.trackers.keys
            ≡ remove_key (is_at (nat_cmp client)) self.old.trackers.keys }
        ensures others { self.new ≡ record self.old {
          clients = self.new.clients;
          trackers = self.new.trackers;
        } }
    {
        self.clients.remove(&client);
        self.trackers.remove(&client);
    }
}

/// Stops reading from a client of these. Returns whether its row is to be removed.
fn close_in(clients: &mut TouchedMap<Client>, id: u32) -> bool
    ensures stays { result ≡ false → clients_of clients.new.entries
        ≡ change_row id (option_and_then closing) (clients_of clients.old.entries) }
    ensures goes { result ≡ true → change_row id (option_and_then none_kept)
        (clients_of clients.new.entries)
        ≡ change_row id (option_and_then closing) (clients_of clients.old.entries) }
    ensures others { (c : ℕ) → c ≢ id → at c clients.new.entries ≡ at c clients.old.entries }
    ensures room { (n c : ℕ) → ClientRoom n (at c clients.old.entries)
        → ClientRoom n (at c clients.new.entries) }
    ensures held { (c : ℕ) → StaysHeld (at c clients.old.entries) (at c clients.new.entries) }
    ensures listed { (c : ℕ) (trackers : List ℕ) → IsListedAt c trackers (at c clients.old.entries)
        → IsListedAt c trackers (at c clients.new.entries) }
{
    match clients.get_mut(&id) {
        Some(client) => !close(client),
        None => false,
    }
}

/// Queues the refusal of a stream for a client of these that waits for one.
fn refuse_in(clients: &mut TouchedMap<Client>, id: u32)
    requires { IsWaiting (at id clients.old.entries) }
    ensures rows { clients_of clients.new.entries
        ≡ change_row id (option_and_then refused) (clients_of clients.old.entries) }
    ensures others { (c : ℕ) → c ≢ id → at c clients.new.entries ≡ at c clients.old.entries }
    ensures room { (n c : ℕ) → ClientRoom n (at c clients.old.entries)
        → ClientRoom n (at c clients.new.entries) }
    ensures held { (c : ℕ) → StaysHeld (at c clients.old.entries) (at c clients.new.entries) }
    ensures listed { (c : ℕ) (trackers : List ℕ) → IsListedAt c trackers (at c clients.old.entries)
        → IsListedAt c trackers (at c clients.new.entries) }
{
    if let Some(client) = clients.get_mut(&id) {
        refuse(client);
    }
}

/// Queues the refusal of a stream for a client that waits for one.
fn refuse(client: &mut Client)
    requires { IsWaiting (Some client.old) }
    ensures row { refused (client_row client.old) ≡ Some (client_row client.new) }
    ensures listed { (c : ℕ) (trackers : List ℕ) → IsListedAt c trackers (Some client.old)
        → IsListedAt c trackers (Some client.new) }
    ensures places { client.new.places + 1 ≡ client.old.places }
    ensures held { HoldsAsReady client.old client.new }
    ensures kept_places { kept_places client.new.about.phase + 1
        ≡ kept_places client.old.about.phase }
{
    client.owe_slice_spare(Bytes::from_static(b"FAIL0006closed"));
    shut(client);
}

/// Stops reading from a client: its held bytes are dropped. Returns whether its output queue holds
/// bytes; if not, the client is unchanged.
fn close(client: &mut Client) -> bool
    ensures kept { closing (client_row client.old)
        ≡ (if result then Some (client_row client.new) else None) }
    ensures places { client.new.places ≡ client.old.places }
    ensures held { HoldsAsReady client.old client.new }
    ensures kept_places { kept_places client.new.about.phase
        ≤ kept_places client.old.about.phase }
    ensures listed { (c : ℕ) (trackers : List ℕ) → IsListedAt c trackers (Some client.old)
        → IsListedAt c trackers (Some client.new) }
{
    if client.owed() == 0 {
        return false;
    }
    shut(client);
    true
}

/// Stops reading from a client with a non-empty output queue.
fn shut(client: &mut Client)
    ensures row { client_row client.new ≡ shut_row (client_row client.old) }
    ensures places { client.new.places ≡ client.old.places }
    ensures held { HoldsAsReady client.old client.new }
{
    drop_held(client);
    let about = client.about_mut();
    about.phase = Phase::Closing;
    about.mark = false;
    about.want = None;
}

/// Drops the held bytes of a client.
fn drop_held(client: &mut Client)
    ensures row { client_row client.new ≡ record (client_row client.old) { held = [] } }
    ensures places { client.new.places ≡ client.old.places }
    ensures held { HoldsAsReady client.old client.new }
{
    let n = client.held();
    client.pass_over(n);
}

//! Clients: how they come, their bytes, and how they end.

ghost use Rattle.std.specs.Prelude.{◌≡◌, ◌≢◌, ◌+◌, ◌^◌, ◌<◌, List, IfOk, OnErr, OnOk, Err, Some};
ghost use Rattle.std.specs.Prelude.{if◌then◌else◌};
ghost use Rattle.adb_capture.specs.declared.entry.Entry.{Entry};
ghost use Rattle.adb_history.specs.Kept.{IsLawful};
ghost use Rattle.adb_history.specs.Machine.{state};
ghost use Rattle.adb_history.specs.Accepted.{is_drawn};
ghost use Rattle.adb_history.specs.Held.{held_of};
ghost use Rattle.adb_hub_tables.specs.Tables.{client_row, state_of};
ghost use Rattle.adb_hub.specs.Endings.{Reports};
ghost use Rattle.adb_hub.specs.Refusal.{unless_stopped, unless_drawn};
ghost use Rattle.adb_hub.specs.Answers.{Answers, AnswersClient, err_if, next_client};
ghost use Rattle.adb_hub.specs.Answers.{life_of, room_of, room_asking, room_past, port_of};

use crate::answers::{Life, Room};
use crate::error::HubError;
use crate::hub::{Hub, MAX_DUE_TO_CLIENT, MAX_HELD};
use adb_client::{Client, Phase};
use adb_hub_tables::{Endings, Tables};
use adb_outside::Cause;

impl Hub {
    /// Adds the next client, which asks, and returns its number.
    ///
    /// `Stopped`: a kill was requested. `Numbers`: all numbers were drawn. `OutOfMemory`: an
    /// allocation failed.
    pub fn join(&mut self) -> Result<u32, HubError>
        ensures joined { (h : List Entry) → IsLawful self.old h
            → let next = (state h).joined + 1 in
            Answers (Entry.Join next) (λ client. client ≡ next) result h self.new }
        ensures err { OnErr result (self.new ≡ self.old) }
    {
        let client = self.next_client()?;
        adb_hub_clients::join(&mut self.tables, client)?;
        Ok(client)
    }

    /// Adds the next client, which comes through the forward of a local port, and returns its
    /// number. If the forward leads nowhere, the client is gone at once. The errors are those of
    /// `join`.
    pub fn enter(&mut self, port: u16) -> Result<u32, HubError>
        ensures entered { (h : List Entry) → IsLawful self.old h
            → let next = (state h).joined + 1 in
            Answers (Entry.Enter next port) (λ client. client ≡ next) result h self.new }
        ensures err { OnErr result (self.new ≡ self.old) }
    {
        let client = self.next_client()?;
        adb_hub_clients::enter(&mut self.tables, client, port)?;
        Ok(client)
    }

    /// Submits bytes of a client.
    ///
    /// `Stopped`: a kill was requested. `NoClient`: no client has had that number. `OutOfMemory`:
    /// an allocation failed.
    pub fn read(&mut self, client: u32, piece: &[u8]) -> Result<Life, HubError>
        ensures read { (h : List Entry) → IsLawful self.old h
            → AnswersClient client (Entry.Read client piece.now) result h self.new }
        ensures err { OnErr result (self.new ≡ self.old) }
    {
        self.look_for_client(client)?;
        let mut ends = Endings::new(self.tables.alloc);
        adb_hub_clients::read(&mut self.tables, &mut ends, client, piece)?;
        Ok(self.client_life(client))
    }

    /// Submits bytes of a client as `read` does, and appends the streams that end to the log, in
    /// order. After an error the log is unchanged.
    pub fn read_reporting(
        &mut self,
        client: u32,
        piece: &[u8],
        ends: &mut Endings,
    ) -> Result<Life, HubError>
        ensures read { (h : List Entry) → IsLawful self.old h
            → AnswersClient client (Entry.Read client piece.now) result h self.new }
        ensures reports { (h : List Entry) → IsLawful self.old h
            → OnOk result (Reports (Entry.Read client piece.now) h ends.old ends.new) }
        ensures err { OnErr result (self.new ≡ self.old) }
        ensures quiet { OnErr result (ends.new.list ≡ ends.old.list) }
    {
        self.look_for_client(client)?;
        ends.reserve(self.tables.streams.len())?;
        adb_hub_clients::read(&mut self.tables, ends, client, piece)?;
        Ok(self.client_life(client))
    }

    /// Ends a client's input, in order or by a failure. Allocates nothing.
    ///
    /// `Stopped`: a kill was requested. `NoClient`: no client has had that number.
    pub fn end(&mut self, client: u32, cause: Cause) -> Result<Life, HubError>
        ensures ended { (h : List Entry) → IsLawful self.old h
            → AnswersClient client (Entry.End client cause) result h self.new }
        ensures err { OnErr result (self.new ≡ self.old) }
        ensures memory { result ≢ Err HubError.OutOfMemory }
    {
        self.look_for_client(client)?;
        let mut ends = Endings::new(self.tables.alloc);
        adb_hub_clients::end(&mut self.tables, &mut ends, client, cause);
        Ok(self.client_life(client))
    }

    /// Ends a client's input as `end` does, and appends the stream that ends, if any, to the log.
    /// Fails too if an allocation for the log fails. After an error the log is unchanged.
    pub fn end_reporting(
        &mut self,
        client: u32,
        cause: Cause,
        ends: &mut Endings,
    ) -> Result<Life, HubError>
        ensures ended { (h : List Entry) → IsLawful self.old h
            → AnswersClient client (Entry.End client cause) result h self.new }
        ensures reports { (h : List Entry) → IsLawful self.old h
            → OnOk result (Reports (Entry.End client cause) h ends.old ends.new) }
        ensures err { OnErr result (self.new ≡ self.old) }
        ensures quiet { OnErr result (ends.new.list ≡ ends.old.list) }
    {
        self.look_for_client(client)?;
        ends.reserve(self.tables.streams.len())?;
        adb_hub_clients::end(&mut self.tables, ends, client, cause);
        Ok(self.client_life(client))
    }

    /// Reports that the listener for the forward that a client waits for is bound to a port or, if
    /// the port is 0, could not be made. The errors are those of `read`.
    pub fn bound(&mut self, client: u32, port: u16) -> Result<Life, HubError>
        ensures bound { (h : List Entry) → IsLawful self.old h
            → AnswersClient client (Entry.Bound client port) result h self.new }
        ensures err { OnErr result (self.new ≡ self.old) }
    {
        self.look_for_client(client)?;
        adb_hub_clients::bound(&mut self.tables, client, port)?;
        Ok(self.client_life(client))
    }

    /// Returns how many more bytes a client may send before some of them were sent on. A client
    /// that asks has no more room while more than `MAX_DUE_TO_CLIENT` bytes are due to it; it has
    /// room again when some of them were handed out. Allocates nothing.
    pub fn room(&self, client: u32) -> Room
        ensures { (h : List Entry) → IsLawful self.now h
            → result ≡ room_of ((state h).clients client) }
    {
        room(&self.tables, client)
    }

    /// Returns how many bytes of a client are held. Allocates nothing.
    pub fn held(&self, client: u32) -> usize
        ensures { (h : List Entry) → IsLawful self.now h
            → result ≡ held_of ((state h).clients client) }
    {
        held(&self.tables, client)
    }

    /// Returns the port that a client waits for: 0 for any port. Allocates nothing.
    pub fn waiting_port(&self, client: u32) -> Option<u16>
        ensures { (h : List Entry) → IsLawful self.now h
            → result ≡ port_of ((state h).clients client) }
    {
        waiting_port(&self.tables, client)
    }

    /// Returns the next client's number.
    fn next_client(&self) -> Result<u32, HubError>
        ensures next { result ≡ next_client self.now.stopped self.now.joined }
        ensures fits { IfOk result (λ client. client < 2 ^ 32) }
    {
        if self.is_stopped() {
            return Err(HubError::Stopped);
        }
        self.joined().checked_add(1).ok_or(HubError::Numbers)
    }

    /// Returns an error unless an entry about this client is possible.
    fn look_for_client(&self, client: u32) -> Result<(), HubError>
        ensures { result ≡ err_if (unless_stopped self.now.stopped
            (unless_drawn (is_drawn self.now.joined client) (HubError.NoClient client))) }
    {
        if self.is_stopped() {
            return Err(HubError::Stopped);
        }
        self.find_client(client)
    }

    /// Returns an error unless a client's number was drawn.
    pub(crate) fn find_client(&self, client: u32) -> Result<(), HubError>
        ensures { result ≡ err_if
            (unless_drawn (is_drawn self.now.joined client) (HubError.NoClient client)) }
    {
        if self.is_client(client) {
            Ok(())
        } else {
            Err(HubError::NoClient(client))
        }
    }

    /// Returns whether a client lives.
    pub(crate) fn client_life(&self, client: u32) -> Life
        ensures { (h : List Entry) → IsLawful self.now h
            → result ≡ life_of ((state h).clients client) }
    {
        life_if(self.tables.clients.contains_key(&client))
    }
}

/// Returns how many more bytes a client may send.
fn room(tables: &Tables, client: u32) -> Room
    ensures { result ≡ room_of ((state_of tables.now).clients client) }
{
    match tables.clients.get(&client) {
        Some(row) => room_in(row),
        None => Room::Shut,
    }
}

fn room_in(row: &Client) -> Room
    ensures { result ≡ room_of (Some (client_row row.now)) }
{
    match row.about().phase {
        Phase::Closing | Phase::Gone => Room::Shut,
        _ if row.about().ended => Room::Shut,
        Phase::Asking => room_asking(row.owed(), row.held()),
        _ => room_past(row.held()),
    }
}

/// Returns how many bytes of a client are held.
fn held(tables: &Tables, client: u32) -> usize
    ensures { result ≡ held_of ((state_of tables.now).clients client) }
{
    match tables.clients.get(&client) {
        Some(row) => held_in(row),
        None => 0,
    }
}

fn held_in(row: &Client) -> usize
    ensures { result ≡ held_of (Some (client_row row.now)) }
{
    row.held()
}

/// Returns the port that a client waits for.
fn waiting_port(tables: &Tables, client: u32) -> Option<u16>
    ensures { result ≡ port_of ((state_of tables.now).clients client) }
{
    match tables.clients.get(&client) {
        Some(row) => port_in(row),
        None => None,
    }
}

fn port_in(row: &Client) -> Option<u16>
    ensures { result ≡ port_of (Some (client_row row.now)) }
{
    match row.about().phase {
        Phase::Binding => row.about().want.as_ref().map(|want| want.local),
        _ => None,
    }
}

/// Returns how many more bytes may be held after `held` bytes of a client that asks, to which `due`
/// bytes are due.
fn room_asking(due: usize, held: usize) -> Room
    ensures { result ≡ room_asking due held }
{
    if due > MAX_DUE_TO_CLIENT {
        Room::Later
    } else {
        room_past(held)
    }
}

/// Returns how many more bytes may be held after `held` bytes.
fn room_past(held: usize) -> Room
    ensures { result ≡ room_past held }
{
    if held >= MAX_HELD {
        Room::Later
    } else {
        Room::Bytes(MAX_HELD - held)
    }
}

/// Returns whether a client or link lives, by whether it has a row.
pub(crate) fn life_if(there: bool) -> Life
    ensures { result ≡ (if there then Life.Live else Life.Gone) }
{
    if there { Life::Live } else { Life::Gone }
}

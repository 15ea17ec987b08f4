//! Queries about clients, links and forwards. None of them makes an entry or allocates.

ghost use Rattle.std.specs.Prelude.{◌≡◌, ◌≢◌, ◌&&◌, List, Err};
ghost use Rattle.adb_capture.specs.declared.entry.Entry.{Entry};
ghost use Rattle.adb_history.specs.Kept.{IsLawful};
ghost use Rattle.adb_history.specs.Machine.{state};
ghost use Rattle.adb_hub.specs.Answers.{port_of};
ghost use Rattle.adb_server_log.specs.declared.error.DeskError.{DeskError};
ghost use Rattle.adb_server_log.specs.Log.{shut_with};
ghost use Rattle.adb_server_log.specs.Marked.{marks_error, marks_room};
ghost use Rattle.adb_desk.specs.Desk.{has_forward, is_drawn_by, is_later, or_given_by, room_at, rung};

use crate::desk::Desk;
use adb_hub::{Hub, Owner, Room};
use adb_recorder::Recorder;
use adb_server_log::{DeskError, Marks, marks_error, marks_room};
use std::sync::ledger::Ledger;

impl<R: Recorder, E: Ledger, M: Ledger, K: Marks> Desk<R, E, M, K> {
    /// Returns how many more bytes a client, or the device of a link, may send: `Shut` for a number
    /// that was never drawn, which sets no alarm.
    ///
    /// A desk that is shut returns the answer with which it was shut.
    pub fn room(&mut self, owner: Owner) -> Result<Room, DeskError>
        ensures answer { (h : List Entry) → IsLawful self.old.hub h
            → result ≡ or_given_by (shut_with self.old.log) (room_at owner (state h)) }
        ensures rung { self.new
            ≡ rung (marks_room result && is_drawn_by owner self.old.hub) self.old }
        ensures steady { K.steady → result ≢ Err DeskError.RecordFault }
    {
        let answer = match self.log.shut() {
            Some(error) => Err(error),
            None => Ok(room(&self.hub, owner)),
        };
        let drawn = self.is_drawn(owner);
        self.log.ring(marks_room(&answer) && drawn);
        answer
    }

    /// Returns the port at which a client waits for a listener, 0 for any port.
    ///
    /// A desk that is shut returns the answer with which it was shut.
    pub fn waiting_port(&mut self, client: u32) -> Result<Option<u16>, DeskError>
        ensures answer { (h : List Entry) → IsLawful self.old.hub h
            → result ≡ or_given_by (shut_with self.old.log) (port_of ((state h).clients client)) }
        ensures rung { self.new ≡ rung (marks_error result) self.old }
        ensures steady { K.steady → result ≢ Err DeskError.RecordFault }
    {
        let answer = match self.log.shut() {
            Some(error) => Err(error),
            None => Ok(self.hub.waiting_port(client)),
        };
        self.log.ring(marks_error(&answer));
        answer
    }

    /// Returns whether the hub has a forward of this local port.
    ///
    /// A desk that is shut returns the answer with which it was shut.
    pub fn has_forward(&mut self, port: u16) -> Result<bool, DeskError>
        ensures answer { (h : List Entry) → IsLawful self.old.hub h
            → result ≡ or_given_by (shut_with self.old.log) (has_forward port (state h)) }
        ensures rung { self.new ≡ rung (marks_error result) self.old }
        ensures steady { K.steady → result ≢ Err DeskError.RecordFault }
    {
        let answer = match self.log.shut() {
            Some(error) => Err(error),
            None => Ok(self.hub.has_forward(port)),
        };
        self.log.ring(marks_error(&answer));
        answer
    }

    /// Returns whether the number of a client or a link was drawn.
    pub fn is_drawn(&self, owner: Owner) -> bool
        ensures { result ≡ is_drawn_by owner self.now.hub }
    {
        match owner {
            Owner::Client(client) => 0 < client && client <= self.hub.joined(),
            Owner::Link(link) => 0 < link && link <= self.hub.plugged(),
        }
    }

    /// Returns whether a client, or the device of a link, has no room now, but may have later. It
    /// sets no alarm.
    pub fn has_no_room_yet(&self, owner: Owner) -> bool
        ensures { (h : List Entry) → IsLawful self.now.hub h
            → result ≡ is_later (room_at owner (state h)) }
    {
        matches!(room(&self.hub, owner), Room::Later)
    }
}

/// Returns how many more bytes a client, or the device of a link, may send.
fn room(hub: &Hub, owner: Owner) -> Room
    ensures { (h : List Entry) → IsLawful hub.now h → result ≡ room_at owner (state h) }
{
    match owner {
        Owner::Client(client) => hub.room(client),
        Owner::Link(link) => hub.link_room(link),
    }
}

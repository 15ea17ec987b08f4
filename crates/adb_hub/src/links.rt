//! Links to devices: how they come, their bytes, and how they go.

ghost use Rattle.std.specs.Prelude.{◌≡◌, ◌≢◌, ◌+◌, List, OnErr, OnOk, Err, Some, is_some};
ghost use Rattle.adb_outside.specs.Tables.{at};
ghost use Rattle.adb_outside.specs.declared.kinds.Kind.{Kind};
ghost use Rattle.adb_capture.specs.declared.entry.Entry.{Entry};
ghost use Rattle.adb_history.specs.Accepted.{is_drawn};
ghost use Rattle.adb_history.specs.Kept.{IsLawful};
ghost use Rattle.adb_history.specs.Machine.{state};
ghost use Rattle.adb_hub.specs.Endings.{Reports};
ghost use Rattle.adb_hub.specs.Refusal.{unless_stopped, unless_drawn};
ghost use Rattle.adb_hub.specs.Answers.{Answers, AnswersLink, life_of, err_if, serial_of};
ghost use Rattle.adb_hub.specs.Answers.{due_allowed, link_room_in, link_room_of};
ghost use Rattle.adb_hub_tables.specs.Tables.{link_row, state_of};

use crate::answers::{Life, Room};
use crate::clients::life_if;
use crate::error::HubError;
use crate::hand_outs::are_bytes;
use crate::hub::{DUE_FOR_STREAM, Hub, MAX_DUE_ON_LINK};
use adb_capture::MAX_DATA;
use adb_hub_links::Whole;
use adb_hub_tables::{Endings, Port, Tables};
use adb_outside::{Cause, Kind};

impl Hub {
    /// Attaches a device; the number of its link is its transport id.
    ///
    /// `Stopped`: a kill was requested. `Numbers`: all ids were drawn. `Full`: the maximum number
    /// of devices is plugged in. `BadSerial`: the serial is not 1 to 64 bytes of 0x21 to 0x7e.
    /// `OutOfMemory`: an allocation failed.
    pub fn attach(&mut self, kind: Kind, serial: &[u8]) -> Result<u32, HubError>
        ensures attached { (h : List Entry) → IsLawful self.old h
            → let next = (state h).devices.drawn + 1 in
            Answers (Entry.Attach next kind serial.now) (λ link. link ≡ next) result h self.new }
        ensures err { OnErr result (self.new ≡ self.old) }
    {
        if self.is_stopped() {
            return Err(HubError::Stopped);
        }
        Ok(adb_hub_links::attach(&mut self.tables, kind, serial)?)
    }

    /// Submits bytes of a link.
    ///
    /// `Stopped`: a kill was requested. `NoLink`: no link has had that number. `OutOfMemory`: an
    /// allocation failed.
    pub fn recv(&mut self, link: u32, piece: &[u8]) -> Result<Life, HubError>
        ensures received { (h : List Entry) → IsLawful self.old h
            → AnswersLink link (Entry.Recv link piece.now) result h self.new }
        ensures err { OnErr result (self.new ≡ self.old) }
    {
        self.look_for_link(link)?;
        let mut ends = Endings::new(self.tables.alloc);
        adb_hub_links::recv(&mut self.tables, &mut ends, link, piece)?;
        Ok(self.link_life(link))
    }

    /// Submits bytes of a link as `recv` does, and appends the streams that end to the log, in
    /// order. After an error the log is unchanged.
    pub fn recv_reporting(
        &mut self,
        link: u32,
        piece: &[u8],
        ends: &mut Endings,
    ) -> Result<Life, HubError>
        ensures received { (h : List Entry) → IsLawful self.old h
            → AnswersLink link (Entry.Recv link piece.now) result h self.new }
        ensures reports { (h : List Entry) → IsLawful self.old h
            → OnOk result (Reports (Entry.Recv link piece.now) h ends.old ends.new) }
        ensures err { OnErr result (self.new ≡ self.old) }
        ensures quiet { OnErr result (ends.new.list ≡ ends.old.list) }
    {
        self.look_for_link(link)?;
        ends.reserve(self.tables.streams.len())?;
        adb_hub_links::recv(&mut self.tables, ends, link, piece)?;
        Ok(self.link_life(link))
    }

    /// Submits a whole packet of a link, like `recv` with its bytes. If a link's packets all come
    /// whole and it verifies no check words, no header is parsed again, and no payload is copied.
    /// The errors are those of `recv`.
    pub fn recv_whole(&mut self, link: u32, packet: &Whole) -> Result<Life, HubError>
        ensures received { (h : List Entry) → IsLawful self.old h
            → AnswersLink link (Entry.Recv link packet.now) result h self.new }
        ensures err { OnErr result (self.new ≡ self.old) }
    {
        self.look_for_link(link)?;
        are_bytes(packet.as_slice());
        let mut ends = Endings::new(self.tables.alloc);
        adb_hub_links::recv_whole(&mut self.tables, &mut ends, link, packet)?;
        Ok(self.link_life(link))
    }

    /// Detaches a device after it was unplugged, or after its connection failed. Allocates nothing.
    ///
    /// `Stopped`: a kill was requested. `NoLink`: no link has had that number.
    pub fn detach(&mut self, link: u32, cause: Cause) -> Result<Life, HubError>
        ensures detached { (h : List Entry) → IsLawful self.old h
            → AnswersLink link (Entry.Detach link cause) result h self.new }
        ensures err { OnErr result (self.new ≡ self.old) }
        ensures memory { result ≢ Err HubError.OutOfMemory }
    {
        self.look_for_link(link)?;
        let mut ends = Endings::new(self.tables.alloc);
        adb_hub_links::detach(&mut self.tables, &mut ends, link);
        Ok(self.link_life(link))
    }

    /// Detaches a device as `detach` does, and appends the streams that end to the log, in order.
    /// Fails too if an allocation for the log fails. After an error the log is unchanged.
    pub fn detach_reporting(
        &mut self,
        link: u32,
        cause: Cause,
        ends: &mut Endings,
    ) -> Result<Life, HubError>
        ensures detached { (h : List Entry) → IsLawful self.old h
            → AnswersLink link (Entry.Detach link cause) result h self.new }
        ensures reports { (h : List Entry) → IsLawful self.old h
            → OnOk result (Reports (Entry.Detach link cause) h ends.old ends.new) }
        ensures err { OnErr result (self.new ≡ self.old) }
        ensures quiet { OnErr result (ends.new.list ≡ ends.old.list) }
    {
        self.look_for_link(link)?;
        ends.reserve(self.tables.streams.len())?;
        adb_hub_links::detach(&mut self.tables, ends, link);
        Ok(self.link_life(link))
    }

    /// Returns an error unless an entry about this link is possible.
    fn look_for_link(&self, link: u32) -> Result<(), HubError>
        ensures { result ≡ err_if (unless_stopped self.now.stopped
            (unless_drawn (is_drawn self.now.devices.drawn link) (HubError.NoLink link))) }
    {
        if self.is_stopped() {
            return Err(HubError::Stopped);
        }
        self.find_link(link)
    }

    /// Returns an error unless a link's number was drawn.
    pub(crate) fn find_link(&self, link: u32) -> Result<(), HubError>
        ensures { result ≡ err_if
            (unless_drawn (is_drawn self.now.devices.drawn link) (HubError.NoLink link)) }
    {
        if self.is_link(link) {
            Ok(())
        } else {
            Err(HubError::NoLink(link))
        }
    }

    /// Returns whether a link lives.
    pub(crate) fn link_life(&self, link: u32) -> Life
        ensures { (h : List Entry) → IsLawful self.now h
            → result ≡ life_of ((state h).links link) }
    {
        life_if(self.tables.links.contains_key(&link))
    }

    /// Returns how many more bytes a device may send at once on a link: `Later` while more bytes are
    /// due on the link than `MAX_DUE_ON_LINK`, and `DUE_FOR_STREAM` for each open stream of the
    /// hub. Allocates nothing.
    pub fn link_room(&self, link: u32) -> Room
        ensures { (h : List Entry) → IsLawful self.now h → result ≡ link_room_of link (state h) }
    {
        link_room(&self.tables, link, self.summary().streams)
    }

    /// Returns whether there is a forward of a local port. Allocates nothing.
    pub fn has_forward(&self, port: u16) -> bool
        ensures { (h : List Entry) → IsLawful self.now h
            → result ≡ is_some (at port (state h).forwards) }
    {
        self.tables.forwards.find(port).is_some()
    }

    /// Returns the serial of the device of a link, and no bytes if no device is plugged in there.
    /// Allocates nothing.
    pub fn serial(&self, link: u32) -> &[u8]
        ensures { result.now ≡ serial_of link self.now.devices }
    {
        match self.tables.devices.row(link) {
            Some(row) => row.serial.as_slice(),
            None => &[],
        }
    }
}

/// Returns how many more bytes the device of a link may send at once, with `streams` open streams.
fn link_room(tables: &Tables, link: u32, streams: u32) -> Room
    ensures { result ≡ link_room_in streams ((state_of tables.now).links link) }
{
    match tables.links.get(&link) {
        Some(port) => room_on(port, streams),
        None => Room::Shut,
    }
}

fn room_on(port: &Port, streams: u32) -> Room
    ensures { result ≡ link_room_in streams (Some (link_row port.now)) }
{
    if port.link.owed() > due_allowed(streams) {
        Room::Later
    } else {
        Room::Bytes(MAX_DATA)
    }
}

/// Returns how many bytes may be due on a link, with `streams` open streams, before its device has
/// no more room.
fn due_allowed(streams: u32) -> usize
    ensures { result ≡ due_allowed streams }
{
    MAX_DUE_ON_LINK + DUE_FOR_STREAM * streams as usize
}

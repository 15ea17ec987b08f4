//! The services of the device, and the effect of each packet of the host on them.

ghost use Rattle.std.specs.Prelude.{◌≡◌, ◌≤◌, ◌++◌, ◌⊎◌, ℕ, List, ◌<◌, length, take, drop, Some, None, IsSome, OnOk, OnErr, IfOk};
ghost use Rattle.adb_outside.specs.Tables.{at};
ghost use Rattle.adb_device_streams.specs.Asked.{kind_of};
ghost use Rattle.adb_device_streams.specs.Service.{came_over, files_fed, files_opened, HasFrontOfFiles};
ghost use Rattle.adb_device_streams.specs.Stream.{Row, row_took, row_acked, ack_bytes, packet_bytes, clse};
ghost use Rattle.adb_device_streams.specs.Due.{Grows};
ghost use Rattle.adb_device_streams.specs.Link.{credit_word_in};
ghost use Rattle.adb_daemon.specs.Serving.{Serving, on_open, on_write, on_okay, on_close, all_gone, open_as, credit_of, served};
ghost use Rattle.adb_daemon.specs.Held.{Holds, view_of, StandsAt, SettlesAt, CutOpen, CutWrite, CutFiles};

use crate::table::Table;
use adb_device_streams::{
    Asked, Link, Outgoing, Stream, answer_okay, answer_open, answer_write, credit_word_in,
    push_packet, read_service, service_name,
};
use adb_files::Files;
use adb_outside::ByteQueue;
use adb_stream::CREDIT_WINDOW;
use adb_wire::{Command, MAX_PAYLOAD, Packet};
use bytes::Bytes;
use std::alloc::{AllocError, Global};
use std::collections::BTreeMap;

/// The number of bytes of memory that are kept while the queue is empty: the bytes that a stream's
/// credit lets be queued at once, and as many again.
const KEPT: usize = 2 * CREDIT_WINDOW as usize;

/// The live streams with their services, the files, and the output queue to the host.
#[derive(Drop)]
pub struct Services {
    pub table: Table,
    pub files: Files,
    pub due: ByteQueue,
}

impl Services {
    /// Handles a packet of the host about a stream. If an allocation fails, the files are those
    /// after a prefix of what it asks for.
    pub fn serve(&mut self, alloc: Global, link: Link, packet: &Packet) -> Result<(), AllocError>
        requires most { link.most ≤ MAX_PAYLOAD }
        requires payload { length packet.now.payload ≤ MAX_PAYLOAD }
        ensures ok { OnOk result ((s : Serving) (taken : List ℕ) → Holds s taken (view_of self.old)
            → Holds (served packet.now.command link packet.now s) taken (view_of self.new)) }
        ensures err { OnErr result ((s : Serving) (taken : List ℕ)
            → Holds s taken (view_of self.old)
            → CutFiles packet.now.command packet.now s self.new.files) }
        ensures grows { Grows self.old.due.bytes self.new.due.bytes }
    {
        match packet.command {
            Command::Open => self.open(alloc, link, packet),
            Command::Wrte => self.write(alloc, link, packet),
            Command::Okay => self.okay(alloc, link, packet),
            Command::Clse => {
                self.close(packet);
                Ok(())
            }
            _ => Ok(()),
        }
    }

    /// Handles an OPEN of the host. If an allocation fails, the files are unchanged, or those that
    /// the command leaves.
    pub fn open(&mut self, alloc: Global, link: Link, packet: &Packet) -> Result<(), AllocError>
        requires { link.most ≤ MAX_PAYLOAD }
        ensures ok { OnOk result ((s : Serving) (taken : List ℕ) → Holds s taken (view_of self.old)
            → Holds (on_open link packet.now s) taken (view_of self.new)) }
        ensures err { OnErr result ((s : Serving) (taken : List ℕ)
            → Holds s taken (view_of self.old) → CutOpen packet.now s self.new.files) }
        ensures grows { Grows self.old.due.bytes self.new.due.bytes }
    {
        if packet.arg0 == 0 || self.table.is_taken(packet.arg0) {
            return Ok(());
        }
        if self.table.drawn == u32::MAX {
            return refuse(link, packet.arg0, &mut self.due);
        }
        match read_service(service_name(packet.payload.as_slice())) {
            Some(asked) => self.open_as(alloc, link, packet, asked),
            None => refuse(link, packet.arg0, &mut self.due),
        }
    }

    /// Handles an OPEN of a known service, with a host's id that is not that of a live stream.
    fn open_as(
        &mut self,
        alloc: Global,
        link: Link,
        packet: &Packet,
        asked: Asked<'_>,
    ) -> Result<(), AllocError>
        requires most { link.most ≤ MAX_PAYLOAD }
        requires left { self.old.table.drawn < u32.MAX }
        ensures ok { OnOk result ((s : Serving) (taken : List ℕ) → Holds s taken (view_of self.old)
            → at packet.now.arg0 self.old.table.hosts.entries ≡ None
            → Holds (open_as link packet.now (Some (kind_of asked.entry)) s) taken
            (view_of self.new)) }
        ensures err { OnErr result ((self.new.files ≡ self.old.files)
            ⊎ (self.new.files ≡ files_opened (kind_of asked.entry) self.old.files)) }
        ensures grows { Grows self.old.due.bytes self.new.due.bytes }
    {
        let own = self.table.drawn + 1;
        let (stream, done) = answer_open(
            alloc,
            &mut self.files,
            asked,
            packet.arg0,
            credit_of(link, packet),
            outgoing(link, own),
            &mut self.due,
        )?;
        if done {
            self.table.drawn = own;
            return Ok(());
        }
        self.table.add(own, stream)
    }

    /// Handles a WRTE of the host. If an allocation fails, the files are those after a prefix of
    /// the sync requests that it completes.
    pub fn write(&mut self, alloc: Global, link: Link, packet: &Packet) -> Result<(), AllocError>
        requires most { link.most ≤ MAX_PAYLOAD }
        requires payload { length packet.now.payload ≤ MAX_PAYLOAD }
        ensures ok { OnOk result ((s : Serving) (taken : List ℕ) → Holds s taken (view_of self.old)
            → Holds (on_write link packet.now s) taken (view_of self.new)) }
        ensures err { OnErr result ((s : Serving) (taken : List ℕ)
            → Holds s taken (view_of self.old) → CutWrite packet.now s self.new.files) }
        ensures grows { Grows self.old.due.bytes self.new.due.bytes }
    {
        if !self.table.has(packet.arg1, packet.arg0) {
            return Ok(());
        }
        let done = write_at(
            alloc,
            &mut self.table.rows,
            &mut self.files,
            link,
            packet,
            &mut self.due,
        )?;
        if done {
            self.table.remove(packet.arg1, packet.arg0);
        }
        Ok(())
    }

    /// Handles an OKAY of the host.
    pub fn okay(&mut self, alloc: Global, link: Link, packet: &Packet) -> Result<(), AllocError>
        requires { link.most ≤ MAX_PAYLOAD }
        ensures ok { OnOk result ((s : Serving) (taken : List ℕ) → Holds s taken (view_of self.old)
            → Holds (on_okay link packet.now s) taken (view_of self.new)) }
        ensures files { self.new.files ≡ self.old.files }
        ensures grows { Grows self.old.due.bytes self.new.due.bytes }
    {
        if !self.table.has(packet.arg1, packet.arg0) {
            return Ok(());
        }
        let done = okay_at(alloc, &mut self.table.rows, link, packet, &mut self.due)?;
        if done {
            self.table.remove(packet.arg1, packet.arg0);
        }
        Ok(())
    }

    /// Handles a CLSE of the host. Allocates nothing.
    pub fn close(&mut self, packet: &Packet)
        ensures holds { (s : Serving) (taken : List ℕ) → Holds s taken (view_of self.old)
            → Holds (on_close packet.now s) taken (view_of self.new) }
        ensures files { self.new.files ≡ self.old.files }
        ensures due { self.new.due ≡ self.old.due }
    {
        let Some(host) = self.table.host_of(packet.arg1) else {
            return;
        };
        if packet.arg0 == 0 || packet.arg0 == host {
            self.table.remove(packet.arg1, host);
        }
    }

    /// Ends all streams, without a CLSE. Allocates nothing.
    pub fn clear(&mut self)
        ensures holds { (s : Serving) (taken : List ℕ) → Holds s taken (view_of self.old)
            → Holds (all_gone s) taken (view_of self.new) }
        ensures files { self.new.files ≡ self.old.files }
        ensures due { self.new.due ≡ self.old.due }
    {
        self.table.clear();
    }

    /// Removes the first `n` queued bytes, which were taken. Needs no memory.
    pub fn taken(&mut self, n: usize)
        requires { n ≤ length self.old.due.bytes }
        ensures holds { (s : Serving) (gone : List ℕ) → Holds s gone (view_of self.old)
            → Holds s (gone ++ take n self.old.due.bytes) (view_of self.new) }
        ensures due { self.new.due.bytes ≡ drop n self.old.due.bytes }
        ensures files { self.new.files ≡ self.old.files }
    {
        self.due.take(n);
        give_back(&mut self.due);
    }
}

/// Frees memory that only holds bytes that were taken. If none are left, up to `KEPT` bytes stay
/// for the next packets. Needs no memory.
fn give_back(due: &mut ByteQueue)
    ensures { due.new.bytes ≡ due.old.bytes }
{
    if !due.is_empty() || due.spare() > KEPT {
        due.give_back();
    }
}

/// Returns the parameters of a stream's packets on a link.
fn outgoing(link: Link, own: u32) -> Outgoing
    ensures { result ≡ record { own = own; most = link.most; sums = link.sums } }
{
    Outgoing {
        own,
        most: link.most,
        sums: link.sums,
    }
}

/// Returns the credit in an OPEN, if the link has credit in bytes.
fn credit_of(link: Link, packet: &Packet) -> Option<u32>
    ensures { result ≡ credit_of link packet.now }
{
    if link.credit {
        return Some(packet.arg1);
    }
    None
}

/// Queues the refusal of a stream. If an allocation fails, the queue is unchanged.
fn refuse(link: Link, host: u32, due: &mut ByteQueue) -> Result<(), AllocError>
    ensures ok { OnOk result
        (due.new.bytes ≡ due.old.bytes ++ packet_bytes link.sums (clse 0 host)) }
    ensures err { OnErr result (due.new.bytes ≡ due.old.bytes) }
{
    let packet = Packet {
        command: Command::Clse,
        arg0: 0,
        arg1: host,
        payload: Bytes::new(),
    };
    push_packet(&packet, link.sums, due)
}

/// Handles a WRTE to a live stream: it is acknowledged and taken, and the stream settles. Returns
/// whether the stream is done.
fn write_at(
    alloc: Global,
    rows: &mut BTreeMap<u32, Stream>,
    files: &mut Files,
    link: Link,
    packet: &Packet,
    due: &mut ByteQueue,
) -> Result<bool, AllocError>
    requires live { IsSome (at packet.now.arg1 rows.old.entries) }
    requires most { link.most ≤ MAX_PAYLOAD }
    requires payload { length packet.now.payload ≤ MAX_PAYLOAD }
    ensures settles { IfOk result (λ done. (row : Row)
        → StandsAt (Some row) (at packet.now.arg1 rows.old.entries)
        → SettlesAt link packet.now.arg1 (row_took (came_over packet.now.payload files.old) row)
        rows.old.entries rows.new.entries
        (due.old.bytes ++ ack_bytes link.sums packet.now.arg1 row.host row.flow
        (length packet.now.payload)) due.new.bytes done) }
    ensures files { OnOk result ((row : Row)
        → StandsAt (Some row) (at packet.now.arg1 rows.old.entries)
        → files.new ≡ files_fed row.kind row.past (came_over packet.now.payload files.old)) }
    ensures front { OnErr result ((row : Row)
        → StandsAt (Some row) (at packet.now.arg1 rows.old.entries)
        → HasFrontOfFiles row.kind row.past (came_over packet.now.payload files.old) files.new) }
    ensures grows { Grows due.old.bytes due.new.bytes }
{
    let payload = packet.payload.as_slice();
    let stream = rows.get_mut(&packet.arg1).unwrap();
    answer_write(
        alloc,
        files,
        stream,
        payload,
        outgoing(link, packet.arg1),
        due,
    )
}

/// Handles an OKAY for a live stream: it acknowledges a write, or gives credit for more, and the
/// stream settles. Returns whether the stream is done.
fn okay_at(
    alloc: Global,
    rows: &mut BTreeMap<u32, Stream>,
    link: Link,
    packet: &Packet,
    due: &mut ByteQueue,
) -> Result<bool, AllocError>
    requires live { IsSome (at packet.now.arg1 rows.old.entries) }
    requires most { link.most ≤ MAX_PAYLOAD }
    ensures settles { IfOk result (λ done. (row : Row)
        → StandsAt (Some row) (at packet.now.arg1 rows.old.entries)
        → SettlesAt link packet.now.arg1 (row_acked (credit_word_in packet.now.payload) row)
        rows.old.entries rows.new.entries due.old.bytes due.new.bytes done) }
    ensures grows { Grows due.old.bytes due.new.bytes }
{
    let word = credit_word_in(packet.payload.as_slice());
    let stream = rows.get_mut(&packet.arg1).unwrap();
    answer_okay(alloc, stream, word, outgoing(link, packet.arg1), due)
}

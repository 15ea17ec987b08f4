//! Links to devices, and the packets that the server writes to them (protocol.txt).

ghost use Rattle.std.specs.Prelude.{◌≡◌, ◌≤◌, ℕ, length};
ghost use Rattle.adb_outside.specs.Tables.{at};
ghost use Rattle.adb_wire.specs.Format.{packet_under};
ghost use Rattle.adb_wire.specs.declared.headers.TheConstants.{MAX_PAYLOAD};
ghost use Rattle.adb_link.specs.Linked.{IsHeadOf};
ghost use Rattle.adb_history.specs.Rows.{to_link};
ghost use Rattle.adb_history.specs.Links.{owe_link, okay_packet, credit_packet, write_packet, close_packet};
ghost use Rattle.adb_hub_tables.specs.Tables.{state_of, owes_packet};
ghost use Rattle.adb_hub_tables.specs.Places.{LinkRoom, Uses};

use crate::tables::Tables;
use adb_link::MAX_SHORT;
use adb_outside::SplitBytes;
use adb_wire::{Command, Head};
use byteorder::{ByteOrder, LittleEndian};

impl Tables {
    /// Appends a packet with a payload of at most eight bytes to the output queue of a link.
    fn put_short(&mut self, link: u32, head: &Head, payload: &[u8])
        requires place { LinkRoom 1 (at link self.old.links.entries) }
        requires head { IsHeadOf head.now payload.now }
        requires short { length payload.now ≤ MAX_SHORT }
        ensures row { state_of self.new ≡ to_link link
            (owes_packet (packet_under head.now payload.now)) (state_of self.old) }
        ensures clients { self.new.clients ≡ self.old.clients }
        ensures streams { self.new.streams ≡ self.old.streams }
        ensures uses { (client : ℕ) → Uses link 1 client 0 self.old self.new }
    {
        if let Some(port) = self.links.get_mut(&link) {
            port.owe_short(head, payload);
        }
    }

    /// Appends a packet to the output queue of a link.
    fn put_slice(&mut self, link: u32, head: &Head, payload: SplitBytes)
        requires place { LinkRoom 1 (at link self.old.links.entries) }
        requires head { IsHeadOf head.now payload }
        ensures row { state_of self.new ≡ to_link link
            (owes_packet (packet_under head.now payload)) (state_of self.old) }
        ensures clients { self.new.clients ≡ self.old.clients }
        ensures streams { self.new.streams ≡ self.old.streams }
        ensures uses { (client : ℕ) → Uses link 1 client 0 self.old self.new }
    {
        if let Some(port) = self.links.get_mut(&link) {
            port.owe_slice(head, payload);
        }
    }

    /// Queues a packet with a payload of at most eight bytes, in a place that was reserved.
    fn owe_short(&mut self, link: u32, head: &Head, payload: &[u8])
        requires place { LinkRoom 1 (at link self.old.links.entries) }
        requires head { IsHeadOf head.now payload.now }
        requires short { length payload.now ≤ MAX_SHORT }
        ensures state { state_of self.new
            ≡ (owe_link link (packet_under head.now payload.now) (state_of self.old)).state }
        ensures clients { self.new.clients ≡ self.old.clients }
        ensures streams { self.new.streams ≡ self.old.streams }
        ensures uses { (client : ℕ) → Uses link 1 client 0 self.old self.new }
    {
        self.put_short(link, head, payload);
    }

    /// Queues a packet, in a place that was reserved.
    fn owe_slice(&mut self, link: u32, head: &Head, payload: SplitBytes)
        requires place { LinkRoom 1 (at link self.old.links.entries) }
        requires head { IsHeadOf head.now payload }
        ensures state { state_of self.new
            ≡ (owe_link link (packet_under head.now payload) (state_of self.old)).state }
        ensures clients { self.new.clients ≡ self.old.clients }
        ensures streams { self.new.streams ≡ self.old.streams }
        ensures uses { (client : ℕ) → Uses link 1 client 0 self.old self.new }
    {
        self.put_slice(link, head, payload);
    }

    /// Queues an OKAY: the bytes that came on a stream were handed out, or there were none.
    pub fn owe_okay(&mut self, link: u32, id: u32, remote: u32)
        requires { LinkRoom 1 (at link self.old.links.entries) }
        ensures state { state_of self.new
            ≡ (owe_link link (okay_packet id remote) (state_of self.old)).state }
        ensures clients { self.new.clients ≡ self.old.clients }
        ensures streams { self.new.streams ≡ self.old.streams }
        ensures uses { (client : ℕ) → Uses link 1 client 0 self.old self.new }
    {
        self.owe_short(link, &head(Command::Okay, id, remote, 0), &[]);
    }

    /// Queues an OKAY that gives a device more credit on a stream.
    pub fn owe_credit(&mut self, link: u32, id: u32, remote: u32, credit: u32)
        requires { LinkRoom 1 (at link self.old.links.entries) }
        ensures state { state_of self.new
            ≡ (owe_link link (credit_packet id remote credit) (state_of self.old)).state }
        ensures clients { self.new.clients ≡ self.old.clients }
        ensures streams { self.new.streams ≡ self.old.streams }
        ensures uses { (client : ℕ) → Uses link 1 client 0 self.old self.new }
    {
        let mut word = [0; 4];
        LittleEndian::write_u32(&mut word, credit);
        self.owe_short(link, &head(Command::Okay, id, remote, 4), &word);
    }

    /// Queues a CLSE: a stream ends, or is not opened.
    pub fn owe_close(&mut self, link: u32, id: u32, remote: u32)
        requires { LinkRoom 1 (at link self.old.links.entries) }
        ensures state { state_of self.new
            ≡ (owe_link link (close_packet id remote) (state_of self.old)).state }
        ensures clients { self.new.clients ≡ self.old.clients }
        ensures streams { self.new.streams ≡ self.old.streams }
        ensures uses { (client : ℕ) → Uses link 1 client 0 self.old self.new }
    {
        self.owe_short(link, &head(Command::Clse, id, remote, 0), &[]);
    }

    /// Queues a WRTE with bytes of a stream's client, in a place that was reserved.
    pub fn owe_write(&mut self, link: u32, id: u32, remote: u32, payload: SplitBytes)
        requires place { LinkRoom 1 (at link self.old.links.entries) }
        requires size { length payload ≤ MAX_PAYLOAD }
        ensures state { state_of self.new
            ≡ (owe_link link (write_packet id remote payload) (state_of self.old)).state }
        ensures clients { self.new.clients ≡ self.old.clients }
        ensures streams { self.new.streams ≡ self.old.streams }
        ensures uses { (client : ℕ) → Uses link 1 client 0 self.old self.new }
    {
        let head = write_head(id, remote, &payload);
        self.owe_slice(link, &head, payload);
    }
}

/// Returns the header of a packet. Its check word is ignored.
pub fn head(command: Command, arg0: u32, arg1: u32, length: u32) -> Head
    ensures { result ≡ record {
      command = command;
      arg0 = arg0;
      arg1 = arg1;
      length = length;
      check = 0;
    } }
{
    Head {
        command,
        arg0,
        arg1,
        length,
        check: 0,
    }
}

/// Returns the header of a WRTE with bytes of a stream's client.
fn write_head(id: u32, remote: u32, payload: &SplitBytes) -> Head
    requires { length payload.now ≤ MAX_PAYLOAD }
    ensures of { IsHeadOf result payload.now }
    ensures packet { packet_under result payload.now ≡ write_packet id remote payload.now }
{
    head(Command::Wrte, id, remote, payload.len() as u32)
}

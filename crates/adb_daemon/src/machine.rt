//! The effect of each packet of the host on the device.

ghost use Rattle.std.specs.Prelude.{◌≡◌, ◌≤◌, [], ℕ, List, length, Some, None, IfOk, OnOk, OnErr};
ghost use Rattle.adb_daemon.specs.Device.{Device, first_device, identity_text, own_cnxn, step, treated, linked_to};
ghost use Rattle.adb_daemon.specs.Serving.{bytes_of};
ghost use Rattle.adb_daemon.specs.Behind.{Stands, setting_in, setting_of};
ghost use Rattle.adb_daemon.specs.Link.{Fits};
ghost use Rattle.adb_daemon.specs.Held.{CutFiles};
ghost use Rattle.adb_device_streams.specs.Due.{Grows};
ghost use Rattle.adb_device_streams.specs.Link.{link_of};
ghost use Rattle.adb_files.specs.Entries.{Entry};

use crate::services::Services;
use crate::table::Table;
use adb_device_streams::{Link, push_packet, read_cnxn};
use adb_files::Files;
use adb_outside::ByteQueue;
use adb_wire::{Command, MAX_PAYLOAD, Packet, VERSION};
use bytes::Bytes;
use std::alloc::{AllocError, Global};
use std::marker::Model;

/// The link to the host, once the host sent its identity. No write on it is longer than a payload
/// may be.
#[derive(Drop)]
pub struct Linked {
    link: Option<Link>,
}

impl Model for Linked {
    ghost use Rattle.std.specs.Prelude.{Option};
    ghost use Rattle.adb_device_streams.specs.declared.link.Link.{Link};
    ghost use Rattle.adb_daemon.specs.Link.{Fits};

    ghost Value = { Option Link };

    ghost view = { λ linked. linked.link };

    ghost invariant = { λ linked. Fits linked.link };
}

impl Linked {
    /// Returns the state without a link.
    fn none() -> Linked
        ensures { result ≡ None }
    {
        Linked { link: None }
    }

    /// Returns the state with the link of a CNXN.
    fn to(link: Link) -> Linked
        requires { link.most ≤ MAX_PAYLOAD }
        ensures { result ≡ Some link }
    {
        Linked { link: Some(link) }
    }

    /// Returns the link.
    fn get(&self) -> Option<Link>
        ensures link { result ≡ self.now }
        ensures fits { Fits result }
    {
        self.link
    }
}

/// The state of the device after the packets of its host.
#[derive(Drop)]
pub struct Machine {
    alloc: Global,
    /// The maximum number of bytes of a payload that the device accepts.
    most: u32,
    /// Whether the device accepts credit in bytes.
    credit: bool,
    link: Linked,
    pub services: Services,
    /// Whether the device refused a CNXN.
    pub refused: bool,
}

impl Machine {
    /// Returns a device with its own CNXN queued.
    pub fn new(alloc: Global, files: Files, most: u32, credit: bool) -> Result<Machine, AllocError>
        ensures stands { IfOk result (λ machine.
            Stands (first_device (setting_of most credit files)) [] machine) }
        ensures setting { IfOk result (λ machine.
            (machine.most ≡ most) × (machine.credit ≡ credit)) }
    {
        let due = first_due(alloc, most, credit)?;
        Ok(Machine {
            alloc,
            most,
            credit,
            link: Linked::none(),
            services: Services {
                table: Table::new(alloc),
                files,
                due,
            },
            refused: false,
        })
    }

    /// Handles a packet. If an allocation fails, the output queue is unchanged, and the files are
    /// those after a prefix of what the packet asks for.
    pub fn step(&mut self, packet: &Packet) -> Result<(), AllocError>
        requires { length packet.now.payload ≤ MAX_PAYLOAD }
        ensures ok { OnOk result ((files : List Entry) (d : Device) (taken : List ℕ)
            → Stands d taken self.old
            → Stands (step (setting_in self.old files) d packet.now) taken self.new) }
        ensures due { OnErr result (self.new.services.due.bytes ≡ self.old.services.due.bytes) }
        ensures err { OnErr result ((d : Device) (taken : List ℕ) → Stands d taken self.old
            → CutFiles packet.now.command packet.now d.serving self.new.services.files) }
        ensures setting { (self.new.most ≡ self.old.most) × (self.new.credit ≡ self.old.credit) }
    {
        if self.refused {
            return Ok(());
        }
        let before = self.services.due.len();
        let result = self.treat(packet);
        if result.is_err() {
            self.services.due.truncate(before);
        }
        result
    }

    /// Handles a packet, if no CNXN was refused.
    fn treat(&mut self, packet: &Packet) -> Result<(), AllocError>
        requires { length packet.now.payload ≤ MAX_PAYLOAD }
        ensures ok { OnOk result ((files : List Entry) (d : Device) (taken : List ℕ)
            → Stands d taken self.old
            → Stands (treated (setting_in self.old files) packet.now d) taken self.new) }
        ensures err { OnErr result ((d : Device) (taken : List ℕ) → Stands d taken self.old
            → CutFiles packet.now.command packet.now d.serving self.new.services.files) }
        ensures grows { Grows self.old.services.due.bytes self.new.services.due.bytes }
        ensures setting { (self.new.most ≡ self.old.most) × (self.new.credit ≡ self.old.credit) }
    {
        if packet.command == Command::Cnxn {
            return self.connect(packet);
        }
        let Some(link) = self.link.get() else {
            return Ok(());
        };
        self.services.serve(self.alloc, link, packet)
    }

    /// Handles a CNXN of the host. If an allocation fails, the files are unchanged.
    fn connect(&mut self, packet: &Packet) -> Result<(), AllocError>
        ensures ok { OnOk result ((files : List Entry) (d : Device) (taken : List ℕ)
            → Stands d taken self.old → Stands
            (linked_to (link_of self.old.most self.old.credit packet.now) d) taken self.new) }
        ensures files { self.new.services.files ≡ self.old.services.files }
        ensures due { self.new.services.due ≡ self.old.services.due }
        ensures setting { (self.new.most ≡ self.old.most) × (self.new.credit ≡ self.old.credit) }
    {
        match read_cnxn(self.alloc, packet, self.most, self.credit)? {
            None => self.refused = true,
            Some(link) => {
                self.link = Linked::to(link);
                self.services.clear();
            }
        }
        Ok(())
    }
}

/// Returns the device's own CNXN, which is queued from the start.
fn first_due(alloc: Global, most: u32, credit: bool) -> Result<ByteQueue, AllocError>
    ensures { IfOk result (λ due. due.bytes ≡ bytes_of (own_cnxn (setting_of most credit []))) }
{
    let packet = Packet {
        command: Command::Cnxn,
        arg0: VERSION,
        arg1: most,
        payload: Bytes::from_static(identity_text(credit)),
    };
    let mut due = ByteQueue::new(alloc);
    push_packet(&packet, true, &mut due)?;
    Ok(due)
}

/// Returns the identity of the device.
fn identity_text(credit: bool) -> &'static [u8]
    ensures text { result.now ≡ identity_text credit }
    ensures short { length result.now ≤ MAX_PAYLOAD }
{
    if credit {
        return b"device::ro.product.name=model;ro.product.model=Model;ro.product.device=model;\
        features=shell_v2,hub_credit;";
    }
    b"device::ro.product.name=model;ro.product.model=Model;ro.product.device=model;\
    features=shell_v2;"
}

//! The model device.

ghost use Rattle.std.specs.Prelude.{◌≡◌, ◌≢◌, ◌≤◌, ◌++◌, [], ℕ, List, Err, true, false, Option, length, take, drop, option_map, OnOk, OnErr, IfOk};
ghost use Rattle.adb_wire.specs.declared.headers.TheConstants.{MAX_PAYLOAD};
ghost use Rattle.adb_wire.specs.Cutting.{parts_of};
ghost use Rattle.adb_wire.specs.declared.format.PacketFault.{PacketFault};
ghost use Rattle.adb_wire.specs.Header.{IsBytes};
ghost use Rattle.adb_wire.specs.declared.limits.TheConstants.{MIN_MAXDATA};
ghost use Rattle.adb_wire.specs.Deframing.{Takes};
ghost use Rattle.adb_files.specs.Entries.{Entry};
ghost use Rattle.adb_daemon.specs.Device.{Device, Setting};
ghost use Rattle.adb_daemon.specs.Behind.{Stands, setting_in, setting_of};
ghost use Rattle.adb_daemon.specs.Daemon.{CutsOff, HasDone, HasDoneFront, Answers, Treats, TreatsFront, daemon_of, error_of, files_of, owed, ran_out, verdict};

use crate::error::DaemonError;
use crate::machine::Machine;
use adb_files::Files;
use adb_wire::{Deframer, WireError};
use std::alloc::{AllocError, Global};

/// An in-process model of a device, over packets (protocol.txt). Its services are `echo:`, `sync:`,
/// `shell:` and `shell,<words>:`. The caller feeds it the bytes of the host, in pieces of any
/// length, and takes the bytes to the host.
#[derive(Drop)]
pub struct Daemon {
    deframer: Deframer,
    machine: Machine,
    spent: bool,
}

impl Daemon {
    /// Returns a device with these files that accepts payloads of at most `maxdata` bytes, and
    /// credit in bytes if its host does. Its own CNXN is queued. Fails if an allocation fails.
    pub fn new(alloc: Global, files: Files, maxdata: u32) -> Result<Daemon, AllocError>
        requires least { MIN_MAXDATA ≤ maxdata }
        requires most { maxdata ≤ MAX_PAYLOAD }
        ensures { IfOk result (λ daemon. HasDone (setting_of maxdata true files) [] [] daemon) }
    {
        begin(alloc, files, maxdata, true)
    }

    /// Returns the same with one write each way on every link. Fails if an allocation fails.
    pub fn plain(alloc: Global, files: Files, maxdata: u32) -> Result<Daemon, AllocError>
        requires least { MIN_MAXDATA ≤ maxdata }
        requires most { maxdata ≤ MAX_PAYLOAD }
        ensures { IfOk result (λ daemon. HasDone (setting_of maxdata false files) [] [] daemon) }
    {
        begin(alloc, files, maxdata, false)
    }

    /// Takes the next piece of the host's bytes. Each whole packet is handled in order.
    ///
    /// - `BadCnxn`: returned exactly if one of the packets is a CNXN that is refused. The error
    ///   persists, and nothing after it is handled.
    /// - `Broken`: otherwise, exactly if the bytes have a fault, which is that of `Deframer`. The
    ///   error persists, and nothing after the fault is handled.
    /// - `OutOfMemory`: an allocation failed. The device is spent: every later call returns
    ///   `OutOfMemory` and changes nothing. Its output is that of a prefix of the packets. The
    ///   files are those after all packets of earlier pieces and a prefix of the new ones, or after
    ///   a prefix of what the next packet asks for.
    pub fn feed(&mut self, piece: &[u8]) -> Result<(), DaemonError>
        ensures whole { result ≢ Err DaemonError.OutOfMemory → (setting : Setting)
            (fed taken : List ℕ) → HasDone setting fed taken self.old
            → Answers setting (fed ++ piece.now) taken result self.new }
        ensures front { result ≡ Err DaemonError.OutOfMemory → (setting : Setting)
            (fed taken : List ℕ) → HasDone setting fed taken self.old
            → HasDoneFront setting (fed ++ piece.now) taken self.new }
        ensures cut { result ≡ Err DaemonError.OutOfMemory → (setting : Setting)
            (fed taken : List ℕ) → HasDone setting fed taken self.old
            → CutsOff setting (parts_of fed).packets (parts_of (fed ++ piece.now)).packets
            (files_of self.new) }
        ensures spent { result ≡ Err DaemonError.OutOfMemory → self.new.spent ≡ true }
        ensures stays { self.old.spent ≡ true
            → (result ≡ Err DaemonError.OutOfMemory) × (self.new ≡ self.old) }
    {
        if self.spent {
            return Err(DaemonError::OutOfMemory);
        }
        let result = feed_open(&mut self.deframer, &mut self.machine, piece);
        self.spent = ran_out(&result);
        result
    }

    /// Returns the bytes for the host that were not taken yet.
    pub fn out(&self) -> &[u8]
        ensures { result.now ≡ owed self.now }
    {
        self.machine.services.due.as_slice()
    }

    /// Removes the first `n` bytes for the host, which were taken. Needs no memory.
    pub fn taken(&mut self, n: usize)
        requires { n ≤ length (owed self.old) }
        ensures done { (setting : Setting) (fed gone : List ℕ)
            → HasDone setting fed gone self.old
            → HasDone setting fed (gone ++ take n (owed self.old)) self.new }
        ensures front { (setting : Setting) (fed gone : List ℕ)
            → HasDoneFront setting fed gone self.old
            → HasDoneFront setting fed (gone ++ take n (owed self.old))
            self.new }
        ensures left { owed self.new ≡ drop n (owed self.old) }
        ensures files { files_of self.new ≡ files_of self.old }
        ensures spent { self.new.spent ≡ self.old.spent }
    {
        self.machine.services.taken(n);
    }

    /// Returns the files of the device.
    pub fn files(&self) -> &Files
        ensures { result.now ≡ files_of self.now }
    {
        &self.machine.services.files
    }
}

/// Returns a device that was fed nothing.
fn begin(alloc: Global, files: Files, maxdata: u32, credit: bool) -> Result<Daemon, AllocError>
    ensures { IfOk result (λ daemon. HasDone (setting_of maxdata credit files) [] [] daemon) }
{
    Ok(Daemon {
        deframer: Deframer::new(alloc),
        machine: Machine::new(alloc, files, maxdata, credit)?,
        spent: false,
    })
}

/// Returns whether an allocation failed.
fn ran_out(answer: &Result<(), DaemonError>) -> bool
    ensures { result ≡ ran_out answer.now }
{
    matches!(answer, Err(DaemonError::OutOfMemory))
}

/// Takes the next piece, if no allocation has failed before.
fn feed_open(
    deframer: &mut Deframer,
    machine: &mut Machine,
    piece: &[u8],
) -> Result<(), DaemonError>
    ensures whole { result ≢ Err DaemonError.OutOfMemory → (setting : Setting)
        (fed taken : List ℕ) → HasDone setting fed taken (daemon_of deframer.old machine.old)
        → Answers setting (fed ++ piece.now) taken result (daemon_of deframer.new machine.new) }
    ensures front { result ≡ Err DaemonError.OutOfMemory → (setting : Setting)
        (fed taken : List ℕ) → HasDone setting fed taken (daemon_of deframer.old machine.old)
        → HasDoneFront setting (fed ++ piece.now) taken (daemon_of deframer.new machine.new) }
    ensures cut { result ≡ Err DaemonError.OutOfMemory → (setting : Setting)
        (fed taken : List ℕ) → HasDone setting fed taken (daemon_of deframer.old machine.old)
        → CutsOff setting (parts_of fed).packets (parts_of (fed ++ piece.now)).packets
        machine.new.services.files }
{
    if machine.refused {
        return Err(DaemonError::BadCnxn);
    }
    let fault = read_piece(deframer, piece)?;
    treat_all(deframer, machine)?;
    verdict(machine.refused, fault)
}

/// Reads the packets of a piece. Returns the fault of all bytes, if they have one.
fn read_piece(deframer: &mut Deframer, piece: &[u8]) -> Result<Option<WireError>, AllocError>
    ensures fault { IfOk result (λ fault. fault ≡ option_map error_of deframer.new.fault) }
    ensures taken { OnOk result (Takes deframer.old piece.now deframer.new) }
    ensures bytes { IsBytes piece.now }
{
    match deframer.feed(piece) {
        Ok(()) => Ok(None),
        Err(WireError::OutOfMemory) => Err(AllocError),
        Err(error) => Ok(Some(error)),
    }
}

/// Returns the result of feeding: the refusal of a CNXN, or otherwise the fault of the bytes.
fn verdict(refused: bool, fault: Option<WireError>) -> Result<(), DaemonError>
    ensures answer { (read : Option PacketFault) → fault ≡ option_map error_of read
        → result ≡ verdict refused read }
    ensures whole { result ≢ Err DaemonError.OutOfMemory }
{
    if refused {
        return Err(DaemonError::BadCnxn);
    }
    match fault {
        None => Ok(()),
        Some(error) => Err(DaemonError::Broken(error)),
    }
}

/// Handles all packets that are there.
fn treat_all(deframer: &mut Deframer, machine: &mut Machine) -> Result<(), AllocError>
    ensures ok { OnOk result (Treats deframer.old machine.old deframer.new machine.new) }
    ensures front { OnErr result ((files : List Entry) (d : Device) (taken : List ℕ)
        → Stands d taken machine.old → TreatsFront
        (setting_in machine.old files) d deframer.old.given taken machine.new) }
{
    while let Some(packet) = deframer.next() {
        machine.step(&packet)?;
    }
    Ok(())
}

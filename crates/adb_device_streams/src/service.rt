//! The service at the device's end of a stream.

ghost use Rattle.std.specs.Prelude.{◌≡◌, ◌≢◌, ◌≤◌, ◌++◌, [], List, ℕ, length, take, drop, IfOk, OnOk, OnErr};
ghost use Rattle.std.specs.Io.{StartsWith};
ghost use Rattle.adb_files.specs.Entries.{Entry};
ghost use Rattle.adb_device_streams.specs.Asked.{Kind, kind_of};
ghost use Rattle.adb_device_streams.specs.Service.{Came, HasAnswered, Takes, TakesFront, came_over, files_opened, out_of, ended_of};

use crate::asked::Asked;
use adb_files::{Files, SyncService};
use adb_outside::ByteQueue;
use adb_shell_service::ShellService;
use std::alloc::{AllocError, Global};

/// The service at the device's end of a stream (SERVICES.TXT).
#[derive(Drop)]
pub enum Service {
    /// A service that answers with its input.
    Echo(ByteQueue),
    Sync(SyncService),
    Shell(ShellService),
}

impl Service {
    /// Opens a service over the files of the device; a command is run now. If an allocation fails,
    /// the files are unchanged.
    pub fn open(alloc: Global, files: &mut Files, asked: Asked<'_>) -> Result<Service, AllocError>
        ensures service { IfOk result (λ service.
            HasAnswered (kind_of asked.entry) files.old [] [] service) }
        ensures files { OnOk result (files.new ≡ files_opened (kind_of asked.entry) files.old) }
        ensures err { OnErr result (files.new ≡ files.old) }
    {
        match asked {
            Asked::Echo => Ok(Service::Echo(ByteQueue::new(alloc))),
            Asked::Sync => Ok(Service::Sync(SyncService::new(alloc))),
            Asked::Shell { packets, command } => {
                let service = ShellService::open(alloc, files, packets, command)?;
                Ok(Service::Shell(service))
            }
        }
    }

    /// Takes the payload of a write. A service that has ended drops it. If an allocation fails, a
    /// prefix of its answer was given, and the files are those after a prefix of the sync requests
    /// that the payload completes.
    pub fn feed(&mut self, files: &mut Files, payload: &[u8]) -> Result<(), AllocError>
        ensures whole { OnOk result
            (Takes (came_over payload.now files.old) self.old self.new files.new) }
        ensures front { OnErr result
            (TakesFront (came_over payload.now files.old) self.old self.new files.new) }
    {
        match self {
            Service::Echo(queue) => queue.push(payload),
            Service::Sync(service) => service.feed(files, payload),
            Service::Shell(service) => service.feed(payload),
        }
    }

    /// Returns the first bytes of the answer that were not taken yet, at least one if any are left.
    pub fn out(&self) -> &[u8]
        ensures front { StartsWith (out_of self.now) result.now }
        ensures some { out_of self.now ≢ [] → result.now ≢ [] }
    {
        match self {
            Service::Echo(queue) => queue.as_slice(),
            Service::Sync(service) => service.out(),
            Service::Shell(service) => service.out(),
        }
    }

    /// Removes the first `n` bytes of the answer, which were taken. Needs no memory.
    pub fn taken(&mut self, n: usize)
        requires { n ≤ length (out_of self.old) }
        ensures left { out_of self.new ≡ drop n (out_of self.old) }
        ensures whole { (kind : Kind) (first : List Entry) (past : List Came) (gone : List ℕ)
            → HasAnswered kind first past gone self.old
            → HasAnswered kind first past (gone ++ take n (out_of self.old)) self.new }
    {
        match self {
            Service::Echo(queue) => {
                queue.take(n);
                queue.give_back();
            }
            Service::Sync(service) => service.taken(n),
            Service::Shell(service) => service.taken(n),
        }
    }

    /// Returns whether the service has ended, so that nothing is added to its answer.
    pub fn ended(&self) -> bool
        ensures { result ≡ ended_of self.now }
    {
        match self {
            Service::Echo(_) => false,
            Service::Sync(service) => service.ended(),
            Service::Shell(service) => service.ended(),
        }
    }
}

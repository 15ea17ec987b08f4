//! A sync client's machine, and the sync service that answers it.

ghost use Rattle.std.specs.Prelude.{◌≤◌, length};

use adb_files::{Files, SyncService};
use adb_sync_client::{PathAsk, PathValue, Push, Step};
use std::alloc::{AllocError, Global};

/// A machine that makes one request.
pub trait Machine: Drop {
    type Value: Drop;

    /// Gives a service the next piece of the request, at most `size` bytes. Returns how many bytes
    /// are left.
    fn give(
        &mut self,
        service: &mut SyncService,
        files: &mut Files,
        size: usize,
    ) -> Result<usize, AllocError>;

    /// Takes a piece of the answer. Returns the meaning of all pieces so far.
    fn take(&mut self, piece: &[u8]) -> Result<Step<Self::Value>, AllocError>;
}

impl Machine for Push {
    type Value = ();

    fn give(
        &mut self,
        service: &mut SyncService,
        files: &mut Files,
        size: usize,
    ) -> Result<usize, AllocError> {
        let piece = front_of(self.out(), size);
        let len = piece.len();
        service.feed(files, piece)?;
        self.taken(len);
        Ok(self.out().len())
    }

    fn take(&mut self, piece: &[u8]) -> Result<Step<()>, AllocError> {
        self.feed(piece)
    }
}

impl<V: PathValue> Machine for PathAsk<V> {
    type Value = V;

    fn give(
        &mut self,
        service: &mut SyncService,
        files: &mut Files,
        size: usize,
    ) -> Result<usize, AllocError> {
        let piece = front_of(self.out(), size);
        let len = piece.len();
        service.feed(files, piece)?;
        self.taken(len);
        Ok(self.out().len())
    }

    fn take(&mut self, piece: &[u8]) -> Result<Step<V>, AllocError> {
        self.feed(piece)
    }
}

/// Returns the result of a request, with bytes in pieces of at most `size` in both directions.
pub fn exchange<M: Machine>(
    alloc: Global,
    machine: M,
    files: &mut Files,
    size: usize,
) -> Result<Step<M::Value>, AllocError> {
    let (mut machine, mut service) = (machine, SyncService::new(alloc));
    converse(&mut machine, &mut service, files, size)
}

fn converse<M: Machine>(
    machine: &mut M,
    service: &mut SyncService,
    files: &mut Files,
    size: usize,
) -> Result<Step<M::Value>, AllocError> {
    ask(machine, service, files, size)?;
    hear(machine, service, size)
}

/// Gives the service the whole request.
fn ask<M: Machine>(
    machine: &mut M,
    service: &mut SyncService,
    files: &mut Files,
    size: usize,
) -> Result<(), AllocError> {
    for _ in 0..u64::MAX {
        if machine.give(service, files, size)? == 0 {
            break;
        }
    }
    Ok(())
}

/// Takes the whole answer, after an empty first piece.
fn hear<M: Machine>(
    machine: &mut M,
    service: &mut SyncService,
    size: usize,
) -> Result<Step<M::Value>, AllocError> {
    let mut step = machine.take(b"")?;
    for _ in 0..u64::MAX {
        let piece = front_of(service.out(), size);
        let len = piece.len();
        if len == 0 {
            break;
        }
        step = machine.take(piece)?;
        service.taken(len);
    }
    Ok(step)
}

/// Returns the first bytes of `bytes`, at most `size`.
fn front_of(bytes: &[u8], size: usize) -> &[u8]
    ensures { length result.now ≤ length bytes.now }
{
    &bytes[..size.min(bytes.len())]
}

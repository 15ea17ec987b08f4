//! The writes among the packets of a link.

ghost use Rattle.std.specs.Prelude.{◌≡◌, ◌≢◌, ◌++◌, ℕ, List, [], Err, false, IfOk, if◌then◌else◌, length};
ghost use Rattle.adb_wire.specs.Deframing.{StandsFor};
ghost use Rattle.adb_wire.specs.declared.packets.Packet.{Packet};
ghost use Rattle.adb_history.specs.Births.{is_wrte};
ghost use Rattle.adb_laws_loads.specs.Totals.{wrote_in};
ghost use Rattle.adb_run_load.specs.Counted.{HasRead, Wrote};
ghost use Rattle.adb_run_load.specs.Totals.{told};

use adb_wire::{Command, Deframer, Packet, WireError};
use std::alloc::AllocError;

/// Returns how many bytes the writes have that become whole by a further piece. After a fault there
/// are none.
pub(crate) fn written(cutter: &mut Deframer, piece: &[u8]) -> Result<u64, AllocError>
    ensures { IfOk result (λ written. (fed : List ℕ) → HasRead fed cutter.old
        → Wrote fed piece.now written cutter.new) }
{
    let fed = cutter.feed(piece);
    if ran_out(fed) {
        return Err(AllocError);
    }
    Ok(take_writes(cutter))
}

/// Returns whether an allocation for a piece failed.
fn ran_out(fed: Result<(), WireError>) -> bool
    ensures { result ≡ false → fed ≢ Err WireError.OutOfMemory }
{
    matches!(fed, Err(WireError::OutOfMemory))
}

/// Takes the packets that are whole, and returns how many bytes their writes have.
fn take_writes(cutter: &mut Deframer) -> u64
    ensures counted { result ≡ told (wrote_in cutter.old.given) }
    ensures taken { cutter.new.given ≡ [] }
    ensures stands { (fed : List ℕ) (before : List Packet) → StandsFor fed before cutter.old
        → StandsFor fed (before ++ cutter.old.given) cutter.new }
{
    let mut total: u64 = 0;
    while let Some(packet) = cutter.next() {
        total = total.saturating_add(write_len(packet));
    }
    total
}

/// Returns how many bytes a packet writes.
fn write_len(packet: Packet) -> u64
    ensures { result ≡ (if is_wrte packet.command then length packet.payload else 0) }
{
    match packet.command {
        Command::Wrte => packet.payload.len() as u64,
        _ => 0,
    }
}

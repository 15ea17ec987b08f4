//! Running a load.

ghost use Rattle.std.specs.Prelude.{◌<◌, ◌^◌, ◌∷◌, [], IfOk, OnOk, OnErr};
ghost use Rattle.adb_capture.specs.Records.{HasRecord};
ghost use Rattle.adb_history.specs.Drained.{drain_all, drained_after};
ghost use Rattle.adb_history.specs.Kept.{IsLawful};
ghost use Rattle.adb_history.specs.Machine.{History, IsLegal};
ghost use Rattle.adb_load.specs.Load.{load};
ghost use Rattle.adb_laws_loads.specs.Taken.{IsTaken};
ghost use Rattle.adb_run_load.specs.Counted.{IsCount};
ghost use Rattle.adb_run_load.specs.Fronts.{HasRun, IsCounted, IsReady, Reaches, StandsForFront};

use crate::count::Count;
use crate::totals::Totals;
use adb_capture::Entry;
use adb_entries::{Refused, apply, hand_next};
use adb_history::draining_ends;
use adb_hub::Hub;
use adb_laws_loads::{loads_are_accepted, totals_of_loads};
use adb_load::Load;
use std::alloc::{AllocError, Global};

/// Runs the load of a seed with `streams` streams in a hub to which no client or device came yet:
/// applies its entries one by one, and hands out all output after each. Returns the totals. It
/// holds only the live streams of the load. If an allocation fails, the hub holds a prefix of the
/// history.
pub fn run_load(alloc: Global, hub: &mut Hub, seed: u64, streams: u32) -> Result<Totals, AllocError>
    requires new { IsLawful hub.old [] }
    requires some { 0 < streams }
    requires few { streams < 2 ^ 16 }
    ensures done { IfOk result (λ totals. HasRun seed streams totals hub.new) }
    ensures memory { OnErr result (StandsForFront (load seed streams) hub.new) }
{
    loads_are_accepted();
    totals_of_loads();
    let mut load = Load::new(alloc, seed, streams)?;
    let mut count = Count::new(alloc);
    while let Some(entry) = load.next()? {
        make(hub, &mut count, entry)?;
    }
    Ok(count.totals())
}

/// Applies an entry, drops it, and hands out all output.
fn make(hub: &mut Hub, count: &mut Count, entry: Entry) -> Result<(), AllocError>
    requires form { HasRecord entry }
    requires ready { IsReady entry hub.old count.old }
    ensures { (h : History) → IsLawful hub.old h → IsCount h count.old → IsTaken h entry
        → Reaches result (drained_after h entry) hub.new count.new }
{
    make_entry(hub, count, &entry)
}

/// Applies and counts an entry, and hands out all output.
fn make_entry(hub: &mut Hub, count: &mut Count, entry: &Entry) -> Result<(), AllocError>
    requires form { HasRecord entry.now }
    requires ready { IsReady entry.now hub.old count.old }
    ensures { (h : History) → IsLawful hub.old h → IsCount h count.old → IsTaken h entry.now
        → Reaches result (drained_after h entry.now) hub.new count.new }
{
    match apply(hub, entry.lend()) {
        Ok(()) => {
            count.add(entry)?;
            drain(hub, count)
        }
        Err(Refused::OutOfMemory) => Err(AllocError),
        Err(Refused::Because(_)) => unreachable!(),
    }
}

/// Hands out all output to every client and link, and counts each hand-out. By the law
/// `draining_ends` this ends, with no output left.
fn drain(hub: &mut Hub, count: &mut Count) -> Result<(), AllocError>
    requires { IsCounted hub.old count.old }
    ensures { (h : History) → IsLawful hub.old h → IsCount h count.old
        → Reaches result (drain_all h) hub.new count.new }
{
    draining_ends();
    while let Some(entry) = hand_next(hub)? {
        add(count, entry)?;
    }
    Ok(())
}

/// Counts a hand-out, and drops it.
fn add(count: &mut Count, entry: Entry) -> Result<(), AllocError>
    ensures { OnOk result ((h : History) → IsLegal (entry ∷ h) → IsCount h count.old
        → IsCount (entry ∷ h) count.new) }
{
    count.add(&entry)
}

//! The entries of a load, one after another.

ghost use Rattle.std.specs.Prelude.{◌≡◌, ◌<◌, ◌^◌, IfOk, OnErr, IfSome};
ghost use Rattle.adb_capture.specs.Records.{HasRecord};
ghost use Rattle.adb_load.specs.Load.{GivesFirst, IsOver, ahead, load};

use crate::act::Act;
use crate::course::Course;
use crate::entries::entry;
use crate::patterns::Pattern;
use adb_capture::Entry;
use std::alloc::{AllocError, Global};
use std::marker::Model;

/// A load, of which some entries may have been returned already. Contracts see it as the list of
/// the entries that remain. It holds the live streams, at most 16, 64 KiB of the pattern from which
/// their payloads are cut, and nothing of the streams that are over.
#[derive(Drop)]
pub struct Load {
    alloc: Global,
    pattern: Pattern,
    due: Option<Act>,
    course: Course,
}

impl Model for Load {
    ghost use Rattle.std.specs.Prelude.{List};
    ghost use Rattle.adb_capture.specs.declared.entry.Entry.{Entry};
    ghost use Rattle.adb_load.specs.Load.{ahead, entries_of};

    ghost Value = { List Entry };

    ghost view = { λ l. entries_of (ahead l.due l.course) };
}

impl Load {
    /// Returns the load of a seed with `streams` streams. Fails if an allocation fails.
    pub fn new(alloc: Global, seed: u64, streams: u32) -> Result<Load, AllocError>
        requires { streams < 2 ^ 16 }
        ensures { IfOk result (λ l. l ≡ load seed streams) }
    {
        Ok(Load {
            alloc,
            pattern: Pattern::new(alloc)?,
            due: None,
            course: Course::new(alloc, seed, streams as u16)?,
        })
    }

    /// Returns the next entry, or `None` if all were returned. If an allocation fails, the next
    /// call returns the same entry. Each entry has a record in a capture.
    pub fn next(&mut self) -> Result<Option<Entry>, AllocError>
        ensures first { GivesFirst self.old self.new result }
        ensures form { IfOk result (λ given. IfSome given HasRecord) }
    {
        self.due = next_due(self.due, &mut self.course)?;
        let Some(act) = self.due else {
            return Ok(None);
        };
        let first = entry(self.alloc, &self.pattern, act)?;
        self.due = act.follower();
        Ok(Some(first))
    }
}

/// Returns the next act: one that is pending, or that of a turn. The remaining entries stay the
/// same, and if an allocation fails, so does the load.
#[tactic(auto, using(crate::proofs::Aheads::same_ahead, crate::proofs::Aheads::is_over))]
fn next_due(due: Option<Act>, course: &mut Course) -> Result<Option<Act>, AllocError>
    ensures ok { IfOk result (λ act. ahead act course.new ≡ ahead due course.old) }
    ensures over { IfOk result (λ act. IsOver act (ahead act course.new)) }
    ensures err { OnErr result (course.new ≡ course.old) }
{
    match due {
        Some(act) => Ok(Some(act)),
        None => {
            let act = course.turn()?;
            Ok(act)
        }
    }
}

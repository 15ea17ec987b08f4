//! The shares of a log's counts, and its marks: lending them to passes, and taking them back.

ghost use Rattle.std.specs.Prelude.{◌≡◌, ◌+◌, ◌-◌, ◌<◌, ◌≤◌, ◌^◌};
ghost use Rattle.std.specs.Prelude.{true, false, None, Some, nat_eq, if◌then◌else◌};
ghost use Rattle.adb_server_log.specs.Log.{retired};
ghost use Rattle.adb_server_log.specs.Pass.{first_pass};

use crate::log::Log;
use crate::marks::Marks;
use crate::pass::{Mark, Pass};
use adb_recorder::Recorder;
use std::sync::ledger::Ledger;

impl<R: Recorder, E: Ledger, M: Ledger, K: Marks> Log<R, E, M, K> {
    /// Moves the count of one entry and of the bytes that it moved to the shares of a pass.
    pub fn credit(&mut self, pass: &mut Pass<E, M, K>, bytes: usize)
        requires entry { 1 ≤ self.old.is.home_entries }
        requires bytes { bytes ≤ self.old.is.home_moved }
        ensures pass { pass.new ≡ record pass.old {
          entries = pass.old.entries + 1;
          moved = pass.old.moved + bytes;
        } }
        ensures home { self.new ≡ record self.old {
          is = record self.old.is {
            home_entries = self.old.is.home_entries - 1;
            home_moved = self.old.is.home_moved - bytes;
          };
        } }
    {
        self.home_entries.transfer(&mut pass.entries, 1);
        self.home_moved.transfer(&mut pass.moved, bytes as u64);
    }

    /// Sets a mark. The alarm must be set.
    pub fn mark(&mut self, mark: &mut Mark<K>)
        requires { self.old.is.alarm ≡ true }
        ensures mark { mark.new ≡ true }
        ensures same { self.new ≡ self.old }
    {
        if !mark.set {
            self.mark_book.add(&mut mark.share, 1);
            mark.set = true;
        }
    }

    /// Sets the mark of a pass. The alarm must be set.
    pub fn mark_pass(&mut self, pass: &mut Pass<E, M, K>)
        requires { self.old.is.alarm ≡ true }
        ensures pass { pass.new ≡ record pass.old { marked = true } }
        ensures same { self.new ≡ self.old }
    {
        self.mark(&mut pass.mark);
    }

    /// Notes in a pass that an allocation failed in a call with it. No worker has the log of its
    /// own pass, so no worker can call this.
    pub fn starve(&mut self, pass: &mut Pass<E, M, K>)
        ensures pass { pass.new ≡ record pass.old { starved = true } }
        ensures same { self.new ≡ self.old }
    {
        pass.starved = true;
    }

    /// Proves that the alarm is set if this mark is.
    pub fn audit_mark(&mut self, mark: &mut Mark<K>)
        ensures alarm { mark.old ≡ true → self.old.is.alarm ≡ true }
        ensures mark { mark.new ≡ mark.old }
        ensures same { self.new ≡ self.old }
    {
        self.mark_book.audit(&mut mark.share);
    }

    /// Returns how many entries were kept, or `None` while a pass is out. If all passes are back,
    /// the shares that they gave back add up to that number.
    pub fn count_entries(&mut self) -> Option<u64>
        ensures count { result
            ≡ (if nat_eq self.old.is.out 0 then Some self.old.is.entries else None) }
        ensures all { self.old.is.out ≡ 0 → self.old.is.home_entries ≡ self.old.is.entries }
        ensures same { self.new ≡ self.old }
    {
        self.entry_book.audit(&mut self.home_entries);
        if self.out == 0 {
            Some(self.entries)
        } else {
            None
        }
    }

    /// Returns how many bytes were moved, or `None` while a pass is out.
    pub fn count_moved(&mut self) -> Option<u64>
        ensures count { result ≡ (if nat_eq self.old.is.out 0 then Some self.old.is.moved else None) }
        ensures all { self.old.is.out ≡ 0 → self.old.is.home_moved ≡ self.old.is.moved }
        ensures same { self.new ≡ self.old }
    {
        self.moved_book.audit(&mut self.home_moved);
        if self.out == 0 {
            Some(self.moved)
        } else {
            None
        }
    }

    /// Returns the mark of the first handle. It can be lent once.
    pub fn lend(&mut self) -> Mark<K>
        requires { self.old.is.lent ≡ false }
        ensures mark { result ≡ false }
        ensures lent { self.new ≡ record self.old { is = record self.old.is { lent = true } } }
    {
        self.lent = true;
        let share = self.home_marks.split_off(1, 0);
        Mark { share, set: false }
    }

    /// Makes a pass of the number that was drawn last, without shares. Two passes can be made of
    /// each number.
    pub fn seat(&mut self) -> Pass<E, M, K>
        requires free { 0 < self.old.is.free }
        requires few { self.old.is.out < 2 ^ 34 }
        ensures pass { result ≡ first_pass self.old.is.drawn 0 }
        ensures out { self.new ≡ record self.old {
          is = record self.old.is {
            out = self.old.is.out + 1;
            free = self.old.is.free - 1;
          };
        } }
    {
        self.out += 1;
        self.free -= 1;
        let entries = self.home_entries.split_off(1, 0);
        let moved = self.home_moved.split_off(1, 0);
        let share = self.home_marks.split_off(1, 0);
        Pass {
            number: self.drawn,
            entries,
            moved,
            mark: Mark { share, set: false },
            starved: false,
        }
    }

    /// Takes a pass back, with its shares.
    pub fn retire(&mut self, pass: Pass<E, M, K>)
        ensures back { self.new ≡ record self.old { is = retired self.old.is pass } }
        ensures was_out { 0 < self.old.is.out }
    {
        let Pass {
            entries,
            moved,
            mark,
            ..
        } = pass;
        let Mark { share, .. } = mark;
        self.home_entries.merge(entries);
        self.home_moved.merge(moved);
        self.home_marks.merge(share);
        self.out -= 1;
    }
}

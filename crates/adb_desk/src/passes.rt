//! Passes of a desk: making them, noting the calls made with them, and taking them back.

ghost use Rattle.std.specs.Prelude.{◌≡◌, ◌+◌, ◌-◌, ◌<◌, ◌≤◌};
ghost use Rattle.std.specs.Prelude.{true, false, None, Some, nat_eq, if◌then◌else◌};
ghost use Rattle.adb_server_log.specs.Log.{retired};
ghost use Rattle.adb_server_log.specs.Pass.{first_pass, noted};
ghost use Rattle.adb_desk.specs.Desk.{IsSameDesk};

use crate::desk::Desk;
use adb_recorder::Recorder;
use adb_server_log::{Mark, Marks, Pass};
use std::sync::ledger::Ledger;

impl<R: Recorder, E: Ledger, M: Ledger, K: Marks> Desk<R, E, M, K> {
    /// Makes a pass of the number that was drawn last, without shares. Two passes can be made of
    /// each number.
    pub fn seat(&mut self) -> Pass<E, M, K>
        requires { 0 < self.old.log.free }
        ensures pass { result ≡ first_pass self.old.log.drawn 0 }
        ensures out { self.new ≡ record {
          hub = self.old.hub;
          log = record self.old.log {
            out = self.old.log.out + 1;
            free = self.old.log.free - 1;
          };
        } }
    {
        self.log.seat()
    }

    /// Notes a call in a pass: whether it made an entry, and how many bytes the entry moved;
    /// whether its answer is marked; and whether an allocation failed.
    pub fn note(
        &mut self,
        pass: &mut Pass<E, M, K>,
        made: bool,
        bytes: usize,
        marked: bool,
        starved: bool,
    )
        requires made { made ≡ true → (1 ≤ self.old.log.home_entries)
            × (bytes ≤ self.old.log.home_moved) }
        requires marked { marked ≡ true → self.old.log.alarm ≡ true }
        ensures pass { pass.new ≡ noted pass.old made bytes marked starved }
        ensures same { IsSameDesk self.old self.new }
    {
        if made {
            self.log.credit(pass, bytes);
        }
        if marked {
            self.log.mark_pass(pass);
        }
        if starved {
            self.log.starve(pass);
        }
    }

    /// Takes a pass back, with its shares.
    pub fn retire(&mut self, pass: Pass<E, M, K>)
        ensures back { self.new
            ≡ record { hub = self.old.hub; log = retired self.old.log pass } }
        ensures was_out { 0 < self.old.log.out }
    {
        self.log.retire(pass);
    }

    /// Returns how many entries were kept, which is the sum of all shares of entries, or `None`
    /// while a pass is out.
    pub fn entries(&mut self) -> Option<u64>
        ensures count { result
            ≡ (if nat_eq self.old.log.out 0 then Some self.old.log.entries else None) }
        ensures all { self.old.log.out ≡ 0
            → self.old.log.home_entries ≡ self.old.log.entries }
        ensures same { self.new ≡ self.old }
    {
        self.log.count_entries()
    }

    /// Returns how many bytes were moved, which is the sum of all shares of moved bytes, or `None`
    /// while a pass is out.
    pub fn moved(&mut self) -> Option<u64>
        ensures count { result
            ≡ (if nat_eq self.old.log.out 0 then Some self.old.log.moved else None) }
        ensures all { self.old.log.out ≡ 0 → self.old.log.home_moved ≡ self.old.log.moved }
        ensures same { self.new ≡ self.old }
    {
        self.log.count_moved()
    }

    /// Returns the mark of the handle that is made with the desk. It can be lent once.
    pub fn lend(&mut self) -> Mark<K>
        requires { self.old.log.lent ≡ false }
        ensures mark { result ≡ false }
        ensures lent { self.new ≡ record {
          hub = self.old.hub;
          log = record self.old.log {
            lent = true;
          };
        } }
    {
        self.log.lend()
    }

    /// Sets a mark. The alarm must be set.
    pub fn mark(&mut self, mark: &mut Mark<K>)
        requires { self.old.log.alarm ≡ true }
        ensures mark { mark.new ≡ true }
        ensures same { self.new ≡ self.old }
    {
        self.log.mark(mark);
    }

    /// Proves that the alarm is set if this mark is.
    pub fn audit_mark(&mut self, mark: &mut Mark<K>)
        ensures alarm { mark.old ≡ true → self.old.log.alarm ≡ true }
        ensures mark { mark.new ≡ mark.old }
        ensures same { self.new ≡ self.old }
    {
        self.log.audit_mark(mark);
    }
}

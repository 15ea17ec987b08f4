//! Numbers with two kinds of marks, in blocks of 64, and those blocks in groups of 64.

ghost use Rattle.std.specs.Prelude.{◌≡◌, ◌/◌, ◌%◌, ◌<◌, ◌^◌, ℕ, List, [], true, false, Some, None, OnErr, OnOk, IfSome, filter, nat_eq, option_map};
ghost use Rattle.adb_outside.specs.Tables.{at, IsRising, Puts};
ghost use Rattle.adb_hub_tables.specs.Marked.{AreBlocks, AreGrouped, with_mark, without_mark, first_mark, known, is_empty, Forgets, Holds, IsMarkedIn, LacksBut, Thins, Unmarks, mark, place, weight};
ghost use Rattle.adb_hub_tables.specs.declared.words.Block.{Block};

use crate::words;
use crate::words::{Block, Kind, Words};
use std::alloc::{AllocError, Global};
use std::collections::BTreeMap;
use std::marker::Model;
use std::mem;

/// A cache of the last result, which saves a second search.
#[derive(Clone, Copy, Drop)]
enum Seen {
    /// Nothing is cached.
    Nothing,
    /// This number, if it is known, has all marks.
    Marked(u32),
    /// No number has this mark.
    Lack(Kind),
    /// Only this number has this mark, and it has all marks.
    Alone(Kind, u32),
}

/// Numbers with marks, in blocks. Contracts see the blocks. A block with marks is marked itself
/// among the groups, so that the least mark is found without a walk over all blocks.
#[derive(Drop)]
pub(crate) struct Marks {
    blocks: Words,
    groups: Words,
    seen: Seen,
    /// The last block that was left without numbers. It is kept for reuse.
    spare: Option<u32>,
}

impl Model for Marks {
    ghost use Rattle.adb_hub_tables.specs.TouchedMap.{Table, table};
    ghost use Rattle.adb_hub_tables.specs.declared.words.Block.{Block};
    ghost use Rattle.adb_hub_tables.specs.Marked.{AreGrouped, Holds};

    ghost Value = { Table Block };

    ghost view = { λ a. table a.blocks.entries };

    ghost invariant = { λ a. AreGrouped a.groups.entries a.blocks.entries
        × Holds a.seen a.blocks.entries };
}

impl Marks {
    /// Returns an empty set. Allocates nothing.
    pub(crate) fn new(alloc: Global) -> Marks
        ensures { result.entries ≡ [] }
    {
        Marks {
            blocks: BTreeMap::new(alloc),
            groups: BTreeMap::new(alloc),
            seen: Seen::Nothing,
            spare: None,
        }
    }

    /// Adds a number, with all marks. If an allocation fails, nothing changes.
    pub(crate) fn know(&mut self, number: u32) -> Result<(), AllocError>
        ensures ok { let high = number / 64 in OnOk result (Puts high
            (Some (known (number % 64) (at high self.old.entries)))
            self.old.entries self.new.entries) }
        ensures err { OnErr result (self.new.entries ≡ self.old.entries) }
    {
        let high = number / 64;
        words::know(&mut self.groups, high)?;
        match words::know(&mut self.blocks, number) {
            Ok(()) => {
                self.seen = once_marked(self.seen, number);
                Ok(())
            }
            Err(error) => {
                words::forget(&mut self.groups, high);
                Err(error)
            }
        }
    }

    /// Sets all marks of a number, if it is known. Allocates nothing.
    pub(crate) fn mark(&mut self, number: u32)
        ensures fits { number < 2 ^ 32 }
        ensures block { let high = number / 64 in Puts high
            (option_map (with_mark (number % 64)) (at high self.old.entries))
            self.old.entries self.new.entries }
    {
        if is_marked(self.seen, number) {
            return;
        }
        if mark_grouped(&mut self.groups, &mut self.blocks, number) {
            self.seen = once_marked(self.seen, number);
        }
    }

    /// Removes a mark of a number. Allocates nothing.
    pub(crate) fn unmark(&mut self, which: Kind, number: u32)
        ensures fits { number < 2 ^ 32 }
        ensures block { let high = number / 64 in Puts high
            (option_map (without_mark which (number % 64)) (at high self.old.entries))
            self.old.entries self.new.entries }
        ensures falls { mark which self.old.entries number ≡ 1
            → weight which self.new.entries < weight which self.old.entries }
    {
        self.seen = once_unmarked(self.seen, which, number);
        words::unmark(&mut self.blocks, which, number);
    }

    /// Removes a number and its marks. A block without known numbers is freed when another one is
    /// left so. Allocates nothing.
    pub(crate) fn forget(&mut self, number: u32)
        ensures fits { number < 2 ^ 32 }
        ensures forgets { Forgets number self.old.entries self.new.entries }
    {
        self.seen = once_forgotten(self.seen, number);
        if words::forget_in(&mut self.blocks, number) {
            let before = mem::replace(&mut self.spare, Some(number / 64));
            drop_empty(&mut self.groups, &mut self.blocks, before, number / 64);
        }
    }

    /// Removes all numbers.
    pub(crate) fn clear(&mut self)
        ensures { self.new.entries ≡ [] }
    {
        self.seen = Seen::Nothing;
        self.spare = None;
        self.blocks.clear();
        self.groups.clear();
    }

    /// Removes all blocks but that of one number.
    pub(crate) fn keep_only(&mut self, number: u32)
        ensures { let high = number / 64 in
            self.new.entries ≡ filter (λ block. nat_eq block.0 high) self.old.entries }
    {
        self.seen = Seen::Nothing;
        self.spare = None;
        words::keep_only(&mut self.blocks, number);
        words::keep_only(&mut self.groups, number / 64);
    }

    /// Returns the least number that has a mark. Allocates nothing.
    pub(crate) fn first(&mut self, which: Kind) -> Option<u32>
        requires { AreBlocks self.old.entries }
        ensures first { result ≡ first_mark which self.old.entries }
        ensures rises { IsRising self.old.entries }
        ensures same { self.new ≡ self.old }
    {
        if self.blocks.len() == 0 {
            return None;
        }
        let seen = self.seen;
        match seen {
            Seen::Lack(kind) if kind == which => return None,
            Seen::Alone(kind, number) if kind == which => return Some(number),
            _ => {}
        }
        while let Some(high) = words::first(&self.groups, which) {
            if let Some(number) = words::first_in(&self.blocks, which, high) {
                return Some(number);
            }
            words::unmark(&mut self.groups, which, high);
        }
        self.seen = Seen::Lack(which);
        None
    }
}

/// Sets all marks of a number, if it is known, and those of its block among the groups. Returns
/// whether the number is known.
fn mark_grouped(groups: &mut Words, blocks: &mut Words, number: u32) -> bool
    requires { AreGrouped groups.old.entries blocks.old.entries }
    ensures fits { number < 2 ^ 32 }
    ensures block { let high = number / 64 in Puts high
        (option_map (with_mark (number % 64)) (at high blocks.old.entries))
        blocks.old.entries blocks.new.entries }
    ensures grouped { AreGrouped groups.new.entries blocks.new.entries }
    ensures known { result ≡ true → place blocks.new.entries number ≡ 1 }
    ensures unknown { result ≡ false → (k : ℕ)
        → at k blocks.new.entries ≡ at k blocks.old.entries }
{
    let Some(lacked) = words::mark(blocks, number) else {
        return false;
    };
    if lacked {
        words::mark(groups, number / 64);
    }
    true
}

/// Frees a block without known numbers, unless it is the block `but`.
fn drop_empty(groups: &mut Words, blocks: &mut Words, before: Option<u32>, but: u32)
    requires { AreGrouped groups.old.entries blocks.old.entries }
    ensures thins { Thins blocks.old.entries blocks.new.entries }
    ensures grouped { AreGrouped groups.new.entries blocks.new.entries }
{
    let Some(high) = before else {
        return;
    };
    if high != but && words::is_empty(blocks, high) {
        drop_block(groups, blocks, high);
    }
}

/// Frees a block without known numbers.
fn drop_block(groups: &mut Words, blocks: &mut Words, high: u32)
    requires grouped { AreGrouped groups.old.entries blocks.old.entries }
    requires empty { is_empty (at high blocks.old.entries) ≡ true }
    ensures thins { Thins blocks.old.entries blocks.new.entries }
    ensures grouped { AreGrouped groups.new.entries blocks.new.entries }
{
    words::remove(blocks, high);
    words::forget(groups, high);
}

/// Returns the mark that no number other than this one has, if the cache shows one.
fn lacking(seen: Seen, number: u32) -> Option<Kind>
    ensures { (blocks : List (ℕ × Block)) → Holds seen blocks
        → IfSome result (λ which. LacksBut which number blocks) }
{
    match seen {
        Seen::Lack(kind) => Some(kind),
        Seen::Alone(kind, alone) if alone == number => Some(kind),
        _ => None,
    }
}

/// Returns the cache after a number got all marks.
fn once_marked(seen: Seen, number: u32) -> Seen
    ensures { (blocks others : List (ℕ × Block)) → Holds seen blocks
        → IsMarkedIn number blocks others → Holds result others }
{
    match lacking(seen, number) {
        Some(kind) => Seen::Alone(kind, number),
        None => Seen::Marked(number),
    }
}

/// Returns the cache after a number lost a mark.
fn once_unmarked(seen: Seen, which: Kind, number: u32) -> Seen
    ensures { (blocks others : List (ℕ × Block)) → Holds seen blocks
        → Unmarks which number blocks others → Holds result others }
{
    match lacking(seen, number) {
        Some(kind) if kind == which => Seen::Lack(kind),
        _ => Seen::Nothing,
    }
}

/// Returns the cache after a number lost all marks.
fn once_forgotten(seen: Seen, number: u32) -> Seen
    ensures { (blocks others : List (ℕ × Block)) → Holds seen blocks
        → ((which : Kind) → Unmarks which number blocks others) → Holds result others }
{
    match lacking(seen, number) {
        Some(kind) => Seen::Lack(kind),
        None => Seen::Nothing,
    }
}

/// Returns whether the cache shows that a number has all marks, if it is known.
fn is_marked(seen: Seen, number: u32) -> bool
    ensures { result ≡ true → (blocks : List (ℕ × Block)) → Holds seen blocks
        → Holds (Seen.Marked number) blocks }
{
    match seen {
        Seen::Marked(marked) | Seen::Alone(_, marked) => marked == number,
        _ => false,
    }
}

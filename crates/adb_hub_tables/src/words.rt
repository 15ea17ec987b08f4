//! Blocks of 64 numbers, with two words of marks.

ghost use Rattle.std.specs.Prelude.{◌≡◌, ◌≢◌, ◌/◌, ◌%◌, ◌<◌, ◌^◌, ℕ, Some, None, OnErr, OnOk, IfNone, IfSome, eqb, false, filter, nat_eq, option_map};
ghost use Rattle.std.specs.Option.{option_map_or};
ghost use Rattle.adb_outside.specs.Tables.{at, IsRising, Puts};
ghost use Rattle.adb_hub_tables.specs.Marked.{AreBlocks, IsKnownIn, first_at, lacks_marks, marks_of, place_bit, with_mark, with_place, without_mark, without_place, forgotten, first_mark, is_empty, known, mark, new_block, weight};

use std::alloc::AllocError;
use std::collections::BTreeMap;

/// The kind of a mark.
#[derive(Clone, Copy, PartialEq, Drop)]
pub(crate) enum Kind {
    /// The number's row may have output to hand out.
    Due,
    /// The number is to be named.
    News,
}

/// The known and the marked ones of a block's 64 numbers, as bits.
#[derive(Clone, Copy, Drop)]
pub(crate) struct Block {
    places: u64,
    due: u64,
    news: u64,
}

impl Block {
    /// Returns a block in which one number is known, with all marks.
    fn new(i: u32) -> Block
        requires { i < 64 }
        ensures { result ≡ new_block i }
    {
        let bit = 1u64 << i;
        Block {
            places: bit,
            due: bit,
            news: bit,
        }
    }

    /// Adds a number, with all marks.
    fn know(&mut self, i: u32)
        requires { i < 64 }
        ensures { self.new ≡ with_place i self.old }
    {
        let bit = 1u64 << i;
        self.places |= bit;
        self.due |= bit;
        self.news |= bit;
    }

    /// Sets all marks of a number. Returns whether a word of marks was empty before; `None` if the
    /// number is not known.
    fn mark(&mut self, i: u32) -> Option<bool>
        requires { i < 64 }
        ensures lacked { IfSome result (λ lacked. lacked ≡ lacks_marks self.old) }
        ensures known { IfSome result (λ lacked. place_bit i self.old ≢ 0) }
        ensures unknown { IfNone result (self.new ≡ self.old) }
        ensures block { self.new ≡ with_mark i self.old }
    {
        let bit = self.places & (1u64 << i);
        if bit == 0 {
            return None;
        }
        let lacked = self.due == 0 || self.news == 0;
        self.due |= bit;
        self.news |= bit;
        Some(lacked)
    }

    /// Removes a mark of a number.
    fn unmark(&mut self, which: Kind, i: u32)
        requires { i < 64 }
        ensures { self.new ≡ without_mark which i self.old }
    {
        let others = !(1u64 << i);
        match which {
            Kind::Due => self.due &= others,
            Kind::News => self.news &= others,
        }
    }

    /// Removes a number and its marks. Returns whether none is known afterwards.
    fn forget(&mut self, i: u32) -> bool
        requires { i < 64 }
        ensures empty { result ≡ eqb self.new.places 0 }
        ensures block { self.new ≡ without_place i self.old }
    {
        let others = !(1u64 << i);
        self.places &= others;
        self.due &= others;
        self.news &= others;
        self.places == 0
    }

    /// Returns a word of marks.
    fn marks(&self, which: Kind) -> u64
        ensures { result ≡ marks_of which self.now }
    {
        match which {
            Kind::Due => self.due,
            Kind::News => self.news,
        }
    }
}

/// Numbers, some of which are marked. They are kept in blocks, so that marking a known number
/// allocates nothing.
pub(crate) type Words = BTreeMap<u32, Block>;

/// Adds a number, with all marks. If an allocation fails, nothing changes.
pub(crate) fn know(marks: &mut Words, number: u32) -> Result<(), AllocError>
    ensures ok { let high = number / 64 in OnOk result (Puts high
        (Some (known (number % 64) (at high marks.old.entries)))
        marks.old.entries marks.new.entries) }
    ensures absent { OnErr result (at (number / 64) marks.old.entries ≡ None) }
    ensures err { OnErr result (marks.new.entries ≡ marks.old.entries) }
{
    if let Some(block) = marks.get_mut(&(number / 64)) {
        block.know(number % 64);
        return Ok(());
    }
    marks.insert(number / 64, Block::new(number % 64))?;
    Ok(())
}

/// Sets all marks of a number. Returns whether a word of marks of its block was empty before;
/// `None` if the number is not known. Allocates nothing.
pub(crate) fn mark(marks: &mut Words, number: u32) -> Option<bool>
    ensures fits { number < 2 ^ 32 }
    ensures lacked { IfSome result (λ lacked.
        lacked ≡ option_map_or lacks_marks (at (number / 64) marks.old.entries) false) }
    ensures known { IfSome result (λ lacked.
        IsKnownIn (at (number / 64) marks.old.entries) (number % 64)) }
    ensures unknown { IfNone result ((k : ℕ)
        → at k marks.new.entries ≡ at k marks.old.entries) }
    ensures block { let high = number / 64 in Puts high
        (option_map (with_mark (number % 64)) (at high marks.old.entries))
        marks.old.entries marks.new.entries }
{
    match marks.get_mut(&(number / 64)) {
        Some(block) => block.mark(number % 64),
        None => None,
    }
}

/// Removes a mark of a number. Allocates nothing.
pub(crate) fn unmark(marks: &mut Words, which: Kind, number: u32)
    ensures fits { number < 2 ^ 32 }
    ensures block { let high = number / 64 in Puts high
        (option_map (without_mark which (number % 64)) (at high marks.old.entries))
        marks.old.entries marks.new.entries }
    ensures falls { mark which marks.old.entries number ≡ 1
        → weight which marks.new.entries < weight which marks.old.entries }
{
    if let Some(block) = marks.get_mut(&(number / 64)) {
        block.unmark(which, number % 64);
    }
}

/// Removes a number and its marks, and the block if none of its numbers is known then. Allocates
/// nothing.
pub(crate) fn forget(marks: &mut Words, number: u32)
    ensures fits { number < 2 ^ 32 }
    ensures block { let high = number / 64 in Puts high
        (forgotten (number % 64) (at high marks.old.entries))
        marks.old.entries marks.new.entries }
{
    if forget_in(marks, number) {
        marks.remove(&(number / 64));
    }
}

/// Removes a number and its marks. Returns whether no number of its block is known then. Allocates
/// nothing.
pub(crate) fn forget_in(marks: &mut Words, number: u32) -> bool
    ensures block { let high = number / 64 in Puts high
        (option_map (without_place (number % 64)) (at high marks.old.entries))
        marks.old.entries marks.new.entries }
    ensures fits { number < 2 ^ 32 }
    ensures empty { result ≡ is_empty (at (number / 64) marks.new.entries) }
{
    match marks.get_mut(&(number / 64)) {
        Some(block) => block.forget(number % 64),
        None => false,
    }
}

/// Removes a block. Allocates nothing.
pub(crate) fn remove(marks: &mut Words, high: u32)
    ensures { Puts high None marks.old.entries marks.new.entries }
{
    marks.remove(&high);
}

/// Returns whether there is a block without known numbers.
pub(crate) fn is_empty(marks: &Words, high: u32) -> bool
    ensures { result ≡ is_empty (at high marks.now.entries) }
{
    match marks.get(&high) {
        Some(block) => block.places == 0,
        None => false,
    }
}

/// Removes all blocks but that of one number.
pub(crate) fn keep_only(marks: &mut Words, number: u32)
    ensures { let high = number / 64 in
        marks.new.entries ≡ filter (λ block. nat_eq block.0 high) marks.old.entries }
{
    marks.retain(|high, _| *high == number / 64);
}

/// Returns the least number that has a mark.
pub(crate) fn first(marks: &Words, which: Kind) -> Option<u32>
    requires { AreBlocks marks.now.entries }
    ensures first { result ≡ first_mark which marks.now.entries }
    ensures rises { IsRising marks.now.entries }
{
    for (high, block) in marks.iter() {
        let word = block.marks(which);
        if word != 0 {
            return Some(*high * 64 + word.trailing_zeros());
        }
    }
    None
}

/// Returns the least number that has a mark in a block.
pub(crate) fn first_in(marks: &Words, which: Kind, high: u32) -> Option<u32>
    requires { AreBlocks marks.now.entries }
    ensures { result ≡ first_at which high (at high marks.now.entries) }
{
    let word = marks.get(&high)?.marks(which);
    if word == 0 {
        return None;
    }
    Some(high * 64 + word.trailing_zeros())
}

//! Slots by rising number, and a count of those that have a row.

ghost use Rattle.std.specs.Prelude.{◌≡◌, ◌<◌, [], length, filter, nat_eq, None, Some, IfOk, MatchOption, OnErr, OnOk};
ghost use Rattle.std.specs.Option.{option_copied, option_copied_mut};
ghost use Rattle.std.specs.Borrow.{sem};
ghost use Rattle.adb_outside.specs.Tables.{at, Puts};
ghost use Rattle.adb_rows.specs.Lending.{LendsAt};
ghost use Rattle.adb_rows.specs.Slots.{IsSound, FitsAt, HasRowAt, StandsAt, row_at, rows_of, with_row_at};

use crate::slots::{Slot, count, drop_empty, find, held, keep_only, place_of, row_of};
use std::alloc::{AllocError, Global};
use std::mem;

/// Slots without a row are dropped once half of all slots are more than the rows and this number.
const SPARE: usize = 32;

/// Slots by rising number. A removed row leaves its slot. Slots without a row are dropped once half
/// of all slots are more than the rows and `SPARE`.
#[derive(Drop)]
pub(crate) struct Shelf<V> {
    pub slots: Vec<Slot<V>>,
    /// The number of slots that have a row.
    pub live: usize,
    /// The place that was found last. It is only a hint of where to look first.
    pub last: usize,
}

impl<V> Shelf<V> {
    /// Returns a shelf without slots. Allocates nothing.
    pub(crate) fn new(alloc: Global) -> Shelf<V>
        ensures empty { result.slots.items ≡ [] }
        ensures sound { IsSound result }
    {
        Shelf {
            slots: Vec::new(alloc),
            live: 0,
            last: 0,
        }
    }

    /// Returns the row of a number.
    pub(crate) fn get(&self, number: u32) -> Option<&V>
        requires { IsSound self.now }
        ensures { option_copied result ≡ at number (rows_of self.now.slots.items) }
    {
        row_of(self.slots.as_slice(), self.last, number)
    }

    /// Returns the place of a number that has a row, and remembers the place.
    pub(crate) fn seek(&mut self, number: u32) -> Option<usize>
        requires { IsSound self.old }
        ensures place { MatchOption result (at number (rows_of self.old.slots.items) ≡ None)
            (HasRowAt number self.old.slots.items) }
        ensures slots { self.new.slots ≡ self.old.slots }
        ensures live { self.new.live ≡ self.old.live }
    {
        let place = place_of(self.slots.as_slice(), self.last, number)?;
        self.last = place;
        Some(place)
    }

    /// Returns the row at a place for writing.
    pub(crate) fn lend(&mut self, place: usize) -> Option<&mut V>
        requires { place < length self.old.slots.items }
        ensures* writes_back { sem 𝓛 (LendsAt V.row self.entry place result) }
        ensures value { option_copied_mut result ≡ row_at place self.old.slots.items }
    {
        self.slots[place].row.as_mut()
    }
}

impl<V: Drop> Shelf<V> {
    /// Inserts a row under a number and returns the row that it replaces. If an allocation fails,
    /// the rows are unchanged and the new row is dropped.
    pub(crate) fn insert(&mut self, number: u32, row: V) -> Result<Option<V>, AllocError>
        requires { IsSound self.old }
        ensures sound { IsSound self.new }
        ensures old { IfOk result (λ old. old ≡ at number (rows_of self.old.slots.items)) }
        ensures puts { OnOk result (Puts number (Some row)
            (rows_of self.old.slots.items) (rows_of self.new.slots.items)) }
        ensures absent { OnErr result (at number (rows_of self.old.slots.items) ≡ None) }
        ensures err { OnErr result (self.new.slots.items ≡ self.old.slots.items) }
    {
        match find(self.slots.as_slice(), self.last, number) {
            Ok(place) => Ok(self.swap(number, place, Some(row))),
            Err(place) => self.add(number, place, row),
        }
    }

    /// Removes the row of a number and returns it.
    pub(crate) fn remove(&mut self, number: u32) -> Option<V>
        requires { IsSound self.old }
        ensures sound { IsSound self.new }
        ensures value { result ≡ at number (rows_of self.old.slots.items) }
        ensures puts { Puts number None
            (rows_of self.old.slots.items) (rows_of self.new.slots.items) }
    {
        let place = self.seek(number)?;
        let row = self.swap(number, place, None);
        self.thin_out();
        row
    }

    /// Replaces the row in the slot of a number, which may be none, and returns the old one.
    fn swap(&mut self, number: u32, place: usize, row: Option<V>) -> Option<V>
        requires sound { IsSound self.old }
        requires place { StandsAt number self.old.slots.items place }
        ensures sound { IsSound self.new }
        ensures old { result ≡ at number (rows_of self.old.slots.items) }
        ensures puts { Puts number row
            (rows_of self.old.slots.items) (rows_of self.new.slots.items) }
    {
        self.last = place;
        self.live += held(&row);
        let old = put_in(&mut self.slots, place, row);
        self.live -= held(&old);
        old
    }

    /// Adds a slot with a row for a number that has no slot. If an allocation fails, no slot is
    /// added.
    fn add(&mut self, number: u32, place: usize, row: V) -> Result<Option<V>, AllocError>
        requires sound { IsSound self.old }
        requires place { FitsAt number self.old.slots.items place }
        ensures sound { IsSound self.new }
        ensures old { IfOk result (λ old. old ≡ None) }
        ensures absent { at number (rows_of self.old.slots.items) ≡ None }
        ensures puts { OnOk result (Puts number (Some row)
            (rows_of self.old.slots.items) (rows_of self.new.slots.items)) }
        ensures err { OnErr result (self.new.slots.items ≡ self.old.slots.items) }
    {
        let row = Some(row);
        self.slots.insert(place, Slot { number, row })?;
        self.last = place;
        self.live += 1;
        Ok(None)
    }

    /// Drops the slots without a row if half of all slots are more than the rows and `SPARE`.
    fn thin_out(&mut self)
        requires { IsSound self.old }
        ensures sound { IsSound self.new }
        ensures rows { rows_of self.new.slots.items ≡ rows_of self.old.slots.items }
    {
        if self.slots.len() / 2 > self.live + SPARE {
            drop_empty(&mut self.slots);
        }
    }

    /// Removes all rows.
    pub(crate) fn clear(&mut self)
        ensures empty { self.new.slots.items ≡ [] }
        ensures sound { IsSound self.new }
    {
        self.slots.clear();
        self.slots.shrink_to_fit();
        self.live = 0;
    }

    /// Removes all rows but that of one number.
    pub(crate) fn keep_only(&mut self, number: u32)
        requires { IsSound self.old }
        ensures sound { IsSound self.new }
        ensures rows { rows_of self.new.slots.items
            ≡ filter (λ row. nat_eq row.0 number) (rows_of self.old.slots.items) }
    {
        keep_only(&mut self.slots, number);
        self.live = count(self.slots.as_slice());
    }
}

/// Replaces the row in the slot at a place, which may be none, and returns the old one.
fn put_in<V>(slots: &mut Vec<Slot<V>>, place: usize, row: Option<V>) -> Option<V>
    requires { place < length slots.old.items }
    ensures old { result ≡ row_at place slots.old.items }
    ensures slots { slots.new.items ≡ with_row_at place row slots.old.items }
{
    mem::replace(&mut slots[place].row, row)
}

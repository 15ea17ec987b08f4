//! A map for keys that are numbers drawn in order.

ghost use Rattle.std.specs.Prelude.{◌≡◌, ◌^◌, ◌<◌, [], length, Some, None, filter, nat_eq, is_some, IfOk, OnOk, OnErr};
ghost use Rattle.std.specs.Option.{option_copied, option_copied_mut};
ghost use Rattle.std.specs.Ordering.{nat_cmp};
ghost use Rattle.std.specs.Borrow.{sem};
ghost use Rattle.adb_outside.specs.Tables.{at, put_at, without, IsRising, Puts};

use crate::shelf::Shelf;
use std::alloc::{AllocError, Global};
use std::marker::Model;

/// Rows under numbers. Contracts see it as std's map of them.
///
/// If numbers are drawn in order, a new row is appended, and rows with numbers close together are
/// found without a search. Otherwise a search takes as many steps as the number of rows has binary
/// digits. At most as many slots of removed rows are kept as there are live rows, and a few more.
#[derive(Drop)]
pub struct RowMap<V> {
    shelf: Shelf<V>,
}

impl<V> Model for RowMap<V> {
    ghost use Rattle.adb_rows.specs.Slots.{IsSound, rows_of};
    ghost use Rattle.adb_rows.specs.Table.{Table, table, table_code};

    ghost Value = { Table V };

    ghost coded = { table_code V.code };

    ghost view = { λ m. table (rows_of m.shelf.slots.items) };

    ghost invariant = { λ m. IsSound m.shelf };
}

impl<V> RowMap<V> {
    ghost use Rattle.adb_rows.specs.Lending.{lends_row};

    /// Returns a map without rows. Allocates nothing.
    pub fn new(alloc: Global) -> RowMap<V>
        ensures { result.entries ≡ [] }
    {
        RowMap {
            shelf: Shelf::new(alloc),
        }
    }

    /// Returns the number of rows.
    pub fn len(&self) -> usize
        ensures len { result ≡ length self.now.entries }
        ensures small { result < 2 ^ 63 }
        ensures ordered { IsRising self.now.entries }
    {
        self.shelf.live
    }

    /// Returns the row of a number.
    pub fn get(&self, id: &u32) -> Option<&V>
        ensures value { option_copied result ≡ at id.now self.now.entries }
    {
        self.shelf.get(*id)
    }

    /// Returns whether a number has a row.
    pub fn contains_key(&self, id: &u32) -> bool
        ensures { result ≡ is_some (at id.now self.now.entries) }
    {
        self.get(id).is_some()
    }

    /// Returns the row of a number for writing. Allocates nothing.
    pub fn get_mut(&mut self, id: &u32) -> Option<&mut V>
        ensures* writes_back { sem 𝓛 (lends_row V.row self.entry (nat_cmp id.now) result) }
        ensures value { option_copied_mut result ≡ at id.now self.old.entries }
        ensures ordered { IsRising self.old.entries }
    {
        let Some(place) = self.shelf.seek(*id) else {
            return None;
        };
        self.shelf.lend(place)
    }
}

impl<V: Drop> RowMap<V> {
    /// Inserts a row under a number and returns the row that it replaces. Allocates only if the
    /// number has no row. If an allocation fails, the rows are unchanged and the new row is
    /// dropped.
    pub fn insert(&mut self, id: u32, row: V) -> Result<Option<V>, AllocError>
        ensures old { IfOk result (λ old. old ≡ at id self.old.entries) }
        ensures puts { OnOk result (Puts id (Some row) self.old.entries self.new.entries) }
        ensures entries { OnOk result (self.new.entries ≡ put_at id row self.old.entries) }
        ensures absent { OnErr result (at id self.old.entries ≡ None) }
        ensures err { OnErr result (self.new.entries ≡ self.old.entries) }
    {
        self.shelf.insert(id, row)
    }

    /// Removes the row of a number and returns it.
    pub fn remove(&mut self, id: &u32) -> Option<V>
        ensures value { result ≡ at id.now self.old.entries }
        ensures puts { Puts id.now None self.old.entries self.new.entries }
        ensures entries { self.new.entries ≡ without id.now self.old.entries }
    {
        self.shelf.remove(*id)
    }

    /// Removes all rows.
    pub fn clear(&mut self)
        ensures { self.new.entries ≡ [] }
    {
        self.shelf.clear();
    }

    /// Removes all rows but that of one number.
    pub fn keep_only(&mut self, id: u32)
        ensures { self.new.entries ≡ filter (λ row. nat_eq row.0 id) self.old.entries }
    {
        self.shelf.keep_only(id);
    }
}

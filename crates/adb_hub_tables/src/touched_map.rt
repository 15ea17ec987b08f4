//! Rows under numbers, with an index of those that may have output to hand out.

ghost use Rattle.std.specs.Prelude.{◌≡◌, ◌^◌, ◌<◌, [], length, Some, None, filter, nat_eq, is_some, IfOk, IfNone, IfSome, OnOk, OnErr};
ghost use Rattle.std.specs.Option.{option_copied, option_copied_mut};
ghost use Rattle.std.specs.Ordering.{nat_cmp};
ghost use Rattle.std.specs.Borrow.{sem};
ghost use Rattle.adb_outside.specs.Tables.{at, put_at, without, IsRising, Puts};
ghost use Rattle.adb_hub_tables.specs.First.{first_number, owes_at};
ghost use Rattle.adb_hub_tables.specs.Marked.{AreBlocks, Loses, Names, first_mark};
ghost use Rattle.adb_hub_tables.specs.declared.words.Kind.TheVariants.{News};

use crate::marks::Marks;
use crate::owes::Owes;
use crate::words::Kind;
use adb_rows::RowMap;
use std::alloc::{AllocError, Global};
use std::marker::Model;

/// Rows under numbers. Contracts see it as std's map of them. A row is touched when it is lent or
/// inserted. A row that was not touched since it was last seen with an empty output queue still has
/// an empty one, so the least row with output is searched among the touched rows only.
///
/// The map also knows which of the touched numbers were not named by `next_touched` since. The
/// number of a removed row is kept for that purpose only after the first call of `next_touched`, so
/// removed rows cost nothing if it is never called.
#[derive(Drop)]
pub struct TouchedMap<V: Owes> {
    rows: RowMap<V>,
    marks: Marks,
    /// Whether `next_touched` was ever called.
    watched: bool,
}

impl<V: Owes> Model for TouchedMap<V> {
    ghost use Rattle.adb_hub_tables.specs.TouchedMap.{Table, table, table_code};
    ghost use Rattle.adb_hub_tables.specs.Marked.{IsMarked};
    ghost use Rattle.adb_hub_tables.specs.declared.words.Kind.TheVariants.{Due};

    ghost Value = { Table V };

    ghost coded = { table_code V.code };

    ghost view = { λ a. table a.rows.entries };

    ghost invariant = { λ a. IsMarked Due V.owed a.marks.entries a.rows.entries };
}

impl<V: Owes> TouchedMap<V> {
    ghost use Rattle.adb_hub_tables.specs.Lending.{lends_row};

    /// Returns a map without rows. Allocates nothing.
    pub fn new(alloc: Global) -> TouchedMap<V>
        ensures empty { result.entries ≡ [] }
    {
        TouchedMap {
            rows: RowMap::new(alloc),
            marks: Marks::new(alloc),
            watched: false,
        }
    }

    /// Returns the number of rows.
    pub fn len(&self) -> usize
        ensures len { result ≡ length self.now.entries }
        ensures small { result < 2 ^ 63 }
        ensures ordered { IsRising self.now.entries }
    {
        self.rows.len()
    }

    /// Returns the row of a number.
    pub fn get(&self, id: &u32) -> Option<&V>
        ensures value { option_copied result ≡ at id.now self.now.entries }
    {
        self.rows.get(id)
    }

    /// Returns whether a number has a row.
    pub fn contains_key(&self, id: &u32) -> bool
        ensures { result ≡ is_some (at id.now self.now.entries) }
    {
        self.rows.contains_key(id)
    }

    /// Returns the row of a number for writing. Allocates nothing.
    pub fn get_mut(&mut self, id: &u32) -> Option<&mut V>
        ensures* writes_back { sem 𝓛 (lends_row V.row V.Owes self.entry (nat_cmp id.now) result) }
        ensures value { option_copied_mut result ≡ at id.now self.old.entries }
        ensures ordered { IsRising self.old.entries }
    {
        self.marks.mark(*id);
        self.rows.get_mut(id)
    }

    /// Returns the least number of a row with output to hand out. Allocates nothing. Looks only at
    /// rows that were lent since they were last seen with an empty output queue.
    pub fn first_owed(&mut self) -> Option<u32>
        ensures first { result ≡ first_number V.owed self.old.entries }
        ensures rises { IsRising self.old.entries }
        ensures same { self.new ≡ self.old }
    {
        if self.rows.len() == 0 {
            return None;
        }
        while let Some(id) = self.marks.first(Kind::Due) {
            if is_owed(&self.rows, id) {
                return Some(id);
            }
            self.marks.unmark(Kind::Due, id);
        }
        None
    }
}

impl<V: Owes + Drop> TouchedMap<V> {
    /// Returns the least number of a row that was lent, inserted or removed, and that was not
    /// returned since. Rows that were removed before the first call are not returned, and those
    /// that `clear` or `keep_only` removed need not be. Allocates nothing. Looks only at the row of
    /// the number that it returns.
    pub fn next_touched(&mut self) -> Option<u32>
        ensures same { self.new ≡ self.old }
    {
        self.watched = true;
        name_first(&self.rows, &mut self.marks)
    }

    /// Inserts a row under a number and returns the row that it replaces. If an allocation fails,
    /// the rows are unchanged, and the new row is dropped.
    pub fn insert(&mut self, id: u32, row: V) -> Result<Option<V>, AllocError>
        ensures old { IfOk result (λ old. old ≡ at id self.old.entries) }
        ensures puts { OnOk result (Puts id (Some row) self.old.entries self.new.entries) }
        ensures entries { OnOk result (self.new.entries ≡ put_at id row self.old.entries) }
        ensures err { OnErr result (self.new.entries ≡ self.old.entries) }
    {
        self.marks.know(id)?;
        match put_row(&mut self.rows, id, row) {
            Ok(old) => Ok(old),
            Err(error) => {
                self.marks.forget(id);
                Err(error)
            }
        }
    }

    /// Removes the row of a number and returns it.
    pub fn remove(&mut self, id: &u32) -> Option<V>
        ensures value { result ≡ at id.now self.old.entries }
        ensures puts { Puts id.now None self.old.entries self.new.entries }
        ensures entries { self.new.entries ≡ without id.now self.old.entries }
    {
        let row = take_row(&mut self.rows, *id);
        leave(&mut self.marks, self.watched, *id);
        row
    }

    /// Removes all rows.
    pub fn clear(&mut self)
        ensures empty { self.new.entries ≡ [] }
    {
        self.rows.clear();
        self.marks.clear();
    }

    /// Removes all rows but that of one number.
    pub fn keep_only(&mut self, id: u32)
        ensures { self.new.entries ≡ filter (λ row. nat_eq row.0 id) self.old.entries }
    {
        keep_row(&mut self.rows, id);
        self.marks.keep_only(id);
    }
}

/// Returns whether a number has a row with output to hand out.
fn is_owed<V: Owes>(rows: &RowMap<V>, id: u32) -> bool
    ensures { result ≡ owes_at V.owed id rows.now.entries }
{
    match rows.get(&id) {
        Some(row) => row.owes(),
        None => false,
    }
}

/// Returns the least number with a `News` mark, and removes the mark. If the number has no row, it
/// is forgotten.
fn name_first<V>(rows: &RowMap<V>, marks: &mut Marks) -> Option<u32>
    requires { AreBlocks marks.old.entries }
    ensures first { result ≡ first_mark News marks.old.entries }
    ensures fits { IfSome result (λ id. id < 2 ^ 32) }
    ensures nobody { IfNone result (marks.new.entries ≡ marks.old.entries) }
    ensures named { IfSome result (λ id. Names (is_some (at id rows.now.entries)) id
        marks.old.entries marks.new.entries) }
{
    let id = marks.first(Kind::News)?;
    if rows.contains_key(&id) {
        marks.unmark(Kind::News, id);
    } else {
        marks.forget(id);
    }
    Some(id)
}

/// Keeps the number of a removed row for `next_touched` if `watched` is set, and forgets it
/// otherwise.
fn leave(marks: &mut Marks, watched: bool, id: u32)
    ensures fits { id < 2 ^ 32 }
    ensures left { Loses watched id marks.old.entries marks.new.entries }
{
    if watched {
        marks.mark(id);
    } else {
        marks.forget(id);
    }
}

/// Inserts a row under a number, in place of the one there.
fn put_row<V: Drop>(rows: &mut RowMap<V>, id: u32, row: V) -> Result<Option<V>, AllocError>
    ensures old { IfOk result (λ old. old ≡ at id rows.old.entries) }
    ensures puts { OnOk result (Puts id (Some row) rows.old.entries rows.new.entries) }
    ensures entries { OnOk result (rows.new.entries ≡ put_at id row rows.old.entries) }
    ensures absent { OnErr result (at id rows.old.entries ≡ None) }
    ensures err { OnErr result (rows.new.entries ≡ rows.old.entries) }
{
    let old = rows.insert(id, row)?;
    Ok(old)
}

/// Removes the row of a number.
fn take_row<V: Drop>(rows: &mut RowMap<V>, id: u32) -> Option<V>
    ensures value { result ≡ at id rows.old.entries }
    ensures puts { Puts id None rows.old.entries rows.new.entries }
    ensures entries { rows.new.entries ≡ without id rows.old.entries }
{
    rows.remove(&id)
}

/// Removes all of these rows but one.
fn keep_row<V: Drop>(rows: &mut RowMap<V>, id: u32)
    ensures { rows.new.entries ≡ filter (λ row. nat_eq row.0 id) rows.old.entries }
{
    rows.keep_only(id);
}

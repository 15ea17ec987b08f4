//! Slots in rising order of their numbers.

ghost use Rattle.std.specs.Prelude.{◌≡◌, true, length, filter, nat_eq, None, MatchOption, MatchResult};
ghost use Rattle.std.specs.Option.{option_copied};
ghost use Rattle.adb_outside.specs.Tables.{at};
ghost use Rattle.adb_rows.specs.Slots.{FitsAt, HasRowAt, RisesFrom, StandsAt, count_of, rows_of};

/// A number with its row, or without one if the row was removed.
#[derive(Drop)]
pub(crate) struct Slot<V> {
    pub number: u32,
    pub row: Option<V>,
}

/// Returns the place of a number, or the place where it would be inserted. No search is needed if
/// the number is as far from the number found last as its place is from that number's place, or if
/// it is greater than all others.
pub(crate) fn find<V>(slots: &[Slot<V>], last: usize, number: u32) -> Result<usize, usize>
    requires { RisesFrom 0 slots.now }
    ensures { MatchResult result (StandsAt number slots.now) (FitsAt number slots.now) }
{
    let near = guess(slots, last, number);
    if stands_at(slots, near, number) {
        return Ok(near);
    }
    if is_behind(slots, number) {
        return Err(slots.len());
    }
    search(slots, number)
}

/// Returns whether the slot at a place has this number.
fn stands_at<V>(slots: &[Slot<V>], place: usize, number: u32) -> bool
    ensures { result ≡ true → StandsAt number slots.now place }
{
    match slots.get(place) {
        Some(slot) => slot.number == number,
        None => false,
    }
}

/// Returns whether there are slots and the number is greater than all of theirs.
fn is_behind<V>(slots: &[Slot<V>], number: u32) -> bool
    requires { RisesFrom 0 slots.now }
    ensures { result ≡ true → FitsAt number slots.now (length slots.now) }
{
    match slots.last() {
        Some(slot) => slot.number < number,
        None => false,
    }
}

/// Searches for the place of a number, or the place where it would be inserted.
fn search<V>(slots: &[Slot<V>], number: u32) -> Result<usize, usize>
    requires { RisesFrom 0 slots.now }
    ensures { MatchResult result (StandsAt number slots.now) (FitsAt number slots.now) }
{
    slots.binary_search_by_key(&number, |slot| slot.number)
}

/// Returns the place of a number if every number has a slot from that at `place` on.
fn guess<V>(slots: &[Slot<V>], place: usize, number: u32) -> usize {
    match slots.get(place) {
        Some(slot) => place
            .wrapping_add(number as usize)
            .wrapping_sub(slot.number as usize),
        None => place,
    }
}

/// Returns the place of a number that has a row.
pub(crate) fn place_of<V>(slots: &[Slot<V>], last: usize, number: u32) -> Option<usize>
    requires { RisesFrom 0 slots.now }
    ensures { MatchOption result (at number (rows_of slots.now) ≡ None)
        (HasRowAt number slots.now) }
{
    let Ok(place) = find(slots, last, number) else {
        return None;
    };
    if slots[place].row.is_none() {
        return None;
    }
    Some(place)
}

/// Returns the row of a number.
pub(crate) fn row_of<V>(slots: &[Slot<V>], last: usize, number: u32) -> Option<&V>
    requires { RisesFrom 0 slots.now }
    ensures { option_copied result ≡ at number (rows_of slots.now) }
{
    let place = place_of(slots, last, number)?;
    slots[place].row.as_ref()
}

/// Returns how many slots have a row.
pub(crate) fn count<V>(slots: &[Slot<V>]) -> usize
    ensures { result ≡ length (rows_of slots.now) }
{
    let mut rows = 0;
    for slot in slots {
        rows += held(&slot.row);
    }
    rows
}

/// Returns 1 for a row, and 0 for none.
pub(crate) fn held<V>(row: &Option<V>) -> usize
    ensures { result ≡ count_of row.now }
{
    match row {
        Some(_) => 1,
        None => 0,
    }
}

/// Drops the slots without a row, and frees their memory.
pub(crate) fn drop_empty<V: Drop>(slots: &mut Vec<Slot<V>>)
    requires { RisesFrom 0 slots.old.items }
    ensures rows { rows_of slots.new.items ≡ rows_of slots.old.items }
    ensures rises { RisesFrom 0 slots.new.items }
{
    slots.retain(|slot| slot.row.is_some());
    slots.shrink_to_fit();
}

/// Drops all slots but that of one number, and frees their memory.
pub(crate) fn keep_only<V: Drop>(slots: &mut Vec<Slot<V>>, number: u32)
    requires { RisesFrom 0 slots.old.items }
    ensures rows { rows_of slots.new.items
        ≡ filter (λ row. nat_eq row.0 number) (rows_of slots.old.items) }
    ensures rises { RisesFrom 0 slots.new.items }
{
    slots.retain(|slot| slot.number == number);
    slots.shrink_to_fit();
}

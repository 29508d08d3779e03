//! A cell of a store in the first of its states.
ghost use Rattle.std.specs.Prelude.{◌≡◌, length};
ghost use lib.Pointwise.{pointwise};
ghost use Rattle.terms.specs.Datum.{items_of};
ghost use Rattle.terms.specs.Same.{same};
ghost use Rattle.undo_records.specs.Traced.{first_value, written_in};
ghost use Rattle.undo_records.specs.Places.{whole_before, whole_earliest, part, part_before, part_earliest};

use crate::change::Change;
use std::collections::VecDeque;
use terms::Value;

/// A cell of a store.
#[derive(Clone, Copy)]
pub(crate) struct Traced<'a> {
    pub cell: usize,
    pub current: &'a Value,
    // What was written since the newest mark; nothing where there is no mark.
    pub newest: &'a Vec<Change>,
    // The same for the older marks, the newest first.
    pub older: &'a VecDeque<Vec<Change>>,
}

/// Whether two cells have the same value in the first states of their stores.
pub(crate) fn is_same_first(a: Traced, b: Traced) -> bool
    ensures { result ≡ same (first_value a.entry) (first_value b.entry) }
{
    let (first, second) = (first_whole(a), first_whole(b));
    let count = first.items().len();
    if !first.is_list() || !second.is_list() || second.items().len() != count {
        return first == second;
    }
    have_same_parts(a, b, count)
}

// Whether the items of two cells are the same in the first states, where both are lists of so many.
fn have_same_parts(a: Traced, b: Traced, count: usize) -> bool
    ensures { length (items_of (first_value a.entry)) ≡ count
        → length (items_of (first_value b.entry)) ≡ count
        → result ≡ pointwise same (items_of (first_value a.entry))
        (items_of (first_value b.entry)) }
{
    for index in 0..count {
        if first_part(a, index) != first_part(b, index) {
            return false;
        }
    }
    true
}

// What the oldest change of a cell as a whole replaced.
fn first_whole<'a>(traced: Traced<'a>) -> &'a Value
    ensures { result.now ≡ whole_earliest traced.entry.cell
        (written_in traced.entry) traced.entry.current.now }
{
    let mut value = whole_in(traced.newest.as_slice(), traced.cell, traced.current);
    for changes in traced.older {
        value = whole_in(changes.as_slice(), traced.cell, value);
    }
    value
}

fn whole_in<'a>(changes: &'a [Change], cell: usize, later: &'a Value) -> &'a Value
    ensures { result.now ≡ whole_before cell changes.now later.now }
{
    for change in changes {
        match change {
            Change::Cell(at, old) if *at == cell => return old,
            _ => {}
        }
    }
    later
}

// What the oldest change of an item, or of its whole cell, replaced.
fn first_part<'a>(traced: Traced<'a>, index: usize) -> &'a Value
    ensures { result.now ≡ part_earliest traced.entry.cell index (written_in traced.entry)
        (part index traced.entry.current.now) }
{
    let item = part_of(traced.current, index);
    let mut item = part_in(traced.newest.as_slice(), traced.cell, index, item);
    for changes in traced.older {
        item = part_in(changes.as_slice(), traced.cell, index, item);
    }
    item
}

fn part_in<'a>(changes: &'a [Change], cell: usize, index: usize, later: &'a Value) -> &'a Value
    ensures { result.now ≡ part_before cell index changes.now later.now }
{
    for change in changes {
        match change {
            Change::Cell(at, old) if *at == cell => return part_of(old, index),
            Change::Item(at, place, old) if *at == cell && *place == index => return old,
            _ => {}
        }
    }
    later
}

// An item of a value; the value itself where there is none.
fn part_of(value: &Value, index: usize) -> &Value
    ensures { result.now ≡ part index value.now }
{
    match value.items().get(index) {
        Some(item) => item,
        None => value,
    }
}

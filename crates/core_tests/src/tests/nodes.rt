//! Lists of nodes with a cursor, by hand. Every call but the making of a node is made with each request for memory refused.

use super::{assert_all, may_cross};
use Step::{
    Append, Empty, First, Insert, Items, Last, Next, PassAll, PassBack, PassNext, Same, Swap,
    TakeAboveFive, TakeEqual, TakeFirst, TakeLast,
};
use fixtures::memory::{Held, exhaust, room};
use raw_events::{EventCell, EventList};
use std::alloc::Global;
use std::mem::swap;
use std::rc::Rc;

// At every item that may move, or be shared.
fn nodes_may_cross<S: Send, T: Sync>(
    moved: &EventList<S>,
    moved_cell: &EventCell<S>,
    shared: &EventList<T>,
    shared_cell: &EventCell<T>,
) {
    may_cross(moved, shared);
    may_cross(moved_cell, shared_cell);
}

/// What is done with a list and another one, with its answer, or what is seen.
#[derive(Clone, Copy)]
enum Step {
    Insert(u64),
    PassNext(bool),
    PassBack(bool),
    PassAll,
    /// The first item of all is seen.
    First(Option<u64>),
    /// The item before the cursor is seen.
    Last(Option<u64>),
    /// The item after the cursor is seen.
    Next(Option<u64>),
    TakeFirst(Option<u64>),
    TakeLast(Option<u64>),
    /// The first after the cursor that equals a number is taken.
    TakeEqual(u64, Option<u64>),
    /// The first after the cursor that is above 5 is taken.
    TakeAboveFive(Option<u64>),
    /// The four items are gone through.
    Items([u64; 4]),
    Empty,
    /// The other list goes to the end of this one.
    Append,
    /// The two lists change places.
    Swap,
    /// Whether the two lists are equal.
    Same(bool),
}

fn value_of(cell: Option<EventCell<u64>>) -> Option<u64> {
    match cell {
        Some(cell) => Some(cell.into_value()),
        None => None,
    }
}

// A cell of the stock gets this value in the place of its own.
fn insert(stock: &mut EventList<u64>, list: &mut EventList<u64>, value: u64) -> bool {
    match stock.take_first() {
        Some(mut cell) => {
            *cell.value_mut() = value;
            list.insert_sorted(cell);
            true
        }
        None => false,
    }
}

fn has_items(list: &EventList<u64>, wanted: [u64; 4]) -> bool {
    let mut items = list.iter();
    for value in wanted {
        if items.next().copied() != Some(value) {
            return false;
        }
    }
    items.next().is_none()
}

fn does(
    stock: &mut EventList<u64>,
    list: &mut EventList<u64>,
    other: &mut EventList<u64>,
    step: Step,
) -> bool {
    match step {
        Insert(value) => return insert(stock, list, value),
        PassNext(wanted) => return list.pass_next() == wanted,
        PassBack(wanted) => return list.pass_back() == wanted,
        First(wanted) => return list.peek_first().copied() == wanted,
        Last(wanted) => return list.peek_last().copied() == wanted,
        Next(wanted) => return list.peek_next().copied() == wanted,
        TakeFirst(wanted) => return value_of(list.take_first()) == wanted,
        TakeLast(wanted) => return value_of(list.take_last()) == wanted,
        TakeEqual(value, wanted) => return value_of(list.take_equal(&value)) == wanted,
        TakeAboveFive(wanted) => {
            return value_of(list.take_where(|value| *value > 5)) == wanted;
        }
        Items(wanted) => return has_items(list, wanted),
        Empty => return list.peek_first().is_none() && list.iter().next().is_none(),
        Same(wanted) => return (*list == *other) == wanted,
        // the others have no answer
        PassAll => list.pass_all(),
        Append => list.append_all(other),
        Swap => swap(list, other),
    }
    true
}

// How many of the steps come out as they say without memory, up to the first that doesn't.
fn count(
    alloc: Global,
    held: &mut Held,
    stock: &mut EventList<u64>,
    list: &mut EventList<u64>,
    other: &mut EventList<u64>,
    steps: &[Step],
) -> usize {
    for (k, step) in steps.iter().enumerate() {
        if !exhaust(alloc, held) || !does(stock, list, other, *step) {
            return k;
        }
    }
    steps.len()
}

// 1 and 3 before the cursor, 5 and 7 after it.
const ROW: [Step; 29] = [
    Empty,
    Insert(7),
    Insert(5),
    Insert(3),
    Insert(1),
    PassNext(true),
    PassNext(true),
    First(Some(1)),
    Last(Some(3)),
    Next(Some(5)),
    Insert(5),
    TakeEqual(5, Some(5)),
    TakeEqual(6, None),
    TakeEqual(3, None),
    PassBack(true),
    Last(Some(1)),
    Next(Some(3)),
    TakeLast(Some(1)),
    PassBack(false),
    First(Some(3)),
    TakeLast(None),
    TakeFirst(Some(3)),
    First(Some(5)),
    PassAll,
    PassNext(false),
    TakeLast(Some(7)),
    TakeLast(Some(5)),
    TakeLast(None),
    Empty,
];

const CALLS: [Step; 62] = [
    // where there is nothing
    Append,
    PassNext(false),
    PassBack(false),
    TakeFirst(None),
    TakeLast(None),
    TakeEqual(1, None),
    TakeAboveFive(None),
    Next(None),
    Last(None),
    Empty,
    Insert(7),
    Insert(5),
    Insert(3),
    Insert(1),
    // gone through in order, wherever the cursor stands
    PassNext(true),
    PassNext(true),
    Items([1, 3, 5, 7]),
    PassBack(true),
    Items([1, 3, 5, 7]),
    PassBack(true),
    Items([1, 3, 5, 7]),
    // the first that passes a test
    TakeAboveFive(Some(7)),
    Insert(9),
    Insert(7),
    TakeAboveFive(Some(7)),
    TakeAboveFive(Some(9)),
    TakeAboveFive(None),
    Insert(7),
    // equal where both sides are
    Swap,
    Insert(7),
    Insert(5),
    Insert(3),
    Insert(1),
    Same(true),
    PassNext(true),
    Same(false),
    PassNext(true),
    Swap,
    PassNext(true),
    PassNext(true),
    Same(true),
    TakeEqual(7, Some(7)),
    Same(false),
    Insert(7),
    // both sides of the other list go to the end
    Append,
    Swap,
    Next(None),
    Last(None),
    Empty,
    Swap,
    Same(false),
    TakeLast(Some(3)),
    TakeLast(Some(1)),
    TakeLast(None),
    TakeFirst(Some(5)),
    TakeFirst(Some(7)),
    TakeFirst(Some(1)),
    TakeFirst(Some(3)),
    TakeFirst(Some(5)),
    TakeFirst(Some(7)),
    TakeFirst(None),
    Empty,
];

#[test]
fn lists_answer_on_both_sides_of_the_cursor(rt: HostRuntime) {
    let (mut list, mut other, mut stock) = (EventList::new(), EventList::new(), EventList::new());
    for value in 0..32u64 {
        stock.push_last(EventCell::new(rt.alloc(), value).expect(&rt, "memory for a node"));
    }
    let mut held = room(rt.alloc()).expect(&rt, "room for blocks");
    for steps in [ROW.as_slice(), CALLS.as_slice()] {
        let right = count(
            rt.alloc(),
            &mut held,
            &mut stock,
            &mut list,
            &mut other,
            steps,
        );
        assert_all(&rt, right, steps.len());
    }
    let refused = EventCell::new(rt.alloc(), 9u64);
    assert!(rt; matches!(&refused, Err(refused) if refused.value == 9));
    drop(refused);
    drop(held);
    drop(list);
    drop(other);
    drop(stock);
}

#[test]
fn drops_a_long_list(rt: HostRuntime) {
    let mut list = EventList::new();
    for value in 0..1_000_000u64 {
        list.push_last(EventCell::new(rt.alloc(), value).expect(&rt, "memory for a node"));
    }
    assert!(rt; list.peek_last().copied() == Some(999_999));
    let cell = EventCell::new(rt.alloc(), 0u64).expect(&rt, "memory for a node");
    nodes_may_cross(&list, &cell, &list, &cell);
    drop(cell);
    drop(list);
}

// Plays the row on shared items, up to so many calls.
fn play(
    list: &mut EventList<Rc<u64>>,
    cell: EventCell<Rc<u64>>,
    five: &Rc<u64>,
    six: &Rc<u64>,
    calls: u32,
) {
    if calls > 0 {
        list.insert_sorted(cell);
    } else {
        drop(cell);
    }
    if calls > 1 {
        drop(list.take_equal(five));
        drop(list.take_equal(six));
    }
    if calls > 2 {
        list.pass_back();
        drop(list.take_last());
    }
    if calls > 3 {
        list.pass_next();
        drop(list.take_first());
    }
    if calls > 4 {
        let mut other = EventList::new();
        other.append_all(list);
        drop(other);
    }
}

#[test]
fn drops_each_item_once(rt: HostRuntime) {
    let one = Rc::new(rt.alloc(), 1u64).expect(&rt, "memory for an item");
    let three = Rc::new(rt.alloc(), 3u64).expect(&rt, "memory for an item");
    let five = Rc::new(rt.alloc(), 5u64).expect(&rt, "memory for an item");
    let seven = Rc::new(rt.alloc(), 7u64).expect(&rt, "memory for an item");
    let another_five = Rc::new(rt.alloc(), 5u64).expect(&rt, "memory for an item");
    let six = Rc::new(rt.alloc(), 6u64).expect(&rt, "memory for an item");
    for calls in 0..6u32 {
        let mut list = EventList::new();
        for item in [&seven, &five, &three, &one] {
            let shared = item.clone().expect(&rt, "one more reference");
            let cell = EventCell::new(rt.alloc(), shared).expect(&rt, "memory for a node");
            list.insert_sorted(cell);
        }
        list.pass_next();
        list.pass_next();
        let shared = another_five.clone().expect(&rt, "one more reference");
        let cell = EventCell::new(rt.alloc(), shared).expect(&rt, "memory for a node");
        for item in [&one, &three, &five, &seven, &another_five] {
            assert!(rt; Rc::strong_count(item) == 2);
        }
        play(&mut list, cell, &five, &six, calls);
        drop(list);
        for item in [&one, &three, &five, &seven, &another_five] {
            assert!(rt; Rc::strong_count(item) == 1, "after {calls} calls");
        }
    }
}

//! Stores of three variables, against values worked out by hand: a number, an array of two numbers, and a sequence of two.

use super::assert_all;
use Step::{Clear, Forget, Mark, Marks, Number, Pair, Put, Same, Set, SetTwice, Start, Swap, Undo};
use fixtures::memory::{Held, Refused, exhaust, refuse, room, serve};
use std::alloc::Global;
use std::mem::{replace, swap};
use terms::{Cells, NoMemory, Scalar, State, Value};
use undo_records::Store;

/// What is done with a store and another one, with its answer, or what is seen.
#[derive(Clone, Copy)]
enum Step {
    /// This store starts anew with 5, 1 and 2, 3 and 4, and the other one with this number, 1 and the second, 3 and the last.
    Start(i64, i64, i64),
    Mark,
    /// Whether there was a mark.
    Undo(bool),
    /// The first state is forgotten; there is a mark.
    Forget,
    Marks(usize),
    /// The cell 0 gets a number.
    Set(i64),
    /// The item of a cell gets a number.
    Put(usize, usize, i64),
    /// The cell 1 gets a list of the number twice.
    SetTwice(i64),
    /// The cell 2 gets the empty list.
    Clear,
    /// The number in the cell 0.
    Number(i64),
    /// The two items of the cell 1.
    Pair(i64, i64),
    /// The two stores change places.
    Swap,
    /// Whether their first states are the same.
    Same(bool),
}

fn number(n: i64) -> Value {
    Value::of_scalar(Scalar::Int(n))
}

fn is_number(value: &Value, n: i64) -> bool {
    !value.is_list() && value.scalar() == Scalar::Int(n)
}

// The list of two numbers.
fn pair(alloc: Global, first: i64, second: i64) -> Result<Value, NoMemory> {
    let items = Vec::from_array(alloc, [number(first), number(second)])?;
    Ok(Value::of_items(items))
}

fn is_pair(value: &Value, first: i64, second: i64) -> bool {
    match value.items() {
        [one, two] => value.is_list() && is_number(one, first) && is_number(two, second),
        _ => false,
    }
}

const START: (i64, i64, i64) = (5, 2, 4);

// A store with this number, 1 and the second number in the array, and 3 and the last number in the sequence.
fn store(alloc: Global, start: (i64, i64, i64)) -> Result<Store, NoMemory> {
    let (n, second, last) = start;
    let array = pair(alloc, 1, second)?;
    let sequence = pair(alloc, 3, last)?;
    let cells = Vec::from_array(alloc, [number(n), array, sequence])?;
    Store::new(alloc, State::new(cells))
}

// Whether there was a state to forget.
fn forgets_first(store: &mut Store) -> bool {
    if store.marks() == 0 {
        return false;
    }
    store.forget_first(1);
    true
}

// Both stores start anew.
fn restart(
    alloc: Global,
    one: &mut Store,
    other: &mut Store,
    start: (i64, i64, i64),
) -> Result<(), NoMemory> {
    drop(replace(one, store(alloc, START)?));
    drop(replace(other, store(alloc, start)?));
    Ok(())
}

fn does(alloc: Global, store: &mut Store, other: &mut Store, step: Step) -> bool {
    match step {
        Start(n, second, last) => restart(alloc, store, other, (n, second, last)).is_ok(),
        Mark => store.mark(alloc).is_ok(),
        Undo(wanted) => store.undo() == wanted,
        Forget => forgets_first(store),
        Marks(count) => store.marks() == count,
        Set(n) => store.set(0, number(n)).is_ok(),
        Put(cell, at, n) => store.set_at(cell, at, number(n)).is_ok(),
        SetTwice(n) => match pair(alloc, n, n) {
            Ok(twice) => store.set(1, twice).is_ok(),
            Err(_) => false,
        },
        Clear => store.set(2, Value::of_items(Vec::new(alloc))).is_ok(),
        Number(n) => matches!(store.get(0), Some(value) if is_number(value, n)),
        Pair(first, second) => matches!(store.get(1), Some(value) if is_pair(value, first, second)),
        Swap => {
            swap(store, other);
            true
        }
        Same(wanted) => {
            store.has_same_first(other) == wanted && other.has_same_first(store) == wanted
        }
    }
}

// How many of the steps come out as they say, up to the first that doesn't.
fn count(alloc: Global, one: &mut Store, other: &mut Store, steps: &[Step]) -> usize {
    for (k, step) in steps.iter().enumerate() {
        if !does(alloc, one, other, *step) {
            return k;
        }
    }
    steps.len()
}

const OF_ONE: [Step; 59] = [
    // to each mark
    Start(5, 2, 4),
    Mark,
    Set(6),
    Set(7),
    Mark,
    Set(8),
    Number(8),
    Marks(2),
    Undo(true),
    Number(7),
    Marks(1),
    Undo(true),
    Number(5),
    Undo(false),
    Marks(0),
    // the first state is forgotten
    Start(5, 2, 4),
    Mark,
    Set(6),
    Mark,
    Set(7),
    Forget,
    Undo(true),
    Number(6),
    Undo(false),
    // an item of an array, set twice; there is no third item
    Start(5, 2, 4),
    Mark,
    Put(1, 1, 5),
    Pair(1, 5),
    Undo(true),
    Pair(1, 2),
    Mark,
    Put(1, 1, 5),
    Put(1, 2, 9),
    Pair(1, 5),
    Undo(true),
    Pair(1, 2),
    // the same places again and again, in turn, as a loop writes them: a number, both items, then the whole array
    Start(5, 2, 4),
    Mark,
    Set(6),
    Put(1, 1, 7),
    Set(8),
    Put(1, 0, 9),
    Put(1, 1, 3),
    Set(4),
    Mark,
    Put(1, 1, 6),
    SetTwice(2),
    Put(1, 1, 5),
    Put(1, 0, 4),
    SetTwice(8),
    Set(9),
    Set(1),
    Pair(8, 8),
    Undo(true),
    Number(4),
    Pair(9, 3),
    Undo(true),
    Number(5),
    Pair(1, 2),
];

const OF_TWO: [Step; 90] = [
    // first states are the same whatever is written
    Start(5, 2, 4),
    Mark,
    Put(1, 0, 8),
    Put(1, 0, 3),
    Clear,
    SetTwice(8),
    Put(1, 1, 7),
    Set(8),
    Same(true),
    Mark,
    Put(1, 0, 9),
    Put(1, 0, 3),
    Clear,
    SetTwice(9),
    Put(1, 1, 7),
    Set(9),
    Swap,
    Mark,
    Put(1, 0, 6),
    Put(1, 0, 3),
    Clear,
    SetTwice(6),
    Put(1, 1, 7),
    Set(6),
    Same(true),
    Swap,
    Undo(true),
    Same(true),
    Undo(true),
    Same(true),
    // another number, and another item of the sequence
    Start(6, 2, 4),
    Same(false),
    Swap,
    Mark,
    Put(1, 0, 8),
    Put(1, 0, 3),
    Clear,
    SetTwice(8),
    Put(1, 1, 7),
    Set(8),
    Same(false),
    Start(5, 2, 6),
    Same(false),
    Swap,
    Mark,
    Put(1, 0, 8),
    Put(1, 0, 3),
    Clear,
    SetTwice(8),
    Put(1, 1, 7),
    Set(8),
    Same(false),
    // the current states are the same here
    Start(6, 2, 4),
    Mark,
    Set(8),
    Swap,
    Mark,
    Set(8),
    Same(false),
    // one item is compared as it was first
    Start(5, 3, 4),
    Mark,
    Put(1, 1, 3),
    Same(false),
    Start(5, 2, 4),
    Mark,
    Put(1, 1, 3),
    Same(true),
    // a first state that is forgotten is not compared
    Start(6, 2, 7),
    Mark,
    Set(8),
    Clear,
    Mark,
    Set(9),
    Swap,
    Mark,
    Set(8),
    Clear,
    Mark,
    Set(9),
    Marks(2),
    Same(false),
    Swap,
    Marks(2),
    Forget,
    Same(false),
    Swap,
    Forget,
    Same(true),
    Forget,
    Same(false),
];

#[test]
fn stores_go_back_to_their_marks(rt: HostRuntime) {
    let mut one = store(rt.alloc(), START).expect(&rt, "memory for a store");
    let mut other = store(rt.alloc(), START).expect(&rt, "memory for a store");
    assert_all(
        &rt,
        count(rt.alloc(), &mut one, &mut other, &OF_ONE),
        OF_ONE.len(),
    );
    assert_all(
        &rt,
        count(rt.alloc(), &mut one, &mut other, &OF_TWO),
        OF_TWO.len(),
    );
    let cells = Vec::from_array(rt.alloc(), [number(5)]).expect(&rt, "memory for a state");
    let fewer = Store::new(rt.alloc(), State::new(cells)).expect(&rt, "memory for a store");
    assert!(rt; !one.has_same_first(&fewer));
    drop(one);
    drop(other);
    drop(fewer);
}

// Three marks, and what is then done without memory: a mark after an undone one takes none.
const MARKED: [Step; 9] = [
    Start(5, 2, 4),
    Mark,
    Set(6),
    Put(1, 1, 9),
    Mark,
    Set(7),
    Clear,
    Mark,
    Set(8),
];

const TAKEN_BACK: [Step; 18] = [
    Marks(3),
    Undo(true),
    Number(7),
    Marks(2),
    Mark,
    Marks(3),
    Number(7),
    Undo(true),
    Undo(true),
    Number(6),
    Pair(1, 9),
    Mark,
    Forget,
    Marks(1),
    Undo(true),
    Number(6),
    Undo(false),
    Same(false),
];

// The same with one mark, of a state whose sequence has two items.
const UNDONE: [Step; 3] = [Start(5, 2, 4), Mark, Undo(true)];

const MARKED_AGAIN: [Step; 6] = [Mark, Marks(1), Number(5), Same(true), Undo(true), Marks(0)];

// The same as `count`, where each request for memory is refused.
fn count_refused(
    alloc: Global,
    held: &mut Held,
    one: &mut Store,
    other: &mut Store,
    steps: &[Step],
) -> usize {
    for (k, step) in steps.iter().enumerate() {
        if !exhaust(alloc, held) || !does(alloc, one, other, *step) {
            return k;
        }
    }
    steps.len()
}

#[test]
fn marks_are_taken_back_without_memory(rt: HostRuntime) {
    let mut one = store(rt.alloc(), START).expect(&rt, "memory for a store");
    let mut other = store(rt.alloc(), START).expect(&rt, "memory for a store");
    let mut held = room(rt.alloc()).expect(&rt, "room for blocks");
    for (before, after) in [
        (MARKED.as_slice(), TAKEN_BACK.as_slice()),
        (UNDONE.as_slice(), MARKED_AGAIN.as_slice()),
    ] {
        let right = count(rt.alloc(), &mut one, &mut other, before);
        assert_all(&rt, right, before.len());
        let right = count_refused(rt.alloc(), &mut held, &mut one, &mut other, after);
        assert_all(&rt, right, after.len());
        held.clear();
    }
    drop(held);
    drop(one);
    drop(other);
}

// Where the step is refused, the store is as these say, and the step is served when it is made again.
fn is_kept_or_served(
    alloc: Global,
    held: &mut Held,
    store: &mut Store,
    other: &mut Store,
    step: Step,
    kept: &[Step],
) -> bool {
    let how = refuse(alloc, held);
    let is_served = does(alloc, store, other, step);
    let is_kept = is_served || count(alloc, store, other, kept) == kept.len();
    serve(alloc, held);
    how != Refused::None && is_kept && (is_served || does(alloc, store, other, step))
}

#[test]
fn a_refused_call_leaves_the_store(rt: HostRuntime) {
    let mut one = store(rt.alloc(), START).expect(&rt, "memory for a store");
    let mut other = store(rt.alloc(), START).expect(&rt, "memory for a store");
    let mut held = room(rt.alloc()).expect(&rt, "room for blocks");
    for (step, marks, n, second) in [
        (Mark, 0, 5, 2),
        (Set(6), 1, 5, 2),
        (Mark, 1, 6, 2),
        (Put(1, 1, 9), 2, 6, 2),
    ] {
        let kept = [Marks(marks), Number(n), Pair(1, second)];
        assert!(rt; is_kept_or_served(rt.alloc(), &mut held, &mut one, &mut other, step, &kept));
    }
    let last = [Marks(2), Number(6), Pair(1, 9)];
    assert_all(&rt, count(rt.alloc(), &mut one, &mut other, &last), 3);
    drop(held);
    drop(one);
    drop(other);
}

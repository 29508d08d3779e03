//! Bags of a few messages, by hand. Every call is made with each request for memory refused.

use super::{assert_all, key, may_cross};
use Step::{
    Append, Cancel, Empty, First, Least, Meet, MeetAll, NoEqual, NoPair, NoneTo, Post, Same, Split,
    Swap, Take, TakeEqual, WithoutAll, WithoutBelow,
};
use antimessage::Bag;
use event_keys::Sign::{Minus, Plus};
use event_keys::{Bound, Message, Sign, Signed};
use fixtures::memory::{Held, exhaust, room};
use raw_events::{EventCell, EventList};
use std::alloc::Global;
use std::mem::{replace, swap};
use terms::Action;

/// What is done with a bag and another one, with its answer, or what is seen. A message is told by its sign, its key's tick and its
/// receiver; all else is the same in all of them.
#[derive(Clone, Copy)]
enum Step {
    Post(Sign, u64, u16),
    /// The least of all leaves.
    First(Sign, u64, u16),
    /// The least to its receiver leaves.
    Take(Sign, u64, u16),
    /// There is none to this receiver.
    NoneTo(u16),
    /// The equal one leaves.
    TakeEqual(Sign, u64, u16),
    NoEqual(Sign, u64, u16),
    /// The message and its antimessage leave.
    Meet(u64, u16),
    /// They aren't both there.
    NoPair(u64, u16),
    /// So many pairs leave.
    MeetAll(u64),
    /// The antimessages of the other bag take their messages out.
    Cancel,
    /// What goes to this receiver leaves, and is the other bag then.
    Split(u16),
    /// The other bag goes into this one.
    Append,
    /// What is below the tick leaves.
    WithoutBelow(u64),
    /// What is below the end leaves.
    WithoutAll,
    /// The tick of the least key.
    Least(u64),
    Empty,
    /// The two bags change places.
    Swap,
    /// Whether the two bags are equal.
    Same(bool),
}

fn signed(alloc: Global, sign: Sign, tick: u64, to: u16) -> Signed {
    let action = Action::new(5, Vec::new(alloc));
    let message = Message {
        key: key(tick, 2, 7),
        action,
        to,
    };
    Signed { message, sign }
}

// A cell of the stock gets the message in the place of its own.
fn posts(stock: &mut EventList<Signed>, bag: &mut Bag, signed: Signed) -> bool {
    match stock.take_first() {
        Some(mut cell) => {
            drop(replace(cell.value_mut(), signed));
            bag.post(cell);
            true
        }
        None => {
            drop(signed);
            false
        }
    }
}

fn is(taken: Option<EventCell<Signed>>, wanted: &Signed) -> bool {
    match taken {
        Some(cell) => {
            let is_wanted = *cell.value() == *wanted;
            drop(cell);
            is_wanted
        }
        None => false,
    }
}

fn does(
    alloc: Global,
    stock: &mut EventList<Signed>,
    bag: &mut Bag,
    other: &mut Bag,
    step: Step,
) -> bool {
    match step {
        Post(sign, tick, to) => return posts(stock, bag, signed(alloc, sign, tick, to)),
        First(sign, tick, to) => return is(bag.take_first(), &signed(alloc, sign, tick, to)),
        Take(sign, tick, to) => return is(bag.take(to), &signed(alloc, sign, tick, to)),
        NoneTo(to) => return bag.take(to).is_none(),
        TakeEqual(sign, tick, to) => {
            let wanted = signed(alloc, sign, tick, to);
            return is(bag.take_equal(&wanted), &wanted);
        }
        NoEqual(sign, tick, to) => {
            return bag.take_equal(&signed(alloc, sign, tick, to)).is_none();
        }
        Meet(tick, to) => return bag.meet(&signed(alloc, Plus, tick, to).message),
        NoPair(tick, to) => return !bag.meet(&signed(alloc, Plus, tick, to).message),
        MeetAll(pairs) => return bag.meet_all() == pairs,
        Least(tick) => return bag.least() == Bound::At(key(tick, 2, 7)),
        Empty => return bag.is_empty() && bag.least() == Bound::End && bag.take_first().is_none(),
        Same(wanted) => return (*bag == *other) == wanted && (*other == *bag) == wanted,
        // the others have no answer
        Cancel => bag.cancel(other),
        Split(to) => *other = bag.split_to(to),
        Append => bag.append(other),
        WithoutBelow(tick) => bag.drop_below(Bound::At(key(tick, 2, 7))),
        WithoutAll => bag.drop_below(Bound::End),
        Swap => swap(bag, other),
    }
    true
}

// How many of the steps come out as they say without memory, up to the first that doesn't.
fn count(
    alloc: Global,
    held: &mut Held,
    stock: &mut EventList<Signed>,
    bag: &mut Bag,
    other: &mut Bag,
    steps: &[Step],
) -> usize {
    for (k, step) in steps.iter().enumerate() {
        if !exhaust(alloc, held) || !does(alloc, stock, bag, other, *step) {
            return k;
        }
    }
    steps.len()
}

const TAKEN: [Step; 22] = [
    // the least to a receiver
    Post(Plus, 9, 1),
    Post(Plus, 3, 4),
    Post(Plus, 6, 1),
    Least(3),
    NoneTo(2),
    Take(Plus, 6, 1),
    Take(Plus, 9, 1),
    NoneTo(1),
    Take(Plus, 3, 4),
    Empty,
    // the least of all
    Post(Plus, 6, 1),
    Post(Minus, 3, 4),
    First(Minus, 3, 4),
    First(Plus, 6, 1),
    Empty,
    // the equal one of its sign
    Post(Minus, 6, 1),
    Post(Plus, 3, 1),
    NoEqual(Plus, 6, 1),
    TakeEqual(Minus, 6, 1),
    NoEqual(Minus, 6, 1),
    First(Plus, 3, 1),
    Empty,
];

const MET: [Step; 52] = [
    // a pair meets once
    Post(Plus, 6, 1),
    Post(Minus, 6, 1),
    Post(Plus, 6, 1),
    NoPair(6, 2),
    Meet(6, 1),
    NoPair(6, 1),
    First(Plus, 6, 1),
    Empty,
    // an antimessage waits for its message
    Post(Minus, 6, 1),
    NoPair(6, 1),
    Least(6),
    Post(Plus, 6, 1),
    Meet(6, 1),
    MeetAll(0),
    Empty,
    // all pairs meet
    Post(Plus, 6, 1),
    Post(Minus, 6, 1),
    Post(Plus, 6, 1),
    MeetAll(1),
    First(Plus, 6, 1),
    Empty,
    Post(Minus, 8, 1),
    Post(Plus, 2, 1),
    Post(Plus, 8, 1),
    Post(Minus, 5, 3),
    Post(Minus, 8, 1),
    Post(Plus, 5, 2),
    Post(Minus, 2, 1),
    MeetAll(2),
    First(Plus, 5, 2),
    First(Minus, 5, 3),
    First(Minus, 8, 1),
    Empty,
    // the antimessages of the other bag alone take messages out
    Post(Minus, 6, 1),
    Post(Plus, 3, 1),
    Post(Minus, 8, 1),
    Post(Minus, 9, 1),
    Post(Minus, 9, 1),
    Swap,
    Post(Plus, 6, 1),
    Post(Plus, 6, 1),
    Post(Minus, 6, 1),
    Post(Plus, 3, 1),
    Post(Plus, 9, 1),
    Cancel,
    First(Plus, 3, 1),
    First(Plus, 6, 1),
    First(Minus, 6, 1),
    Empty,
    Swap,
    WithoutAll,
    Empty,
];

const MOVED: [Step; 56] = [
    // the order of posts makes no difference, their number does
    Post(Plus, 6, 1),
    Post(Minus, 3, 1),
    Post(Plus, 6, 1),
    Swap,
    Post(Plus, 6, 1),
    Post(Plus, 6, 1),
    Same(false),
    Post(Minus, 3, 1),
    Same(true),
    TakeEqual(Plus, 6, 1),
    Same(false),
    WithoutAll,
    Empty,
    // all of the other bag goes in, each to its place
    Swap,
    WithoutAll,
    Post(Plus, 9, 1),
    Post(Plus, 6, 1),
    Post(Minus, 2, 1),
    Swap,
    Post(Plus, 6, 1),
    Post(Plus, 3, 1),
    Append,
    First(Minus, 2, 1),
    First(Plus, 3, 1),
    First(Plus, 6, 1),
    First(Plus, 6, 1),
    First(Plus, 9, 1),
    Empty,
    Swap,
    Empty,
    // what is below is dropped
    Post(Plus, 6, 1),
    Post(Minus, 3, 1),
    Post(Plus, 9, 1),
    WithoutBelow(6),
    First(Plus, 6, 1),
    WithoutAll,
    Empty,
    // a bag goes apart by receivers
    Post(Plus, 9, 1),
    Post(Minus, 3, 4),
    Post(Minus, 6, 1),
    Post(Plus, 6, 1),
    Post(Plus, 6, 1),
    Split(2),
    Swap,
    Empty,
    Swap,
    Split(1),
    First(Minus, 3, 4),
    Empty,
    Swap,
    Split(1),
    Empty,
    Swap,
    First(Plus, 6, 1),
    First(Plus, 6, 1),
    Least(6),
];

#[test]
fn bags_hold_what_was_posted(rt: HostRuntime) {
    let (mut bag, mut other, mut stock) = (Bag::new(), Bag::new(), EventList::new());
    for _ in 0..100u32 {
        let cell = EventCell::new(rt.alloc(), signed(rt.alloc(), Plus, 0, 0));
        stock.push_last(cell.ok().expect(&rt, "memory for a cell"));
    }
    let mut held = room(rt.alloc()).expect(&rt, "room for blocks");
    for steps in [TAKEN.as_slice(), MET.as_slice(), MOVED.as_slice()] {
        let right = count(
            rt.alloc(),
            &mut held,
            &mut stock,
            &mut bag,
            &mut other,
            steps,
        );
        assert_all(&rt, right, steps.len());
    }
    drop(held);
    drop(stock);
    // the last rows leave two messages in the bag
    let mut messages = bag.iter();
    assert!(rt;
        messages.next().is_some() && messages.next().is_some() && messages.next().is_none()
    );
    drop(messages);
    may_cross(&bag, &other);
    drop(bag);
    drop(other);
}

//! Entries that are refused their memory: each request, or under `scripts/refusals.py` one of them.

use super::given::{AT_1, AT_2, AT_3, AT_4, Given, NOTHING, PASS_2, bag, cell, key, passes};
use super::steps::{Bench, at_start, deliver};
use antimessage::Bag;
use event_keys::Key;
use fixtures::memory::{Held, Refused, refuse, room, serve};
use rollback::ProcessRefused;
use std::alloc::{AllocGlobal, Global};
use std::mem;
use std::process::Abort;
use terms::NoMemory;

/// Which entry of which component is processed, and whether with copies.
#[derive(Clone, Copy)]
struct Refusal {
    given: Given,
    number: u16,
    // The number of the entries that were processed before.
    entries: u32,
    is_copied: bool,
    key: Key,
}

// A bag of one message that has nothing to do with what is processed.
fn posted(alloc: Global) -> Result<Bag, NoMemory> {
    bag(alloc, passes(key(9, 0, 7), 1, 0), NOTHING)
}

// Component 1 gets the first pass, so many entries are done, and there are bags of other messages.
fn prepare(alloc: Global, bench: &mut Bench, refusal: Refusal) -> Result<(), NoMemory> {
    if refusal.number == 1 {
        deliver(bench, cell(alloc, PASS_2)?);
    }
    for _ in 0..refusal.entries {
        if bench.node.process(alloc, &mut bench.out).is_err() {
            return Err(NoMemory);
        }
    }
    replace(alloc, &mut bench.out)?;
    replace(alloc, &mut bench.copies.of_sender)?;
    replace(alloc, &mut bench.copies.of_receiver)
}

fn replace(alloc: Global, bag: &mut Bag) -> Result<(), NoMemory> {
    drop(mem::replace(bag, posted(alloc)?));
    Ok(())
}

fn ready(alloc: Global, refusal: Refusal) -> Result<Box<Bench>, NoMemory> {
    let mut bench = at_start(alloc, refusal.given, refusal.number)?;
    match prepare(alloc, &mut *bench, refusal) {
        Ok(()) => Ok(bench),
        Err(refused) => {
            drop(bench);
            Err(refused)
        }
    }
}

fn next(alloc: Global, bench: &mut Bench, is_copied: bool) -> Result<Key, ProcessRefused> {
    if is_copied {
        bench
            .node
            .process_copied(alloc, &mut bench.out, &mut bench.copies)
    } else {
        bench.node.process(alloc, &mut bench.out)
    }
}

fn is_same(bench: &Bench, twin: &Bench) -> bool {
    bench.node == twin.node
        && bench.out == twin.out
        && bench.copies.of_sender == twin.copies.of_sender
        && bench.copies.of_receiver == twin.copies.of_receiver
}

// The next entry has the key; where it is refused, component and bags stay, and it goes on as its untouched twin does.
fn is_served_or_kept(
    alloc: Global,
    held: &mut Held,
    bench: &mut Bench,
    twin: &mut Bench,
    refusal: Refusal,
) -> bool {
    let (is_copied, key) = (refusal.is_copied, refusal.key);
    let how = refuse(alloc, held);
    let first = next(alloc, bench, is_copied);
    let is_kept = first.is_ok() || is_same(bench, twin);
    serve(alloc, held);
    let is_right = match first {
        Ok(done) => how == Refused::One && done == key,
        Err(refused) => {
            refused == ProcessRefused::NoMemory
                && how != Refused::None
                && next(alloc, bench, is_copied) == Ok(key)
        }
    };
    is_kept && is_right && next(alloc, twin, is_copied) == Ok(key) && is_same(bench, twin)
}

fn assert_served_or_kept(rt: &(impl Abort + AllocGlobal), held: &mut Held, refusal: Refusal) {
    let mut bench = ready(rt.alloc(), refusal).expect(rt, "memory for a component");
    let mut twin = ready(rt.alloc(), refusal).expect(rt, "memory for its twin");
    let is_right = is_served_or_kept(rt.alloc(), held, &mut *bench, &mut *twin, refusal);
    assert!(rt; is_right);
    drop(bench);
    drop(twin);
}

// The first turn of the fan's component 0, which sends to two listeners.
const FAN_AT_1: Key = Key {
    tick: 1,
    component: 0,
    number: 0,
};

// A turn that sends, two idle turns, an input, a turn after an input, and turns that send to two, without and with copies.
const REFUSALS: [Refusal; 7] = [
    Refusal {
        given: Given::Ring,
        number: 0,
        entries: 0,
        is_copied: false,
        key: AT_2,
    },
    Refusal {
        given: Given::Ring,
        number: 0,
        entries: 1,
        is_copied: false,
        key: AT_4,
    },
    Refusal {
        given: Given::Ring,
        number: 1,
        entries: 0,
        is_copied: false,
        key: AT_1,
    },
    Refusal {
        given: Given::Ring,
        number: 1,
        entries: 1,
        is_copied: false,
        key: AT_2,
    },
    Refusal {
        given: Given::Ring,
        number: 1,
        entries: 2,
        is_copied: false,
        key: AT_3,
    },
    Refusal {
        given: Given::Fan,
        number: 0,
        entries: 0,
        is_copied: false,
        key: FAN_AT_1,
    },
    Refusal {
        given: Given::Fan,
        number: 0,
        entries: 0,
        is_copied: true,
        key: FAN_AT_1,
    },
];

#[test]
fn a_refused_entry_changes_nothing(rt: HostRuntime) {
    let mut held = room(rt.alloc()).expect(&rt, "room for blocks");
    for refusal in &REFUSALS {
        assert_served_or_kept(&rt, &mut held, *refusal);
    }
    drop(held);
}

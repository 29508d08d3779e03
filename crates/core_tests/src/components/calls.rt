//! Calls that are refused their memory: each request, or under `scripts/refusals.py` one of them. Where the call isn't served, it is when it is made again.

use super::given::{FAN, Given, key, plan, row};
use super::turns::is_outcome;
use compose::{Plan, compose};
use event_keys::Turned;
use fixtures::memory::{Held, Refused, refuse, room, serve};
use ioa_check::{Checked, check};
use ioa_front::{Source, read};
use reference::schedule;
use std::alloc::AllocGlobal;
use std::process::Abort;
use task_seed::{Setup, TableTurns, read_table};
use terms::Refusal;

// What a call answered, where it was served, which it isn't where each request is refused.
fn served<T, E: Refusal + Drop>(rt: &impl Abort, how: Refused, answer: Result<T, E>) -> Option<T> {
    match answer {
        Ok(value) => {
            assert!(rt; how == Refused::One, "a call took no memory");
            Some(value)
        }
        Err(refused) => {
            assert!(rt;
                how != Refused::None && refused.number() == 1,
                "memory is there"
            );
            None
        }
    }
}

fn source_of(rt: &(impl Abort + AllocGlobal)) -> Source {
    read(rt.alloc(), FAN.as_bytes()).expect(rt, "memory for a source")
}

fn checked_of(rt: &(impl Abort + AllocGlobal)) -> Checked {
    check(rt.alloc(), source_of(rt)).expect(rt, "memory for its meaning")
}

// A call that takes its argument and is refused has dropped it.

fn read_again(rt: &(impl Abort + AllocGlobal), held: &mut Held) -> Source {
    let how = refuse(rt.alloc(), held);
    let first = read(rt.alloc(), FAN.as_bytes());
    serve(rt.alloc(), held);
    match served(rt, how, first) {
        Some(source) => source,
        None => source_of(rt),
    }
}

fn check_again(rt: &(impl Abort + AllocGlobal), held: &mut Held, source: Source) -> Checked {
    let how = refuse(rt.alloc(), held);
    let first = check(rt.alloc(), source);
    serve(rt.alloc(), held);
    match served(rt, how, first) {
        Some(checked) => checked,
        None => checked_of(rt),
    }
}

fn compose_again(rt: &(impl Abort + AllocGlobal), held: &mut Held, checked: Checked) -> Plan {
    let how = refuse(rt.alloc(), held);
    let first = compose(rt.alloc(), checked);
    serve(rt.alloc(), held);
    match served(rt, how, first) {
        Some(plan) => plan,
        None => compose(rt.alloc(), checked_of(rt)).expect(rt, "memory for a plan"),
    }
}

#[test]
fn a_refused_source_is_composed_later(rt: HostRuntime) {
    let mut held = room(rt.alloc()).expect(&rt, "room for blocks");
    let twin = plan(rt.alloc(), Given::Fan).expect(&rt, "memory for a plan");
    let source = read_again(&rt, &mut held);
    let checked = check_again(&rt, &mut held, source);
    let composed = compose_again(&rt, &mut held, checked);
    assert!(rt; composed == twin);
    drop(held);
    drop(composed);
    drop(twin);
}

// The fan goes with 0 and then with 1, as its number is.
fn are_turns(turns: &[Turned]) -> bool {
    match turns {
        [first, second] => {
            first.key == key(1, 0, 0)
                && second.key == key(2, 0, 1)
                && is_outcome(&first.outcome, Some(0))
                && is_outcome(&second.outcome, Some(1))
        }
        _ => false,
    }
}

#[test]
fn a_refused_table_and_its_turns_come_later(rt: HostRuntime) {
    let mut held = room(rt.alloc()).expect(&rt, "room for blocks");
    let bytes = b"0 1 0 0\n0 1 0 0\n";
    let how = refuse(rt.alloc(), &mut held);
    let first = read_table(rt.alloc(), bytes);
    serve(rt.alloc(), &mut held);
    let rows = match served(&rt, how, first) {
        Some(rows) => rows,
        None => read_table(rt.alloc(), bytes).expect(&rt, "memory for rows"),
    };
    assert!(rt; rows.as_slice() == [row(0, 1), row(0, 1)].as_slice());
    let plan = plan(rt.alloc(), Given::Fan).expect(&rt, "memory for a plan");
    let turns = TableTurns::new(rt.alloc(), &plan, rows.as_slice()).expect(&rt, "turns");
    // a setup is made without memory
    let how = refuse(rt.alloc(), &mut held);
    let setup = Setup::new(plan, turns, 1000);
    serve(rt.alloc(), &mut held);
    let setup = setup.expect(&rt, "a setup");
    assert!(rt; how != Refused::None);
    let how = refuse(rt.alloc(), &mut held);
    let first = schedule(rt.alloc(), &setup);
    serve(rt.alloc(), &mut held);
    let turns = match served(&rt, how, first) {
        Some(turns) => turns,
        None => schedule(rt.alloc(), &setup).expect(&rt, "memory for turns"),
    };
    assert!(rt; are_turns(turns.as_slice()));
    drop(held);
    drop(rows);
    drop(setup);
    drop(turns);
}

//! What the tests are given: the components of the ring and of the fan, messages and bags.

use antimessage::Bag;
use compose::{Plan, compose};
use event_keys::{Key, Message, Sign, Signed};
use fixtures::ring;
use ioa_check::check;
use ioa_front::read;
use raw_events::EventCell;
use rollback::Component;
use std::alloc::Global;
use std::sync::Arc;
use task_seed::{Row, Setup, TableTurns, TableTurnsError};
use terms::{Action, NoMemory, Scalar};

pub(crate) type Node = Component<TableTurns>;

/// A composition: the ring of two, or the fan, whose component 0 sends to two listeners.
#[derive(Clone, Copy)]
pub(crate) enum Given {
    Ring,
    Fan,
}

/// The source of the fan.
pub(crate) const FAN: &str =
    "automaton S signature output go(v: 0..1) states n: 0..1 := 0 transitions output go(v: 0..1) pre v = n eff n := 1 tasks { go } automaton L signature input go(v: 0..1) states s: Int := 0 transitions input go(v: 0..1) eff s := s + v + 1 automaton F components a: S; b: L; c: L";

/// The plan of a source without faults.
pub(crate) fn plan_of(alloc: Global, text: &str) -> Result<Plan, NoMemory> {
    let Ok(source) = read(alloc, text.as_bytes()) else {
        return Err(NoMemory);
    };
    let Ok(checked) = check(alloc, source) else {
        return Err(NoMemory);
    };
    match compose(alloc, checked) {
        Ok(plan) => Ok(plan),
        Err(_) => Err(NoMemory),
    }
}

pub(crate) fn plan(alloc: Global, given: Given) -> Result<Plan, NoMemory> {
    match given {
        Given::Ring => ring(alloc),
        Given::Fan => plan_of(alloc, FAN),
    }
}

pub(crate) const fn row(component: u64, gap: u32) -> Row {
    Row {
        component,
        gap,
        task: 0,
        choice: 0,
    }
}

// In the ring component 0 has turns at the ticks 2 and 4, component 1 at 1 and 3; in the fan component 0 at 1 and 2.
fn turns(alloc: Global, plan: &Plan, given: Given) -> Result<TableTurns, TableTurnsError> {
    match given {
        Given::Ring => {
            let rows = [row(0, 2), row(0, 2), row(1, 1), row(1, 2)];
            TableTurns::new(alloc, plan, &rows)
        }
        Given::Fan => TableTurns::new(alloc, plan, &[row(0, 1), row(0, 1)]),
    }
}

pub(crate) fn setup(alloc: Global, given: Given) -> Result<Setup<TableTurns>, NoMemory> {
    let plan = plan(alloc, given)?;
    match turns(alloc, &plan, given) {
        Ok(turns) => timed(plan, turns),
        Err(_) => {
            drop(plan);
            Err(NoMemory)
        }
    }
}

fn timed(plan: Plan, turns: TableTurns) -> Result<Setup<TableTurns>, NoMemory> {
    match Setup::new(plan, turns, 1000) {
        Ok(setup) => Ok(setup),
        Err(_) => Err(NoMemory),
    }
}

/// A component before its first turn.
pub(crate) fn start(alloc: Global, given: Given, number: u16) -> Result<Node, NoMemory> {
    let setup = setup(alloc, given)?;
    if number >= setup.plan().components() {
        drop(setup);
        return Err(NoMemory);
    }
    Component::new(alloc, Arc::new(alloc, setup)?, number)
}

pub(crate) const fn key(tick: u64, component: u16, number: u64) -> Key {
    Key {
        tick,
        component,
        number,
    }
}

/// The key of the ring's turn at the tick 1, which is component 1's, and so on.
pub(crate) const AT_1: Key = Key {
    tick: 1,
    component: 1,
    number: 0,
};

pub(crate) const AT_2: Key = Key {
    tick: 2,
    component: 0,
    number: 0,
};

pub(crate) const AT_3: Key = Key {
    tick: 3,
    component: 1,
    number: 1,
};

pub(crate) const AT_4: Key = Key {
    tick: 4,
    component: 0,
    number: 1,
};

/// The action `pass(argument)` of a turn with this key, on its way to the other component, or its antimessage.
#[derive(Clone, Copy)]
pub(crate) struct Pass {
    pub(crate) sign: Sign,
    pub(crate) key: Key,
    pub(crate) argument: i64,
}

const fn other(component: u16) -> u16 {
    if component == 0 { 1 } else { 0 }
}

/// What a component sends by its turn of this key: the number of the other one, to which it goes.
pub(crate) const fn plus(key: Key) -> Pass {
    Pass {
        sign: Sign::Plus,
        key,
        argument: other(key.component) as i64,
    }
}

pub(crate) const PASS_2: Pass = Pass {
    sign: Sign::Plus,
    key: AT_2,
    argument: 1,
};

pub(crate) const UNSENT_2: Pass = Pass {
    sign: Sign::Minus,
    key: AT_2,
    argument: 1,
};

pub(crate) const PASS_3: Pass = Pass {
    sign: Sign::Plus,
    key: AT_3,
    argument: 0,
};

pub(crate) const fn minus(key: Key) -> Pass {
    Pass {
        sign: Sign::Minus,
        key,
        argument: other(key.component) as i64,
    }
}

pub(crate) fn message(alloc: Global, pass: Pass) -> Result<Message, NoMemory> {
    let args = Vec::from_array(alloc, [Scalar::Int(pass.argument)])?;
    Ok(Message {
        key: pass.key,
        action: Action::new(0, args),
        to: other(pass.key.component),
    })
}

pub(crate) fn cell(alloc: Global, pass: Pass) -> Result<EventCell<Signed>, NoMemory> {
    let message = message(alloc, pass)?;
    let signed = Signed {
        message,
        sign: pass.sign,
    };
    match EventCell::new(alloc, signed) {
        Ok(cell) => Ok(cell),
        Err(_) => Err(NoMemory),
    }
}

/// So many messages that a component sends by its turn of this key, and so many antimessages.
#[derive(Clone, Copy)]
pub(crate) struct Held {
    pub(crate) key: Key,
    pub(crate) pluses: u32,
    pub(crate) minuses: u32,
}

pub(crate) const fn passes(key: Key, pluses: u32, minuses: u32) -> Held {
    Held {
        key,
        pluses,
        minuses,
    }
}

pub(crate) const NOTHING: Held = Held {
    key: AT_2,
    pluses: 0,
    minuses: 0,
};

fn post(alloc: Global, bag: &mut Bag, pass: Pass, count: u32) -> Result<(), NoMemory> {
    for _ in 0..count {
        bag.post(cell(alloc, pass)?);
    }
    Ok(())
}

fn post_held(alloc: Global, bag: &mut Bag, held: Held) -> Result<(), NoMemory> {
    post(alloc, bag, plus(held.key), held.pluses)?;
    post(alloc, bag, minus(held.key), held.minuses)
}

fn post_both(alloc: Global, bag: &mut Bag, first: Held, second: Held) -> Result<(), NoMemory> {
    post_held(alloc, bag, first)?;
    post_held(alloc, bag, second)
}

/// A bag of both.
pub(crate) fn bag(alloc: Global, first: Held, second: Held) -> Result<Bag, NoMemory> {
    let mut bag = Bag::new();
    match post_both(alloc, &mut bag, first, second) {
        Ok(()) => Ok(bag),
        Err(refused) => {
            drop(bag);
            Err(refused)
        }
    }
}

//! Steps of exchanges of the ring and of their leases, each with its answer, and what runs them.

use crate::rings::ROWS;
use event_keys::{Bound, Key, Outcome};
use exchange::{Chunk, Exchange, Lease, MeetRefused};
use fixtures::memory::{Held as Blocks, exhaust, room};
use fixtures::ring;
use std::alloc::{AllocGlobal, Global};
use std::process::Abort;
use std::sync::Arc;
use task_seed::{Setup, TableTurns};
use terms::NoMemory;

type Shared = Exchange<TableTurns>;

type Held = Lease<TableTurns>;

/// What a lease does away from any exchange, with its answer, or what it tells.
#[derive(Clone, Copy)]
pub(crate) enum Away {
    Number(u16),
    /// At most so many entries are done, and so many are.
    Runs(u32, u32),
    /// So many messages are delivered.
    Settles(u64),
    /// How many done entries can be taken back, and the key of the next one.
    Stands(usize, Bound),
    Floor(Bound),
    /// The least key of what waits in the tray.
    Coming(Bound),
    /// Whether messages wait to leave, and whether the last done turn was idle.
    Waits(bool, bool),
}

/// What an exchange does, with its answer, or what it tells.
#[derive(Clone, Copy)]
pub(crate) enum Here {
    /// The number of the turns below the bound, and the bound.
    Commits(u64, Bound),
    /// The chunk has the turns from one place up to another, in the order of all.
    Gives(usize, usize),
    /// Whether messages wait for a component.
    Mail(u16, bool),
    Finished(bool),
    /// The key of a component's turn in the setup, or the end where there is none.
    Turn(u16, u64, Bound),
}

/// What is done with exchanges and leases, each named by its place.
#[derive(Clone, Copy)]
pub(crate) enum Step {
    /// Of a lease.
    Of(usize, Away),
    /// On an exchange.
    On(usize, Here),
    /// An exchange judges a lease.
    Judges(usize, usize, Result<(), MeetRefused>),
    /// An exchange meets a lease.
    Meets(usize, usize, Result<Bound, MeetRefused>),
    /// Whether two leases are equal.
    SameLeases(usize, usize, bool),
    /// Whether two exchanges are equal.
    SameExchanges(usize, usize, bool),
}

/// Below it there is no turn.
pub(crate) const START: Bound = Bound::At(Key {
    tick: 0,
    component: 0,
    number: 0,
});

/// The key of the ring's turn at the tick 1, which is component 1's, and so on.
pub(crate) const AT_1: Bound = Bound::At(Key {
    tick: 1,
    component: 1,
    number: 0,
});

pub(crate) const AT_2: Bound = Bound::At(Key {
    tick: 2,
    component: 0,
    number: 0,
});

pub(crate) const AT_3: Bound = Bound::At(Key {
    tick: 3,
    component: 1,
    number: 1,
});

pub(crate) const AT_4: Bound = Bound::At(Key {
    tick: 4,
    component: 0,
    number: 1,
});

// All turns in order, and whether each is idle.
const TURNS: [(Bound, bool); 4] = [(AT_1, true), (AT_2, false), (AT_3, false), (AT_4, false)];

/// The ring's turns up to a last tick.
pub(crate) fn setup(rt: &(impl Abort + AllocGlobal), horizon: u64) -> Setup<TableTurns> {
    let plan = ring(rt.alloc()).expect(rt, "memory for a plan");
    let turns = TableTurns::new(rt.alloc(), &plan, &ROWS).expect(rt, "turns of the ring");
    Setup::new(plan, turns, horizon).expect(rt, "a setup")
}

fn tells(alloc: Global, lease: &mut Held, away: Away) -> bool {
    match away {
        Away::Number(wanted) => lease.number() == wanted,
        Away::Runs(most, wanted) => lease.run_ahead(alloc, most) == Ok(wanted),
        Away::Settles(wanted) => lease.settle() == wanted,
        Away::Stands(depth, next) => lease.depth() == depth && lease.next() == next,
        Away::Floor(wanted) => lease.floor() == wanted,
        Away::Coming(wanted) => lease.least_coming() == wanted,
        Away::Waits(sends, idles) => lease.is_sending() == sends && lease.is_idle() == idles,
    }
}

// Whether a chunk has the turns from one place up to another.
fn has_turns(chunk: &Chunk, from: usize, to: usize) -> bool {
    let mut turns = chunk.turns.iter();
    for (key, is_idle) in TURNS.get(from..to).unwrap_or(&[]) {
        let is_next = match turns.next() {
            Some(turned) => {
                let has_idled = matches!(turned.outcome, Outcome::Idle);
                Bound::At(turned.key) == *key && has_idled == *is_idle
            }
            None => false,
        };
        if !is_next {
            return false;
        }
    }
    turns.next().is_none() && chunk.first == from as u64
}

fn answers(exchange: &mut Shared, here: Here) -> bool {
    match here {
        Here::Commits(count, bound) => exchange.commit() == count && exchange.bound() == bound,
        Here::Gives(from, to) => {
            let chunk = exchange.take_chunk();
            let is_right = has_turns(&chunk, from, to);
            drop(chunk);
            is_right && exchange.given() == to as u64
        }
        Here::Mail(number, wanted) => exchange.has_mail(number) == wanted,
        Here::Finished(wanted) => exchange.finished() == wanted,
        Here::Turn(component, number, wanted) => match exchange.setup().key(component, number) {
            Some(key) => Bound::At(key) == wanted,
            None => wanted == Bound::End,
        },
    }
}

fn does(alloc: Global, exchanges: &mut [Shared], leases: &mut [Held], step: Step) -> bool {
    match step {
        Step::Of(place, away) => match leases.get_mut(place) {
            Some(lease) => tells(alloc, lease, away),
            None => false,
        },
        Step::On(place, here) => match exchanges.get_mut(place) {
            Some(exchange) => answers(exchange, here),
            None => false,
        },
        Step::Judges(place, other, wanted) => match (exchanges.get(place), leases.get(other)) {
            (Some(exchange), Some(lease)) => exchange.judge(lease) == wanted,
            _ => false,
        },
        Step::Meets(place, other, wanted) => match (
            exchanges.get_mut(place),
            leases.get_mut(other),
        ) {
            (Some(exchange), Some(lease)) => exchange.meet(lease) == wanted,
            _ => false,
        },
        Step::SameLeases(place, other, wanted) => match (leases.get(place), leases.get(other)) {
            (Some(lease), Some(other)) => (*lease == *other) == wanted,
            _ => false,
        },
        Step::SameExchanges(place, other, wanted) => match (
            exchanges.get(place),
            exchanges.get(other),
        ) {
            (Some(exchange), Some(other)) => (*exchange == *other) == wanted,
            _ => false,
        },
    }
}

// How many of the steps come out as they say, up to the first that doesn't.
fn count(alloc: Global, exchanges: &mut [Shared], leases: &mut [Held], steps: &[Step]) -> usize {
    for (k, step) in steps.iter().enumerate() {
        if !does(alloc, exchanges, leases, *step) {
            return k;
        }
    }
    steps.len()
}

// The same, where each request for memory is refused.
fn count_refused(
    alloc: Global,
    exchanges: &mut [Shared],
    leases: &mut [Held],
    steps: &[Step],
) -> usize {
    let Ok(mut blocks) = room(alloc) else {
        return 0;
    };
    for (k, step) in steps.iter().enumerate() {
        if !exhaust(alloc, &mut blocks) || !does(alloc, exchanges, leases, *step) {
            return k;
        }
    }
    steps.len()
}

// Adds an exchange and its leases.
fn add(
    rt: &impl Abort,
    started: Result<(Shared, Vec<Held>), NoMemory>,
    exchanges: &mut Vec<Shared>,
    leases: &mut Vec<Held>,
) {
    let (exchange, mut own) = started.expect(rt, "memory for an exchange");
    exchanges.push(exchange).expect(rt, "memory for exchanges");
    leases.append(&mut own).expect(rt, "memory for leases");
    drop(own);
}

/// All steps come out as they say, the second ones without memory; else the first number is the place of one that doesn't, counted from 0. There are four exchanges of
/// equal setups, one with another horizon, and one of an equal setup with a window of one turn. The leases of the first are the leases 0 and 1,
/// those of the next 2 and 3, and so on.
pub(crate) fn assert_steps(rt: &(impl Abort + AllocGlobal), steps: &[Step], refused: &[Step]) {
    let mut exchanges = Vec::new(rt.alloc());
    let mut leases = Vec::new(rt.alloc());
    for horizon in [1000, 1000, 1000, 1000, 999] {
        let setup = Arc::new(rt.alloc(), setup(rt, horizon)).expect(rt, "memory for a setup");
        add(
            rt,
            Exchange::new(rt.alloc(), setup),
            &mut exchanges,
            &mut leases,
        );
    }
    let setup = Arc::new(rt.alloc(), setup(rt, 1000)).expect(rt, "memory for a setup");
    let started = Exchange::with_window(rt.alloc(), setup, 1);
    add(rt, started, &mut exchanges, &mut leases);
    let right = count(
        rt.alloc(),
        exchanges.as_mut_slice(),
        leases.as_mut_slice(),
        steps,
    );
    assert_eq!(rt; right, steps.len());
    if !refused.is_empty() {
        let right = count_refused(
            rt.alloc(),
            exchanges.as_mut_slice(),
            leases.as_mut_slice(),
            refused,
        );
        assert_eq!(rt; right, refused.len());
    }
    drop(exchanges);
    drop(leases);
}

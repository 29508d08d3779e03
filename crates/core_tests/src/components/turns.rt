//! Turns and their keys, and the one-thread simulator by steps, against values worked out by hand.

ghost use Rattle.std.specs.Prelude.{◌<◌, ◌≤◌, IfOk};
ghost use Rattle.task_seed.specs.Clocks.{HasReached};

use super::given::{AT_1, AT_2, AT_3, AT_4, Given, key, plan_of, setup};
use event_keys::{Key, Outcome};
use fixtures::memory::{exhaust, room};
use rand_core::Rng;
use rand_pcg::Lcg64Xsh32;
use reference::Reference;
use std::alloc::{AllocGlobal, Global};
use std::marker::{Send, Sync};
use std::process::Abort;
use std::sync::Arc;
use std::sync::atomic::{AtomicU64, Ordering};
use task_seed::{Clock, SeedTurns, Setup, Turn, Turns};
use terms::{NoMemory, Scalar};

const TWO_TASKS: &str =
    "automaton A signature internal up internal down transitions internal up internal down tasks { up } { down } automaton S components a: A";

// The generator's published words of the seed 42 and the stream 54 are a15c02b7, 7b47f409, ba1d3330, 83d2f293, bfa4784b and cbed606e: a gap,
// a task and a choice, and again. A gap is one more than its word modulo 4, a task its word modulo 2: both gaps are 4, both tasks 1. Here are the
// choices, and the ticks.
const DRAWN: [(u32, u64); 2] = [(0xba1d3330, 4), (0xcbed606e, 8)];

#[test]
fn a_seed_gives_the_published_words(rt: HostRuntime) {
    let plan = plan_of(rt.alloc(), TWO_TASKS).expect(&rt, "memory for a plan");
    let turns = SeedTurns::new(42, 54, 4).expect(&rt, "turns of a seed");
    let setup = Setup::new(plan, turns, 8).expect(&rt, "a setup");
    let mut words = Lcg64Xsh32::new(42, 54);
    for (number, (choice, tick)) in DRAWN.iter().enumerate() {
        let number = number as u64;
        let turn = Turn {
            gap: words.next_u32() % 4 + 1,
            task: words.next_u32() % 2,
            choice: words.next_u32(),
        };
        assert!(rt; turn.gap == 4 && turn.task == 1 && turn.choice == *choice);
        assert!(rt; setup.turn(0, number) == Some(turn));
        assert!(rt; setup.key(0, number) == Some(key(*tick, 0, number)));
    }
    assert!(rt; setup.turn(0, 2).is_none() && setup.key(0, 2).is_none());
    let clock = reached(rt.alloc(), &setup, 0, 2).expect(&rt, "memory for a clock");
    for (number, (_, tick)) in DRAWN.iter().enumerate() {
        let number = number as u64;
        assert!(rt; key_of(&clock, &setup, 0, number.min(1), 2) == Some(key(*tick, 0, number)));
    }
    assert!(rt; key_of(&clock, &setup, 0, 2, 2).is_none());
    drop(clock);
    drop(setup);
}

// A clock that has reached this turn.
fn reached<T: Turns>(alloc: Global, setup: &Setup<T>, i: u16, last: u64) -> Result<Clock, NoMemory>
    requires { last < 4294967296 }
    ensures { IfOk result (λ clock. HasReached T.turn_of setup.now i clock last) }
{
    let mut clock = Clock::new(alloc, i);
    for n in 0..last + 1 {
        clock.reach(setup, n)?;
    }
    Ok(clock)
}

// The key of a turn by a clock that has reached this last one.
fn key_of<T: Turns>(clock: &Clock, setup: &Setup<T>, i: u16, n: u64, last: u64) -> Option<Key>
    requires reached { HasReached T.turn_of setup.now i clock.now last }
    requires within { n ≤ last }
{
    clock.key(setup, n)
}

#[test]
fn a_clock_gives_the_keys_of_its_setup(rt: HostRuntime) {
    let plan = plan_of(rt.alloc(), TWO_TASKS).expect(&rt, "memory for a plan");
    let turns = SeedTurns::from_zero(7, 3, 9).expect(&rt, "turns of a seed");
    let setup = Setup::new(plan, turns, 2_000).expect(&rt, "a setup");
    let clock = reached(rt.alloc(), &setup, 0, 600).expect(&rt, "memory for a clock");
    let mut held = room(rt.alloc()).expect(&rt, "room for blocks");
    assert!(rt; exhaust(rt.alloc(), &mut held));
    for n in 0..601u64 {
        assert!(rt; key_of(&clock, &setup, 0, n, 600) == setup.key(0, n));
        assert!(rt; key_of(&clock, &setup, 0, 600 - n, 600) == setup.key(0, 600 - n));
    }
    drop(held);
    // The last turn comes after the second tick that is kept, and before turn 600.
    assert!(rt; setup.key(0, 257).is_some() && setup.key(0, 600).is_none());
    drop(clock);
    drop(setup);
}

// Turns of 3 ticks each, which count what they are asked.
#[derive(Drop)]
#[derive_where(PartialEq, Eq)]
struct Counting<'a> {
    #[derive_where(skip)]
    asked: &'a AtomicU64,
}

impl<'a> Turns for Counting<'a> {
    ghost use Rattle.std.specs.Prelude.{Some};
    ghost use Rattle.std.proofs.Common.{refl, rules};

    ghost turn_of = { λ _ _ _. Some (record { gap = 3; task = 0; choice = 0 }) };

    ghost gap_range = { Prim.search rules };

    ghost alike = { λ _ _ _ _ _. refl };

    ghost ended = { Prim.search rules };

    fn turn(&self, _i: u16, _n: u64) -> Option<Turn> {
        self.asked.fetch_add(1, Ordering::SeqCst);
        Some(Turn {
            gap: 3,
            task: 0,
            choice: 0,
        })
    }
}

#[test]
fn a_clock_asks_for_256_turns_at_most(rt: HostRuntime) {
    let plan = plan_of(rt.alloc(), TWO_TASKS).expect(&rt, "memory for a plan");
    let asked = AtomicU64::new(0);
    let turns = Counting { asked: &asked };
    let setup = Setup::new(plan, turns, 4_294_967_296).expect(&rt, "a setup");
    let clock = reached(rt.alloc(), &setup, 0, 1_023).expect(&rt, "memory for a clock");
    // Each turn was asked for once, and those of 256 more for each tick that is kept.
    let mut most = 0u64;
    for n in 0..1_024u64 {
        let before = asked.load(Ordering::SeqCst);
        assert!(rt; key_of(&clock, &setup, 0, n, 1_023) == Some(key(3 * (n + 1), 0, n)));
        most = most.max(asked.load(Ordering::SeqCst).saturating_sub(before));
    }
    assert!(rt; most == 255, "{most} questions");
    drop(clock);
    drop(setup);
}

// The turns of the ring in order, and to whom the token is passed.
const RING: [(Key, Option<i64>); 4] = [
    (AT_1, None),
    (AT_2, Some(1)),
    (AT_3, Some(0)),
    (AT_4, Some(1)),
];

// The turns of the fan, and what its sender says.
const FAN: [(Key, Option<i64>); 2] = [
    (
        Key {
            tick: 1,
            component: 0,
            number: 0,
        },
        Some(0),
    ),
    (
        Key {
            tick: 2,
            component: 0,
            number: 1,
        },
        Some(1),
    ),
];

// Whether a turn was idle, or took the action 0 with this argument.
pub(crate) fn is_outcome(outcome: &Outcome, argument: Option<i64>) -> bool {
    match outcome {
        Outcome::Idle => argument.is_none(),
        Outcome::Did(action) => match argument {
            Some(n) => action.name == 0 && action.args.as_slice() == [Scalar::Int(n)].as_slice(),
            None => false,
        },
    }
}

// The simulator takes these turns, one a step, and then none.
fn assert_taken(rt: &(impl Abort + AllocGlobal), given: Given, turns: &[(Key, Option<i64>)]) {
    let setup = setup(rt.alloc(), given).expect(rt, "memory for a setup");
    let setup = Arc::new(rt.alloc(), setup).expect(rt, "memory for a setup");
    let mut simulator = Reference::new(rt.alloc(), setup).expect(rt, "memory for a simulator");
    for (key, argument) in turns {
        let Ok(Some(turned)) = simulator.step(rt.alloc()) else {
            panic!(rt; "a turn is wanted")
        };
        assert!(rt; turned.key == *key && is_outcome(&turned.outcome, *argument));
        drop(turned);
    }
    for _ in 0..2u32 {
        assert!(rt; matches!(simulator.step(rt.alloc()), Ok(None)));
    }
    drop(simulator);
}

#[test]
fn the_simulator_takes_one_turn_a_step(rt: HostRuntime) {
    assert_taken(&rt, Given::Ring, &RING);
    assert_taken(&rt, Given::Fan, &FAN);
}

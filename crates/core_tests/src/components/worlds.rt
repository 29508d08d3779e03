//! Worlds of the ring: their calls without memory, against replies worked out by hand, and a list of steps that is refused its memory.

use super::given::{AT_1, AT_2, AT_3, Given, setup};
use event_keys::{Bound, Key, Step};
use fixtures::memory::{Held, Refused, exhaust, refuse, room, serve};
use std::alloc::{AllocGlobal, Global};
use std::process::Abort;
use std::sync::Arc;
use task_seed::TableTurns;
use terms::{NoMemory, Refusal};
use trace::read_steps;
use world::Reply::{Committed, Delivered, Met, RolledBack};
use world::StepRefused::{AheadOfTime, BehindCommit, NoSuchMessage, NothingToRollBack};
use world::{Reply, StepRefused, World};

type Ring = World<TableTurns>;

type Answer = Result<Reply, StepRefused>;

fn start(alloc: Global) -> Result<Ring, NoMemory> {
    let setup = setup(alloc, Given::Ring)?;
    World::new(alloc, Arc::new(alloc, setup)?)
}

// The steps of a text.
fn steps_of(rt: &(impl Abort + AllocGlobal), world: &Ring, text: &str) -> Vec<Step> {
    read_steps(rt.alloc(), world.setup().plan(), text.as_bytes()).expect(rt, "steps")
}

fn run(rt: &(impl Abort + AllocGlobal), world: &mut Ring, text: &str) {
    let steps = steps_of(rt, world, text);
    let answers = world.run(rt.alloc(), steps.as_slice());
    drop(answers.expect(rt, "memory for answers"));
    drop(steps);
}

/// Steps with memory, then steps without, with their answers, and in the end global virtual time and the key of the last committed turn.
#[derive(Clone, Copy)]
struct Row {
    before: &'static str,
    steps: &'static str,
    answers: [Answer; 5],
    time: Bound,
    last: Key,
}

const ROWS: [Row; 2] = [
    // a straggler takes the idle turn at the tick 3 back, and its antimessage comes
    Row {
        before: "process 1\nprocess 1\nprocess 0\n",
        steps: "commit 2 0 0\ndeliver + 1 2 0 0 pass(1)\nback 0\ndeliver - 1 2 0 0 pass(1)\nback 0\n",
        answers: [
            Ok(Committed(1)),
            Ok(Delivered(1)),
            Ok(RolledBack(AT_2)),
            Ok(Delivered(0)),
            Err(NothingToRollBack),
        ],
        time: Bound::At(AT_2),
        last: AT_1,
    },
    // the token is on its way back, and meets its antimessage
    Row {
        before: "process 1\nprocess 0\ndeliver + 1 2 0 0 pass(1)\nprocess 1\nprocess 1\n",
        steps: "commit 3 1 1\nback 1\nmeet 0 3 1 1 pass(0)\nmeet 0 3 1 1 pass(0)\ncommit 2 0 0\n",
        answers: [
            Ok(Committed(2)),
            Ok(RolledBack(AT_3)),
            Ok(Met),
            Err(NoSuchMessage),
            Err(BehindCommit),
        ],
        time: Bound::At(AT_3),
        last: AT_2,
    },
];

// How many steps have these answers, each without memory.
fn count_refused(
    alloc: Global,
    held: &mut Held,
    world: &mut Ring,
    steps: &[Step],
    answers: &[Answer],
) -> usize {
    for (k, (step, answer)) in steps.iter().zip(answers).enumerate() {
        if !exhaust(alloc, held) || world.step(alloc, step) != *answer {
            return k;
        }
    }
    steps.len()
}

// The key of the last committed turn.
fn last_committed(world: &Ring) -> Option<Key> {
    let turned = world.committed().peek_last()?;
    Some(turned.key)
}

fn assert_row(rt: &(impl Abort + AllocGlobal), held: &mut Held, row: Row) {
    let mut world = start(rt.alloc()).expect(rt, "memory for a world");
    let mut twin = start(rt.alloc()).expect(rt, "memory for a world");
    run(rt, &mut world, row.before);
    run(rt, &mut twin, row.before);
    run(rt, &mut twin, row.steps);
    let steps = steps_of(rt, &world, row.steps);
    let right = count_refused(rt.alloc(), held, &mut world, steps.as_slice(), &row.answers);
    assert_eq!(rt; right, row.answers.len());
    assert!(rt; world.gvt() == row.time && last_committed(&world) == Some(row.last));
    assert!(rt; world == twin);
    assert!(rt; world.step(rt.alloc(), &Step::Commit(Bound::End)) == Err(AheadOfTime));
    held.clear();
    drop(steps);
    drop(world);
    drop(twin);
}

#[test]
fn steps_but_processing_take_no_memory(rt: HostRuntime) {
    let mut held = room(rt.alloc()).expect(&rt, "room for blocks");
    for row in &ROWS {
        assert_row(&rt, &mut held, *row);
    }
    drop(held);
}

// Both components do their first entries, a straggler comes, and all is done and committed.
const ALL: &str =
    "process 1\nprocess 1\nprocess 0\ndeliver + 1 2 0 0 pass(1)\nprocess 1\nprocess 1\ndeliver + 0 3 1 1 pass(0)\nprocess 0\nprocess 0\ndeliver + 1 4 0 1 pass(1)\nprocess 1\ncommit end\n";

// How many of the answers are those of a world in which the steps that are refused their memory are left out.
fn count_as_twin(alloc: Global, twin: &mut Ring, steps: &[Step], answers: &[Answer]) -> usize {
    for (k, (step, answer)) in steps.iter().zip(answers).enumerate() {
        let is_left_out = *answer == Err(StepRefused::NoMemory);
        if !is_left_out && twin.step(alloc, step) != *answer {
            return k;
        }
    }
    answers.len()
}

#[test]
fn a_refused_list_of_steps_does_none(rt: HostRuntime) {
    let mut held = room(rt.alloc()).expect(&rt, "room for blocks");
    let mut world = start(rt.alloc()).expect(&rt, "memory for a world");
    let mut twin = start(rt.alloc()).expect(&rt, "memory for a world");
    let steps = steps_of(&rt, &world, ALL);
    let how = refuse(rt.alloc(), &mut held);
    let first = world.run(rt.alloc(), steps.as_slice());
    let is_kept = first.is_ok() || world == twin;
    serve(rt.alloc(), &mut held);
    assert!(rt; is_kept && how != Refused::None);
    let answers = match first {
        Ok(answers) => {
            assert!(rt; how == Refused::One);
            answers
        }
        Err(refused) => {
            assert_eq!(rt; refused.number(), 1);
            let answers = world.run(rt.alloc(), steps.as_slice());
            answers.expect(&rt, "memory for answers")
        }
    };
    let right = count_as_twin(rt.alloc(), &mut twin, steps.as_slice(), answers.as_slice());
    assert_eq!(rt; right, steps.len());
    assert!(rt; world == twin);
    drop(held);
    drop(answers);
    drop(steps);
    drop(world);
    drop(twin);
}

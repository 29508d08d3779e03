//! What the threads of a run have that has all components in one group: one draws turns, one takes them, and the calling thread writes them.
ghost use Rattle.std.specs.Prelude.{◌≡◌, IfOk};
ghost use Rattle.std.specs.Arc.{arc_value};
ghost use Rattle.workers.specs.Alone.{IsDrawerOf, IsTakerOf, IsWriterOf};

use crate::shared::Ends;
use boards::{Board, Made, Pass, Sectioned};
use lone_group::{Handover, LoneGroup};
use reference::Agenda;
use std::alloc::Global;
use std::sync::atomic::AtomicU64;
use std::sync::{Arc, Wait};
use steering::Pace;
use task_seed::{Setup, Turns};
use terms::NoMemory;

// What they hand each other, which one of them has at a time.
#[derive(Drop)]
pub(crate) struct Passed<T: Turns> {
    pub(crate) inside: Box<Handover<T>>,
}

impl<T: Turns> Sectioned<Setup<T>, u16> for Passed<T> {
    ghost use Rattle.std.specs.Prelude.{[], ◌∷◌};

    ghost kind_of = { λ passed. passed.inside.value.setup };

    ghost sections_of = { λ passed. 0 ∷ 0 ∷ [] };
}

// What they share: also how many lists of drawn turns wait, and how many batches do; and how many microseconds the one slept that takes turns.
#[derive(Drop)]
pub(crate) struct Relay<T: Turns> {
    pub(crate) board: Board<Passed<T>, Setup<T>, u16>,
    pub(crate) ends: Ends,
    pub(crate) drawn: AtomicU64,
    pub(crate) batches: AtomicU64,
    pub(crate) waited: AtomicU64,
}

// What the one has that draws turns.
#[derive(Drop)]
pub(crate) struct Drawer<T: Turns> {
    pub(crate) pass: Pass<Passed<T>, Setup<T>, u16>,
    pub(crate) agenda: Agenda<T>,
    pub(crate) pace: Pace,
}

// What the one has that takes turns.
#[derive(Drop)]
pub(crate) struct Taker<T: Turns> {
    pub(crate) pass: Pass<Passed<T>, Setup<T>, u16>,
    pub(crate) group: LoneGroup<T>,
    pub(crate) pace: Pace,
}

// What the calling thread has.
#[derive(Drop)]
pub(crate) struct Writer<T: Turns> {
    pub(crate) pass: Pass<Passed<T>, Setup<T>, u16>,
    pub(crate) pace: Pace,
}

// What the threads have that are started.
#[derive(Drop)]
pub(crate) struct Team<T: Turns> {
    pub(crate) drawer: Drawer<T>,
    pub(crate) taker: Taker<T>,
}

// All of it.
#[derive(Drop)]
pub(crate) struct Alone<T: Turns> {
    pub(crate) relay: Relay<T>,
    pub(crate) team: Team<T>,
    pub(crate) writer: Writer<T>,
}

// Makes it, before the first turn.
pub(crate) fn start_alone<T: Turns, R: Wait>(
    rt: &R,
    alloc: Global,
    setup: &Arc<Setup<T>>,
    budget: u32,
) -> Result<Alone<T>, NoMemory>
    ensures drawer { IfOk result (λ all. IsDrawerOf all.relay all.team.drawer) }
    ensures taker { IfOk result (λ all. IsTakerOf all.relay all.team.taker) }
    ensures writer { IfOk result
        (λ all. IsWriterOf all.relay (arc_value setup.now) all.writer) }
{
    let own = Arc::try_clone(setup)?;
    let agenda = Agenda::new(alloc, own)?;
    let own = Arc::try_clone(setup)?;
    let group = LoneGroup::new(alloc, own, agenda.next())?;
    let own = Arc::try_clone(setup)?;
    let inside = Box::new(alloc, Handover::new(alloc, own))?;
    let Made {
        board,
        mut passes,
        reader,
    } = Board::new(rt, alloc, Passed { inside }, 2)?;
    let Some(one) = passes.pop() else {
        unreachable!()
    };
    let Some(other) = passes.pop() else {
        unreachable!()
    };
    let pace = Pace::new(budget);
    Ok(Alone {
        relay: Relay {
            board,
            ends: Ends::new(false),
            drawn: AtomicU64::new(0),
            batches: AtomicU64::new(0),
            waited: AtomicU64::new(0),
        },
        team: Team {
            drawer: Drawer {
                pass: one,
                agenda,
                pace,
            },
            taker: Taker {
                pass: other,
                group,
                pace,
            },
        },
        writer: Writer { pass: reader, pace },
    })
}

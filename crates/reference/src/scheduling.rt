//! All turns of a setup.
ghost use Rattle.std.specs.Prelude.{◌≡◌, [], IfOk};
ghost use Rattle.task_seed.specs.Setups.{system, plan_of};
ghost use Rattle.task_seed.specs.Machines.{machine, end_rank};
ghost use Rattle.task_seed.specs.Taken.{turns_of};
ghost use Rattle.virtual_time.specs.Reference.{IsReference, reference_below};
ghost use Rattle.reference.specs.Clocks.{AreClocks};
ghost use Rattle.plans.specs.Plans.{composition};
ghost use Rattle.reference.specs.Memos.{AreMemos};
ghost use Rattle.reference.specs.Standing.{taken_at, IsBeforeLeast};
ghost use Rattle.schedules.specs.Schedules.{AreAllTurns, KeysFit};

use crate::frontier::Frontier;
use event_keys::Turned;
use schedules::fits;
use schedules::laws::turns_are_schedule;
use std::alloc::Global;
use task_seed::laws::machine_is_lawful;
use task_seed::{Setup, Turns};
use terms::{Action, NoMemory, State};
use virtual_time::reference::{reference_is_complete, reference_is_one};

// All turns from the start on, in order.
fn take_all<T: Turns>(
    alloc: Global,
    setup: &Setup<T>,
    frontier: &mut Frontier,
) -> Result<Vec<Turned>, NoMemory>
    requires stands { IsBeforeLeast
        (system T.turn_of setup.now) frontier.old.places.items frontier.old.numbers.items
        frontier.old.states.items }
    requires clocks { AreClocks T.turn_of setup.now frontier.old.numbers.items
        frontier.old.clocks.clocks.items }
    requires memos { AreMemos (composition (plan_of setup.now)) frontier.old.states.items
        frontier.old.memos.items }
    requires none { taken_at
        (system T.turn_of setup.now) frontier.old.places.items frontier.old.numbers.items ≡ [] }
    ensures reference { IfOk result (λ turns. IsReference
        (machine (system T.turn_of setup.now)) end_rank (turns_of turns.items)) }
    ensures turns { IfOk result (λ turns. turns_of turns.items
        ≡ reference_below (machine (system T.turn_of setup.now)) end_rank) }
    ensures keys { IfOk result (λ turns. KeysFit turns.items) }
{
    machine_is_lawful(setup);
    reference_is_one::<State, Action>();
    reference_is_complete::<State, Action>();
    let mut turns = Vec::new(alloc);
    while let Some(turned) = frontier.take_next(alloc, setup)? {
        fits(turned.key);
        turns.push(turned)?;
    }
    Ok(turns)
}

/// All turns up to the horizon, in the order of their keys. One state of each component is kept, and all turns.
pub fn schedule<T: Turns>(alloc: Global, setup: &Setup<T>) -> Result<Vec<Turned>, NoMemory>
    ensures reference { IfOk result (λ turns. IsReference
        (machine (system T.turn_of setup.now)) end_rank (turns_of turns.items)) }
    ensures all { IfOk result (λ turns. AreAllTurns (plan_of setup.now)
        (system T.turn_of setup.now) turns.items) }
{
    turns_are_schedule(setup);
    let mut frontier = Frontier::start(alloc, setup)?;
    let turns = take_all(alloc, setup, &mut frontier)?;
    Ok(turns)
}

//! The laws of the simulator's turns. Each function does nothing: its contract is the law.
ghost use Rattle.std.specs.Prelude.{◌≡◌, ℕ, List};
ghost use Rattle.std.specs.List.{AllByRecursion};
ghost use Rattle.event_keys.specs.declared.outcome.Turned.{Turned};
ghost use Rattle.virtual_time.specs.Reference.{IsReference};
ghost use Rattle.plans.specs.declared.plan.Plan.{Plan};
ghost use Rattle.plans.specs.Plans.{composition};
ghost use Rattle.task_seed.specs.Machines.{machine};
ghost use Rattle.task_seed.specs.Setups.{plan_of, system};
ghost use Rattle.task_seed.specs.Taken.{turns_of};
ghost use Rattle.task_seed.specs.Turning.{System};
ghost use Rattle.schedules.specs.Schedules.{AreAllTurns, HasSchedules, HasSchedulesBelow, KeysFit};
ghost use Rattle.schedules.specs.Turns.{IsOwnTurn};

use plans::laws::{compatible, turn_is_step};
use task_seed::laws::machine_is_lawful;
use task_seed::{Setup, Turns};
use terms::{Action, State};
use virtual_time::reference::reference_is_complete;

/// The actions of all turns of the simulator below a bound are a schedule of the composition, in Lynch's words.
pub fn turns_are_schedule<T: Turns>(setup: &Setup<T>)
    ensures reference { HasSchedules (plan_of setup.now) (system T.turn_of setup.now) }
    ensures below { HasSchedulesBelow (plan_of setup.now) (system T.turn_of setup.now) }
{
    machine_is_lawful(setup);
    reference_is_complete::<State, Action>();
    compatible(setup.plan());
    turn_is_step(setup.plan());
}

/// A setup has one list of all turns. So whatever writes all of them by one definition of their lines writes one text.
pub fn turns_are_one()
    ensures { (plan : Plan) (s : System) (turns others : List Turned) → AreAllTurns plan s turns
        → AreAllTurns plan s others → turns ≡ others }
{}

/// The turns of the simulator below a bound are turns of its components: these exist, and each action is one that a turn of the component takes.
pub fn turns_are_own<T: Turns>(setup: &Setup<T>)
    ensures reference { (turns : List Turned) (b : ℕ)
        → IsReference (machine (system T.turn_of setup.now)) b (turns_of turns) → KeysFit turns
        → AllByRecursion (IsOwnTurn (composition (plan_of setup.now))) turns }
    ensures all { (turns : List Turned)
        → AreAllTurns (plan_of setup.now) (system T.turn_of setup.now) turns
        → AllByRecursion (IsOwnTurn (composition (plan_of setup.now))) turns }
{
    machine_is_lawful(setup);
    reference_is_complete::<State, Action>();
}

//! What the theory says of a setup. The call does nothing.
ghost use Rattle.std.specs.Prelude.{length};
ghost use Rattle.plans.specs.Plans.{composition};
ghost use Rattle.task_seed.specs.Setups.{plan_of};
ghost use Rattle.rollback.specs.ComponentView.{machine_of};
ghost use Rattle.world.specs.MachineLaws.{Laws};

use rollback::laws::{least_law, leaving_law, next_law};
use task_seed::laws::machine_is_lawful;
use task_seed::{Setup, Turns};
use terms::{Action, State};
use virtual_time::reference::{reference_is_complete, reference_is_counted, reference_is_one};
use virtual_time::worlds::{commit_is_exact, committed_is_reference, virtual_time_rises};

pub(crate) fn laws<T: Turns>(setup: &Setup<T>)
    ensures { Laws (machine_of T.turn_of setup.now) (length (composition (plan_of setup.now))) }
{
    machine_is_lawful(setup);
    next_law::<State>();
    least_law();
    leaving_law();
    committed_is_reference::<State, Action>();
    virtual_time_rises::<State, Action>();
    commit_is_exact::<State, Action>();
    reference_is_one::<State, Action>();
    reference_is_complete::<State, Action>();
    reference_is_counted::<State, Action>();
    let _count = setup.plan().components();
}

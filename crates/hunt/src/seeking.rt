//! The turns of one schedule, up to the first that does what is wanted.
ghost use Rattle.std.specs.Prelude.{◌≡◌, [], IfNone, IfOk, IfSome, MatchOption};
ghost use Rattle.task_seed.specs.Setups.{plan_of, system};
ghost use Rattle.hunt.specs.Known.{IsKnown};
ghost use Rattle.hunt.specs.Sightings.{NeverOccurs, Occurs};

use crate::wanted::Wanted;
use event_keys::Turned;
use reference::Reference;
use schedules::fits;
use schedules::laws::turns_are_schedule;
use std::alloc::Global;
use task_seed::laws::machine_is_lawful;
use task_seed::{Setup, Turns};
use terms::{Action, NoMemory, State};
use virtual_time::reference::{reference_is_complete, reference_is_one};

// What is known of the turns of a setup. The call does nothing.
pub(crate) fn known_law<T: Turns>(setup: &Setup<T>)
    ensures { IsKnown (plan_of setup.now) (system T.turn_of setup.now) }
{
    machine_is_lawful(setup);
    turns_are_schedule(setup);
    reference_is_one::<State, Action>();
    reference_is_complete::<State, Action>();
}

/// The first turns of a simulator that has taken none, up to the first that does what is wanted, if
/// one does. They are kept until then.
pub(crate) fn seek<T: Turns>(
    alloc: Global,
    reference: &mut Reference<T>,
    wanted: &Wanted,
) -> Result<Option<Vec<Turned>>, NoMemory>
    requires known { IsKnown (plan_of reference.old.setup) (system T.turn_of reference.old.setup) }
    requires start { reference.old.taken ≡ [] }
    ensures setup { reference.new.setup ≡ reference.old.setup }
    ensures found { IfOk result (λ found. IfSome found
        (λ turns. Occurs (plan_of reference.old.setup)
        (system T.turn_of reference.old.setup) wanted.now turns.items)) }
    ensures none { IfOk result (λ found. IfNone found (NeverOccurs (plan_of reference.old.setup)
        (system T.turn_of reference.old.setup) wanted.now)) }
{
    let mut turns = Vec::new(alloc);
    while let Some(turned) = reference.step(alloc)? {
        fits(turned.key);
        let seen = wanted.saw(&turned);
        turns.push(turned)?;
        if seen {
            return Ok(Some(turns));
        }
    }
    Ok(None)
}

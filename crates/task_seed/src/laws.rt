//! The machine of a setup, on which the theory of virtual time stands.
ghost use Rattle.std.specs.Prelude.{◌≡◌, ℕ, true, length};
ghost use Rattle.virtual_time.specs.Machine.{Lawful, HasCount};
ghost use Rattle.plans.specs.Plans.{composition};
ghost use Rattle.task_seed.specs.AnyLaws.{same_any};
ghost use Rattle.task_seed.specs.Machines.{machine};
ghost use Rattle.task_seed.specs.Setups.{system, plan_of, source_of, horizon_of};

use crate::any_turns::AnyTurns;
use crate::setup::Setup;
use crate::turns::Turns;
use plans::Plan;

/// A setup's machine meets the laws of a machine, with as many components as its composition has: keys rise up to the end
/// and tell their component, nobody receives its own action, and actions have one total order.
pub fn machine_is_lawful<T: Turns>(setup: &Setup<T>)
    ensures lawful { Lawful (machine (system T.turn_of setup.now)) }
    ensures counted { HasCount (machine (system T.turn_of setup.now))
        (length (composition (plan_of setup.now))) }
{}

/// Two setups are equal exactly where their plans, their turns and their horizons are; and then their systems have the
/// same composition, the same turns and the same horizon.
pub fn equal_setup_law<T: Turns>(a: &Setup<T>, b: &Setup<T>)
    ensures parts { ⟦<Setup<T> as PartialEq>⟧.eq a.now b.now ≡ true
        → (⟦<Plan as PartialEq>⟧.eq (plan_of a.now) (plan_of b.now) ≡ true)
        × (T.eq (source_of a.now) (source_of b.now) ≡ true)
        × (horizon_of a.now ≡ horizon_of b.now) }
    ensures equal { (⟦<Plan as PartialEq>⟧.eq (plan_of a.now) (plan_of b.now) ≡ true)
        × (T.eq (source_of a.now) (source_of b.now) ≡ true) × (horizon_of a.now ≡ horizon_of b.now)
        → ⟦<Setup<T> as PartialEq>⟧.eq a.now b.now ≡ true }
    ensures composition { ⟦<Setup<T> as PartialEq>⟧.eq a.now b.now ≡ true
        → (system T.turn_of a.now).composition ≡ (system T.turn_of b.now).composition }
    ensures turns { ⟦<Setup<T> as PartialEq>⟧.eq a.now b.now ≡ true → (i n : ℕ)
        → (system T.turn_of a.now).turn i n ≡ (system T.turn_of b.now).turn i n }
    ensures horizon { ⟦<Setup<T> as PartialEq>⟧.eq a.now b.now ≡ true
        → (system T.turn_of a.now).horizon ≡ (system T.turn_of b.now).horizon }
{}

/// Turns of a seed or of a table are equal exactly where both are of one kind and those inside are equal.
pub fn equal_any_law(a: &AnyTurns, b: &AnyTurns)
    ensures { ⟦<AnyTurns as PartialEq>⟧.eq a.now b.now ≡ same_any a.now b.now }
{}

//! Laws of compositions that the crates above cite.
ghost use Rattle.std.specs.Prelude.{◌≡◌, ℕ, List, true, false, Some, Contains};
ghost use Rattle.terms.specs.Named.{Named};
ghost use Rattle.io_automata.specs.Automata.{Instance};
ghost use Rattle.io_automata.specs.Compatible.{IsCompatible};
ghost use Rattle.plans.specs.Plans.{composition};
ghost use Rattle.io_automata.specs.Signatures.{inputs, receives, receivers_of};
ghost use Rattle.io_automata.specs.Receivers.{Rising, IsIn};
ghost use Rattle.io_automata.specs.Steps.{Joint, applied};
ghost use Rattle.io_automata.specs.Enabling.{IsEnabled, IsOnce};
ghost use Rattle.io_automata.specs.Outcomes.{outcome_of, enabled_of};
ghost use Rattle.io_automata.specs.WellFormed.{IsWellFormed};
ghost use Rattle.terms.specs.Datum.{Datum};
ghost use Rattle.plans.specs.Plans.{action_texts, hidden_marks, member_texts};

use crate::plan::Plan;

/// The components of a plan are compatible, each action of a component has one entry, and the tasks of a component are a
/// partition of what it controls.
pub fn compatible(plan: &Plan)
    ensures compatible { IsCompatible (composition plan.now) }
    ensures formed { IsWellFormed (composition plan.now) }
{}

/// The action that a turn takes is a joint step of the composition, whatever states the others are in.
pub fn turn_is_step(plan: &Plan)
    ensures { (i task choice : ℕ) (state : ℕ → List Datum) (action : Named)
        → outcome_of (composition plan.now) i task choice (state i) ≡ Some action
        → Joint (composition plan.now) state action
        (λ j. applied (composition plan.now) j action (state j)) }
{}

/// Each action that an entry of a task stands for, and whose precondition holds, is listed as enabled, and listed once;
/// nothing else is listed.
pub fn enabled_is_complete(plan: &Plan)
    ensures once { (i task : ℕ) (state : List Datum) (action : Named)
        → IsEnabled (composition plan.now) i task state action
        → IsOnce action (enabled_of (composition plan.now) i task state) }
    ensures only { (i task : ℕ) (state : List Datum) (action : Named)
        → Contains (enabled_of (composition plan.now) i task state) action
        → IsEnabled (composition plan.now) i task state action }
{}

/// Nobody receives its own action; each receiver is listed once and in order; the receivers are all other components that
/// have the action as an input, and no others.
pub fn receivers_law()
    ensures own { (composition : List Instance) (action : Named) (sender : ℕ)
        → receives composition sender action sender ≡ false }
    ensures once { (composition : List Instance) (action : Named) (sender : ℕ)
        → Rising 0 (receivers_of composition action sender) }
    ensures all { (composition : List Instance) (action : Named) (sender j : ℕ)
        → IsIn j (receivers_of composition action sender) ≡ receives composition sender action j }
    ensures input { (composition : List Instance) (action : Named) (sender j : ℕ)
        → IsIn j (receivers_of composition action sender) ≡ true
        → inputs composition j action ≡ true }
{}

/// Two plans are equal exactly where they are the same composition, with the same texts of actions and of members, and where outputs of the
/// same names are hidden.
pub fn equal_law(a: &Plan, b: &Plan)
    ensures same { ⟦<Plan as PartialEq>⟧.eq a.now b.now ≡ true
        → (composition a.now ≡ composition b.now) × (action_texts a.now ≡ action_texts b.now)
        × (member_texts a.now ≡ member_texts b.now) × (hidden_marks a.now ≡ hidden_marks b.now) }
    ensures equal { (composition a.now ≡ composition b.now)
        × (action_texts a.now ≡ action_texts b.now) × (member_texts a.now ≡ member_texts b.now)
        × (hidden_marks a.now ≡ hidden_marks b.now) → ⟦<Plan as PartialEq>⟧.eq a.now b.now ≡ true }
{}

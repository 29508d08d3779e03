//! A component of a group: its state, and what came to it and isn't taken in.
ghost use Rattle.std.specs.Prelude.{◌≡◌, ◌<◌, ◌≤◌, ◌++◌, ◌∷◌, [], IfOk, IfSome, List, None, OnOk};
ghost use Rattle.event_keys.specs.Ranks.{rank};
ghost use Rattle.io_automata.specs.Steps.{applied};
ghost use Rattle.plans.specs.Memos.{IsMemo};
ghost use Rattle.plans.specs.Plans.{composition};
ghost use Rattle.reference.specs.Queues.{IsSmall};
ghost use Rattle.shares.specs.Turns.{HasTurn, IsComing};
ghost use Rattle.task_seed.specs.Setups.{plan_of, system};
ghost use Rattle.sure_groups.specs.Inputs.{IsOneOf, Knows};
ghost use Rattle.sure_groups.specs.Members.{IsMember};
ghost use Rattle.sure_groups.specs.declared.input.Input.{Input as Seen};

use crate::hearing::Hearing;
use crate::input::Input;
use event_keys::Key;
use plans::{Ask, Memo, Plan};
use reference::Due;
use std::alloc::Global;
use task_seed::laws::machine_is_lawful;
use task_seed::{Setup, Turns};
use terms::{Action, NoMemory};
use undo_records::Store;

/// A component of a group: its state, what is known of its tasks in that state, and the inputs that wait, the greatest key first.
#[derive(Drop)]
pub(crate) struct Member {
    pub(crate) state: Store,
    pub(crate) memo: Memo,
    pub(crate) pending: Vec<Input>,
}

// The input with the least key, if that is below a key.
fn next_below(pending: &mut Vec<Input>, key: Key) -> Option<Input>
    ensures some { IfSome result (λ x. (pending.old.items ≡ pending.new.items ++ x ∷ [])
        × (rank x.key < rank key)) }
    ensures none { result ≡ None → (pending.new.items ≡ pending.old.items)
        × ((front : List Seen) (x : Seen) → pending.old.items ≡ front ++ x ∷ []
        → rank key ≤ rank x.key) }
{
    let is_due = match pending.last() {
        None => false,
        Some(input) => input.key < key,
    };
    if is_due { pending.pop() } else { None }
}

// The component's state changes by an action that it has.
#[inline(always)]
pub(crate) fn change(
    alloc: Global,
    plan: &Plan,
    j: u16,
    action: &Action,
    member: &mut Member,
) -> Result<(), NoMemory>
    requires plain { member.old.state.below ≡ [] }
    requires memo { IsMemo (composition plan.now) j member.old.state.current member.old.memo }
    ensures state { OnOk result (member.new.state.current
        ≡ applied (composition plan.now) j action.now member.old.state.current) }
    ensures plain { OnOk result (member.new.state.below ≡ []) }
    ensures memo { OnOk result
        (IsMemo (composition plan.now) j member.new.state.current member.new.memo) }
    ensures pending { member.new.pending ≡ member.old.pending }
{
    member.state.mark(alloc)?;
    plan.apply(alloc, j, action, &mut member.state)?;
    if !member.state.is_untouched() {
        member.memo.forget();
    }
    member.state.forget_first(1);
    Ok(())
}

// What waits below a key is taken in, in the order of keys.
pub(crate) fn take_in<T: Turns>(
    alloc: Global,
    setup: &Setup<T>,
    hearing: &Hearing,
    key: Key,
    member: &mut Member,
) -> Result<(), NoMemory>
    requires small { IsSmall key }
    requires member { IsMember (system T.turn_of setup.now) hearing.now.groups.items
        hearing.now.heard.items (rank key) key.component member.old }
    requires known { Knows (system T.turn_of setup.now) hearing.now.groups.items
        hearing.now.heard.items key.component (rank key) }
    ensures member { OnOk result (IsMember (system T.turn_of setup.now) hearing.now.groups.items
        hearing.now.heard.items (rank key) key.component member.new) }
    ensures none { OnOk result
        ((x : Seen) → IsOneOf member.new.pending.items x → rank key ≤ rank x.key) }
{
    machine_is_lawful(setup);
    let _ = hearing;
    while let Some(input) = next_below(&mut member.pending, key) {
        change(alloc, setup.plan(), key.component, &input.action, member)?;
    }
    Ok(())
}

// What comes of a turn before which all that comes to its component is taken in.
pub(crate) fn find<T: Turns>(
    alloc: Global,
    setup: &Setup<T>,
    hearing: &Hearing,
    due: Due,
    member: &mut Member,
) -> Result<Option<Action>, NoMemory>
    requires coming { IsComing (system T.turn_of setup.now) due }
    requires member { IsMember (system T.turn_of setup.now) hearing.now.groups.items
        hearing.now.heard.items (rank due.key) due.key.component member.old }
    requires known { Knows (system T.turn_of setup.now) hearing.now.groups.items
        hearing.now.heard.items due.key.component (rank due.key) }
    requires none { (x : Seen) → IsOneOf member.old.pending.items x → rank due.key ≤ rank x.key }
    ensures found { IfOk result (HasTurn (system T.turn_of setup.now) (rank due.key)) }
    ensures member { OnOk result (IsMember (system T.turn_of setup.now) hearing.now.groups.items
        hearing.now.heard.items (rank due.key) due.key.component member.new) }
    ensures pending { member.new.pending ≡ member.old.pending }
{
    machine_is_lawful(setup);
    let _ = hearing;
    let ask = Ask {
        component: due.key.component,
        task: due.turn.task,
        choice: due.turn.choice,
    };
    let mut found = None;
    setup
        .plan()
        .outcome_known(alloc, ask, &member.state, &mut member.memo, &mut found)?;
    Ok(found)
}

//! An action goes to all that take it.
ghost use Rattle.std.specs.Prelude.{◌≡◌, ◌<◌, ◌≤◌, ◌++◌, ◌∷◌, ◌⊎◌, [], ℕ, List, None, IfSome, OnOk, drop, false, length, take, true};
ghost use Rattle.event_keys.specs.Ranks.{rank, owner_of};
ghost use Rattle.plans.specs.Plans.{composition};
ghost use Rattle.reference.specs.Queues.{IsSmall};
ghost use Rattle.shares.specs.Turns.{HasTurn, group_at};
ghost use Rattle.task_seed.specs.Setups.{plan_of, system};
ghost use Rattle.sure_groups.specs.Inputs.{AreFalling, Comes, IsOneOf};
ghost use Rattle.sure_groups.specs.Passing.{HasActed, IsPassedOn, receivers_in};
ghost use Rattle.sure_groups.specs.Sure.{AreBags, AreMembers};
ghost use Rattle.sure_groups.specs.declared.member.Member.{Member as MemberSeen};
ghost use Rattle.sure_groups.specs.declared.input.Input.{Input as Seen};

use crate::bags::Bag;
use crate::hearing::Hearing;
use crate::input::Input;
use crate::member::{Member, change};
use event_keys::Key;
use event_keys::laws::key_rank_law;
use lone_group::Slot;
use std::alloc::Global;
use task_seed::{Setup, Turns};
use terms::NoMemory;

// Whether a key is below another.
#[inline(always)]
fn is_less(one: Key, other: Key) -> bool
    ensures less { result ≡ true → rank one < rank other }
    ensures not { result ≡ false → rank other ≤ rank one }
{
    key_rank_law(one, other);
    one < other
}

// Where an input of this key stands among those that wait, or none where one of this key waits already.
fn place_of(pending: &[Input], key: Key) -> Option<usize>
    ensures there { result ≡ None
        → (x : Seen) × IsOneOf pending.now x × (rank x.key ≡ rank key) }
    ensures within { IfSome result (λ at. at ≤ length pending.now) }
    ensures greater { IfSome result
        (λ at. (y : Seen) → IsOneOf (take at pending.now) y → rank key < rank y.key) }
    ensures lesser { IfSome result (λ at. AreFalling pending.now → (y : Seen)
        → IsOneOf (drop at pending.now) y → rank y.key < rank key) }
{
    for at in 0..pending.len() {
        let waiting = pending[at].key;
        if is_less(waiting, key) {
            return Some(at);
        }
        if !is_less(key, waiting) {
            return None;
        }
    }
    Some(pending.len())
}

// Puts an input among those that wait, the greatest key first. One that waits already isn't put there again.
pub(crate) fn put_input(pending: &mut Vec<Input>, input: Input) -> Result<(), NoMemory>
    ensures order { OnOk result (AreFalling pending.old.items → AreFalling pending.new.items) }
    ensures kept { OnOk result ((y : Seen) → IsOneOf pending.old.items y
        → IsOneOf pending.new.items y) }
    ensures only { OnOk result ((y : Seen) → IsOneOf pending.new.items y
        → IsOneOf pending.old.items y ⊎ (y ≡ input)) }
    ensures there { OnOk result
        ((x : Seen) × IsOneOf pending.new.items x × (rank x.key ≡ rank input.key)) }
{
    let Some(at) = place_of(pending, input.key) else {
        return Ok(());
    };
    pending.insert(at, input)?;
    Ok(())
}

#[inline(always)]
fn group_of(hearing: &Hearing, j: u16) -> u16
    requires { j < length hearing.now.groups.items }
    ensures { result ≡ group_at hearing.now.groups.items j }
{
    hearing.groups[usize::from(j)]
}

#[inline(always)]
fn is_own(hearing: &Hearing, group: u16) -> bool
    ensures own { result ≡ true → group ≡ hearing.now.me }
    ensures other { result ≡ false → group ≡ hearing.now.me → ⊥ }
{
    group == hearing.me
}

// An input for a component waits there, where that is of the group, and is gathered for its group else.
fn pass_one<T: Turns>(
    setup: &Setup<T>,
    hearing: &Hearing,
    input: Input,
    members: &mut [Member],
    bags: &mut [Bag],
) -> Result<(), NoMemory>
    requires comes { Comes (system T.turn_of setup.now) input.to (rank input.key) input.action }
    requires member { input.to < length members.old }
    requires every { length hearing.now.groups.items ≡ length members.old }
    requires group { group_at hearing.now.groups.items input.to < length bags.old }
    requires from { group_at hearing.now.groups.items (owner_of (rank input.key))
        ≡ hearing.now.me }
    ensures passed { OnOk result ((i : ℕ) (done : List ℕ) (olds : List MemberSeen)
        → (input.to ≡ i → ⊥)
        → IsPassedOn (system T.turn_of setup.now) hearing.now.groups.items hearing.now.heard.items
        hearing.now.me (rank input.key) i done olds members.old bags.old
        → IsPassedOn (system T.turn_of setup.now) hearing.now.groups.items hearing.now.heard.items
        hearing.now.me (rank input.key) i (done ++ input.to ∷ []) olds members.new bags.new) }
    ensures many { length members.new ≡ length members.old }
    ensures bags { length bags.new ≡ length bags.old }
{
    let _ = setup;
    let group = group_of(hearing, input.to);
    if is_own(hearing, group) {
        return put_input(&mut members[usize::from(input.to)].pending, input);
    }
    bags[usize::from(group)].inputs.push(input)?;
    Ok(())
}

// The action of a turn, if there is one, goes to all that take it as an input.
fn pass<T: Turns>(
    alloc: Global,
    setup: &Setup<T>,
    hearing: &Hearing,
    slot: &Slot,
    members: &mut [Member],
    bags: &mut [Bag],
) -> Result<(), NoMemory>
    requires small { IsSmall slot.now.key }
    requires comes { HasTurn (system T.turn_of setup.now) (rank slot.now.key) slot.now.found }
    requires many { length members.old ≡ length (composition (plan_of setup.now)) }
    requires every { length hearing.now.groups.items ≡ length members.old }
    requires groups { (j : ℕ) → j < length hearing.now.groups.items
        → group_at hearing.now.groups.items j < length bags.old }
    requires from { group_at hearing.now.groups.items slot.now.key.component ≡ hearing.now.me }
    requires members { AreMembers (system T.turn_of setup.now) hearing.now.groups.items
        hearing.now.heard.items hearing.now.me (rank slot.now.key) members.old }
    requires bags { AreBags (system T.turn_of setup.now) hearing.now.groups.items hearing.now.me
        (rank slot.now.key) bags.old }
    ensures passed { OnOk result (IsPassedOn (system T.turn_of setup.now)
        hearing.now.groups.items hearing.now.heard.items hearing.now.me (rank slot.now.key)
        slot.now.key.component
        (receivers_in (composition (plan_of setup.now)) slot.now.key.component slot.now.found)
        members.old members.new bags.new) }
    ensures many { length members.new ≡ length members.old }
    ensures count { length bags.new ≡ length bags.old }
{
    let Some(action) = slot.found.as_ref() else {
        return Ok(());
    };
    let receivers = setup.plan().receivers(alloc, action, slot.key.component)?;
    let among = receivers.as_slice();
    for at in 0..among.len() {
        let input = Input {
            to: among[at],
            key: slot.key,
            action: action.clone()?,
        };
        pass_one(setup, hearing, input, members, bags)?;
    }
    Ok(())
}

// A turn is taken by its component, and its action goes to all that take it.
pub(crate) fn act<T: Turns>(
    alloc: Global,
    setup: &Setup<T>,
    hearing: &Hearing,
    slot: &Slot,
    members: &mut [Member],
    bags: &mut [Bag],
) -> Result<(), NoMemory>
    requires small { IsSmall slot.now.key }
    requires comes { HasTurn (system T.turn_of setup.now) (rank slot.now.key) slot.now.found }
    requires many { length members.old ≡ length (composition (plan_of setup.now)) }
    requires within { slot.now.key.component < length members.old }
    requires every { length hearing.now.groups.items ≡ length members.old }
    requires groups { (j : ℕ) → j < length hearing.now.groups.items
        → group_at hearing.now.groups.items j < length bags.old }
    requires from { group_at hearing.now.groups.items slot.now.key.component ≡ hearing.now.me }
    requires members { AreMembers (system T.turn_of setup.now) hearing.now.groups.items
        hearing.now.heard.items hearing.now.me (rank slot.now.key) members.old }
    requires bags { AreBags (system T.turn_of setup.now) hearing.now.groups.items hearing.now.me
        (rank slot.now.key) bags.old }
    ensures acted { OnOk result (HasActed (system T.turn_of setup.now)
        hearing.now.groups.items hearing.now.heard.items hearing.now.me (rank slot.now.key)
        slot.now.key.component slot.now.found members.old members.new bags.new) }
    ensures count { length bags.new ≡ length bags.old }
{
    pass(alloc, setup, hearing, slot, members, bags)?;
    let Some(action) = slot.found.as_ref() else {
        return Ok(());
    };
    let i = slot.key.component;
    change(alloc, setup.plan(), i, action, &mut members[usize::from(i)])
}

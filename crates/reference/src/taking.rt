//! Turns, and the components that take their actions.
ghost use Rattle.std.specs.Prelude.{◌≡◌, ◌<◌, [], ℕ, ◌⊎◌, true, None, Some, IfSome, OnOk, OnErr, length, option_map, slice_get};
ghost use Rattle.undo_records.specs.States.{States, undone, without_first};
ghost use Rattle.plans.specs.Plans.{composition};
ghost use Rattle.io_automata.specs.Receivers.{IsIn};
ghost use Rattle.task_seed.specs.Setups.{system, plan_of};
ghost use Rattle.task_seed.specs.Turning.{turn_in};
ghost use Rattle.task_seed.specs.Machines.{machine, turn_outcome};
ghost use Rattle.reference.specs.Memos.{AreMemos};
ghost use Rattle.reference.specs.Taking.{Distinct, IsPassed, AreMarked, holding, marking, other_than, reaching, released, joining};

use crate::memos::forget_touched;
use event_keys::Key;
use plans::{Ask, Memo, Plan};
use smallvec::SmallVec;
use std::alloc::Global;
use task_seed::{Setup, Turn, Turns};
use terms::{Action, NoMemory};
use undo_records::Store;

// Marks the state, and changes it by an action.
#[inline(always)]
fn advance(
    alloc: Global,
    plan: &Plan,
    i: u16,
    action: &Action,
    state: &mut Store,
) -> Result<(), NoMemory>
    ensures ok { OnOk result (state.new ≡ marking (composition plan.now) i action.now state.old) }
    ensures err { OnErr result (state.new ≡ state.old) }
{
    state.mark(alloc)?;
    if let Err(refused) = plan.apply(alloc, i, action, state) {
        state.undo();
        return Err(refused);
    }
    Ok(())
}

// Marks the state of component `j`, and changes it by an action of component `i`, which isn't `j`, if it takes it.
#[inline(always)]
fn reach(
    alloc: Global,
    plan: &Plan,
    i: u16,
    j: u16,
    action: &Action,
    state: &mut Store,
) -> Result<(), NoMemory>
    ensures ok { OnOk result (state.new
        ≡ reaching (composition plan.now) i action.now j state.old) }
    ensures err { OnErr result (state.new ≡ state.old) }
{
    if j == i {
        return Ok(());
    }
    state.mark(alloc)?;
    if let Err(refused) = plan.receive(alloc, j, action, state) {
        state.undo();
        return Err(refused);
    }
    Ok(())
}

// Undoes the last mark of each of these but `i`.
#[cold]
#[inline(never)]
fn take_back(i: u16, among: &[u16], states: &mut [Store])
    requires once { Distinct among.now }
    requires within { (j : ℕ) → IsIn j among.now ≡ true → j < length states.old }
    ensures { IsPassed (other_than i undone) among.now states.old states.new }
{
    for j in among {
        undo_other(i, *j, &mut states[usize::from(*j)]);
    }
}

fn undo_other(i: u16, j: u16, state: &mut Store)
    ensures { state.new ≡ other_than i undone j state.old }
{
    if j != i {
        state.undo();
    }
}

// Forgets the first mark of component `i` and of each of these others.
#[inline(always)]
fn forget_marks(i: u16, among: &[u16], states: &mut [Store])
    requires own { i < length states.old }
    requires once { Distinct among.now }
    requires within { (j : ℕ) → IsIn j among.now ≡ true → j < length states.old }
    requires marked { (j : ℕ) (state : States) → (j ≡ i) ⊎ (IsIn j among.now ≡ true)
        → slice_get states.old j ≡ Some state → 0 < length state.below }
    ensures each { (j : ℕ) → slice_get states.new j
        ≡ option_map (released i among.now j) (slice_get states.old j) }
    ensures many { length states.new ≡ length states.old }
{
    forget_others(i, among, states);
    states[usize::from(i)].forget_first(1);
}

// Forgets the first mark of each of these but `i`.
#[inline(always)]
fn forget_others(i: u16, among: &[u16], states: &mut [Store])
    requires once { Distinct among.now }
    requires within { (j : ℕ) → IsIn j among.now ≡ true → j < length states.old }
    requires marked { AreMarked i among.now states.old }
    ensures { IsPassed (other_than i (without_first 1)) among.now states.old states.new }
{
    for j in among {
        forget_other(i, *j, &mut states[usize::from(*j)]);
    }
}

#[inline(always)]
fn forget_other(i: u16, j: u16, state: &mut Store)
    requires { (j ≡ i → ⊥) → 0 < length state.old.below }
    ensures { state.new ≡ other_than i (without_first 1) j state.old }
{
    if j != i {
        state.forget_first(1);
    }
}

// An action of component `i` reaches others. Each one's state is marked before, so a refusal leaves the states as they were, and no
// state is copied.
#[inline(always)]
fn reach_all(
    alloc: Global,
    plan: &Plan,
    i: u16,
    action: &Action,
    among: &[u16],
    states: &mut [Store],
) -> Result<(), NoMemory>
    requires once { Distinct among.now }
    requires within { (j : ℕ) → IsIn j among.now ≡ true → j < length states.old }
    ensures ok { OnOk result (IsPassed (reaching (composition plan.now) i action.now) among.now
        states.old states.new) }
    ensures many { length states.new ≡ length states.old }
    ensures err { OnErr result (states.new ≡ states.old) }
{
    for (count, j) in among.iter().enumerate() {
        let place = usize::from(*j);
        if let Err(refused) = reach(alloc, plan, i, *j, action, &mut states[place]) {
            take_back(i, &among[..count], states);
            return Err(refused);
        }
    }
    Ok(())
}

// An action of component `i` is taken by it, and reaches others; the state of each is marked before. A refusal leaves the states as
// they were.
#[inline(always)]
fn take_action(
    alloc: Global,
    plan: &Plan,
    i: u16,
    action: &Action,
    among: &[u16],
    states: &mut [Store],
) -> Result<(), NoMemory>
    requires own { i < length states.old }
    requires once { Distinct among.now }
    requires within { (j : ℕ) → IsIn j among.now ≡ true → j < length states.old }
    ensures ok { OnOk result ((j : ℕ) → slice_get states.new j ≡ option_map
        (holding (composition plan.now) i action.now among.now j) (slice_get states.old j)) }
    ensures many { length states.new ≡ length states.old }
    ensures err { OnErr result (states.new ≡ states.old) }
{
    let own = usize::from(i);
    advance(alloc, plan, i, action, &mut states[own])?;
    if let Err(refused) = reach_all(alloc, plan, i, action, among, states) {
        states[own].undo();
        return Err(refused);
    }
    Ok(())
}

/// The turn of a key, which is this one, is taken: its component's action, if it has one enabled in its state, by it and by
/// each receiver. The action stands in `found` then. A refusal leaves the states as they were, and nothing there. What is found of a
/// task is known until its component's state changes.
#[inline(always)]
pub(crate) fn take_turn<T: Turns>(
    alloc: Global,
    setup: &Setup<T>,
    key: Key,
    turn: Turn,
    states: &mut [Store],
    memos: &mut [Memo],
    found: &mut Option<Action>,
) -> Result<(), NoMemory>
    requires turn { Some turn ≡ turn_in (system T.turn_of setup.now) key.component key.number }
    requires within { key.component < length (composition (plan_of setup.now)) }
    requires many { length states.old ≡ length (composition (plan_of setup.now)) }
    requires plain { (j : ℕ) (state : States) → slice_get states.old j ≡ Some state
        → state.below ≡ [] }
    requires memos { AreMemos (composition (plan_of setup.now)) states.old memos.old }
    ensures found { OnOk result (IfSome (slice_get states.old key.component)
        (λ state. found.new
        ≡ turn_outcome (system T.turn_of setup.now) key.component key.number state.current)) }
    ensures states { OnOk result ((j : ℕ)
        → slice_get states.new j
        ≡ option_map (joining (machine (system T.turn_of setup.now)) key.component found.new j)
        (slice_get states.old j)) }
    ensures many { length states.new ≡ length states.old }
    ensures err { OnErr result (states.new ≡ states.old) }
    ensures none { OnErr result (found.new ≡ None) }
    ensures memos { AreMemos (composition (plan_of setup.now)) states.new memos.new }
{
    let i = key.component;
    let place = usize::from(i);
    let ask = Ask {
        component: i,
        task: turn.task,
        choice: turn.choice,
    };
    setup
        .plan()
        .outcome_known(alloc, ask, &states[place], &mut memos[place], found)?;
    act(alloc, setup, i, states, memos, found)
}

/// Nothing stands there any more.
#[cold]
#[inline(never)]
pub(crate) fn put_none(found: &mut Option<Action>)
    ensures { found.new ≡ None }
{
    *found = None;
}

// Component `i`'s action, if there is one, is taken by it and by each receiver.
#[inline(always)]
fn act<T: Turns>(
    alloc: Global,
    setup: &Setup<T>,
    i: u16,
    states: &mut [Store],
    memos: &mut [Memo],
    found: &mut Option<Action>,
) -> Result<(), NoMemory>
    requires within { i < length (composition (plan_of setup.now)) }
    requires many { length states.old ≡ length (composition (plan_of setup.now)) }
    requires plain { (j : ℕ) (state : States) → slice_get states.old j ≡ Some state
        → state.below ≡ [] }
    requires memos { AreMemos (composition (plan_of setup.now)) states.old memos.old }
    ensures found { OnOk result (found.new ≡ found.old) }
    ensures states { OnOk result ((j : ℕ) → slice_get states.new j ≡ option_map
        (joining (machine (system T.turn_of setup.now)) i found.old j) (slice_get states.old j)) }
    ensures many { length states.new ≡ length states.old }
    ensures err { OnErr result (states.new ≡ states.old) }
    ensures none { OnErr result (found.new ≡ None) }
    ensures memos { AreMemos (composition (plan_of setup.now)) states.new memos.new }
{
    let taken = match found.as_ref() {
        None => return Ok(()),
        Some(action) => take_by_all(alloc, setup, i, action, states, memos),
    };
    if taken.is_err() {
        put_none(found);
    }
    taken
}

// An action of component `i` is taken by it and by each receiver. It stays a call, so that idle turns need no room for it.
#[inline(never)]
fn take_by_all<T: Turns>(
    alloc: Global,
    setup: &Setup<T>,
    i: u16,
    action: &Action,
    states: &mut [Store],
    memos: &mut [Memo],
) -> Result<(), NoMemory>
    requires within { i < length (composition (plan_of setup.now)) }
    requires many { length states.old ≡ length (composition (plan_of setup.now)) }
    requires plain { (j : ℕ) (state : States) → slice_get states.old j ≡ Some state
        → state.below ≡ [] }
    requires memos { AreMemos (composition (plan_of setup.now)) states.old memos.old }
    ensures ok { OnOk result ((j : ℕ)
        → slice_get states.new j
        ≡ option_map (joining (machine (system T.turn_of setup.now)) i (Some action.now) j)
        (slice_get states.old j)) }
    ensures many { length states.new ≡ length states.old }
    ensures err { OnErr result (states.new ≡ states.old) }
    ensures memos { AreMemos (composition (plan_of setup.now)) states.new memos.new }
{
    let plan = setup.plan();
    let mut room = SmallVec::new(alloc);
    let among = plan.candidates(alloc, action, i, &mut room)?;
    take_action(alloc, plan, i, action, among, states)?;
    forget_touched(i, among, states, memos);
    forget_marks(i, among, states);
    Ok(())
}

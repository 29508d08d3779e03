//! Lists of actions checked against a composition.
ghost use Rattle.std.specs.Prelude.{◌≡◌, ℕ, List, IfOk, OnOk, map, length};
ghost use Rattle.std.specs.List.{range_with_len};
ghost use Rattle.terms.specs.Named.{Named};
ghost use Rattle.io_automata.specs.Automata.{Instance};
ghost use Rattle.plans.specs.Plans.{composition};
ghost use Rattle.io_automata.specs.Signatures.{takers_of};
ghost use Rattle.io_automata.specs.Steps.{start_of, applied};
ghost use Rattle.reference.specs.Verdicts.{IsVerdict, IsPermitted, IsPermittedBy, IsStepped, is_control, state_at};

use io_automata::Kind;
use plans::Plan;
use std::alloc::Global;
use terms::{Action, NoMemory, State};

/// What a list of actions is to a composition. Actions are counted from 0.
#[derive(Clone, Copy, PartialEq, Eq)]
pub enum Verdict {
    /// The actions are a schedule: those of an execution, in order.
    Schedule,
    /// The first action at fault is one of the composition, and a component that controls it hasn't its
    /// precondition in the state to which the actions before it lead.
    NotEnabled(usize),
    /// The first action at fault is of no component.
    NotAnAction(usize),
}

// The start state of each component.
fn start_states(alloc: Global, plan: &Plan) -> Result<Vec<State>, NoMemory>
    ensures { IfOk result (λ states. states.items
        ≡ map (start_of (composition plan.now))
        (range_with_len 0 (length (composition plan.now)))) }
{
    let mut states = Vec::new(alloc);
    for i in 0..plan.components() {
        let state = plan.start(alloc, i)?;
        states.push(state)?;
    }
    Ok(states)
}

fn is_control(kind: Option<Kind>) -> bool
    ensures { result ≡ is_control kind }
{
    match kind {
        Some(Kind::Output | Kind::Internal) => true,
        Some(Kind::Input) | None => false,
    }
}

// Whether the precondition of the action holds where the component controls it.
fn permits(
    alloc: Global,
    plan: &Plan,
    action: &Action,
    i: u16,
    state: &State,
) -> Result<bool, NoMemory>
    ensures { IfOk result (IsPermittedBy (composition plan.now) action.now i state.now) }
{
    if is_control(plan.kind(i, action)) {
        return plan.is_enabled(alloc, i, action, state);
    }
    Ok(true)
}

// Whether the precondition of the action holds for each component that controls it.
fn is_permitted(
    alloc: Global,
    plan: &Plan,
    action: &Action,
    takers: &[u16],
    states: &[State],
) -> Result<bool, NoMemory>
    requires many { length states.now ≡ length (composition plan.now) }
    requires takers { takers.now ≡ takers_of (composition plan.now) action.now }
    ensures { IfOk result (IsPermitted (composition plan.now) action.now (state_at states.now)) }
{
    for i in takers {
        if !permits(alloc, plan, action, *i, &states[usize::from(*i)])? {
            return Ok(false);
        }
    }
    Ok(true)
}

// Each component that has the action takes it.
fn take_action(
    alloc: Global,
    plan: &Plan,
    action: &Action,
    takers: &[u16],
    states: &mut [State],
) -> Result<(), NoMemory>
    requires many { length states.old ≡ length (composition plan.now) }
    requires takers { takers.now ≡ takers_of (composition plan.now) action.now }
    ensures many { length states.new ≡ length states.old }
    ensures taken { OnOk result ((i : ℕ)
        → state_at states.new i
        ≡ applied (composition plan.now) i action.now (state_at states.old i)) }
{
    for i in takers {
        plan.apply(alloc, *i, action, &mut states[usize::from(*i)])?;
    }
    Ok(())
}

// What is wrong with an action.
#[derive(Clone, Copy)]
enum Fault {
    Barred,
    Foreign,
}

// Takes an action, or says what is wrong with it.
fn step(
    alloc: Global,
    plan: &Plan,
    action: &Action,
    states: &mut [State],
) -> Result<Option<Fault>, NoMemory>
    requires { length states.old ≡ length (composition plan.now) }
    ensures many { length states.new ≡ length states.old }
    ensures stepped { IfOk result (IsStepped
        (composition plan.now) action.now states.old states.new) }
{
    let takers = plan.takers(alloc, action)?;
    let fault = step_of(alloc, plan, action, takers.as_slice(), states);
    drop(takers);
    fault
}

fn step_of(
    alloc: Global,
    plan: &Plan,
    action: &Action,
    takers: &[u16],
    states: &mut [State],
) -> Result<Option<Fault>, NoMemory>
    requires many { length states.old ≡ length (composition plan.now) }
    requires takers { takers.now ≡ takers_of (composition plan.now) action.now }
    ensures many { length states.new ≡ length states.old }
    ensures stepped { IfOk result (IsStepped
        (composition plan.now) action.now states.old states.new) }
{
    if takers.is_empty() {
        return Ok(Some(Fault::Foreign));
    }
    if !is_permitted(alloc, plan, action, takers, states)? {
        return Ok(Some(Fault::Barred));
    }
    take_action(alloc, plan, action, takers, states)?;
    Ok(None)
}

/// Whether the actions are a schedule of the composition, or which of them is the first at fault. An
/// action of no component is told before any precondition; one that is only an input is always taken.
///
/// Its time grows with the number of components, and for each action with that of those that have it.
///
/// # Errors
///
/// `NoMemory`.
pub fn check_run(alloc: Global, plan: &Plan, actions: &[Action]) -> Result<Verdict, NoMemory>
    ensures sound { IfOk result (λ verdict. IsVerdict (composition plan.now) actions.now verdict) }
    ensures exact { (verdict : Verdict) → IsVerdict (composition plan.now) actions.now verdict
        → IfOk result (λ found. found ≡ verdict) }
{
    let mut states = start_states(alloc, plan)?;
    for (at, action) in actions.iter().enumerate() {
        match step(alloc, plan, action, &mut states)? {
            None => {}
            Some(Fault::Foreign) => return Ok(Verdict::NotAnAction(at)),
            Some(Fault::Barred) => return Ok(Verdict::NotEnabled(at)),
        }
    }
    Ok(Verdict::Schedule)
}

/// A list of actions has one verdict.
pub fn verdict_is_one()
    ensures { (composition : List Instance) (actions : List Named) (a b : Verdict)
        → IsVerdict composition actions a → IsVerdict composition actions b → a ≡ b }
{}

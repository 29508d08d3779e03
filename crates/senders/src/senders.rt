//! Of each component of a plan those that may send to it.
ghost use Rattle.std.specs.Prelude.{◌≡◌, ◌++◌, ◌∷◌, [], ℕ, IfOk, OnOk, Contains, ◌==◌, ◌&&◌, not, cond, length, map, true};
ghost use Rattle.std.specs.List.{range_with_len};
ghost use Rattle.io_automata.specs.Automata.{component_at, items_in, transition_of};
ghost use Rattle.io_automata.specs.Receivers.{Rising};
ghost use Rattle.plans.specs.Plans.{composition};
ghost use Rattle.senders.specs.Meeting.{may_give_any, may_send, senders_of};

use crate::meeting::may_reach;
use io_automata::Entry;
use plans::Plan;
use plans::laws::compatible;
use std::alloc::Global;
use terms::{NoMemory, Scalar};

/// Of each component of a plan those that may send to it, each once and in order.
#[derive(Drop)]
pub struct Senders {
    lists: Vec<Vec<u16>>,
}

impl Senders {
    ghost use Rattle.senders.specs.Senders.{AreSenders, lists_of, senders_at};

    /// Of each component of a plan all others that have an entry for an action of which it may have an input: the entry is no input, both have
    /// one name, and no formal's value or listed type keeps their parameters apart.
    ///
    /// # Errors
    ///
    /// `NoMemory` if there is no memory for the lists.
    pub fn of_plan(alloc: Global, plan: &Plan) -> Result<Senders, NoMemory>
        ensures all { IfOk result
            (λ senders. AreSenders (composition plan.now) (lists_of senders)) }
        ensures once { IfOk result
            (λ senders. (j : ℕ) → Rising 0 (senders_at (lists_of senders) j)) }
        ensures other { IfOk result
            (λ senders. (j : ℕ) → Contains (senders_at (lists_of senders) j) j → ⊥) }
        ensures only { IfOk result (λ senders. (j i : ℕ)
            → Contains (senders_at (lists_of senders) j) i
            → may_send (composition plan.now) j i ≡ true) }
    {
        compatible(plan);
        let lists = lists_of_plan(alloc, plan)?;
        Ok(Senders { lists })
    }

    /// Those that may send to component `j`, each once and in order; none where there is no such component.
    pub fn to(&self, j: u16) -> &[u16]
        ensures { result.now ≡ senders_at (lists_of self.now) j }
    {
        match self.lists.get(j as usize) {
            Some(list) => list.as_slice(),
            None => &[],
        }
    }
}

fn lists_of_plan(alloc: Global, plan: &Plan) -> Result<Vec<Vec<u16>>, NoMemory>
    ensures { IfOk result (λ lists. map items_in lists.items
        ≡ map (senders_of (composition plan.now))
        (range_with_len 0 (length (composition plan.now)))) }
{
    let mut lists = Vec::with_capacity(alloc, usize::from(plan.components()))?;
    for j in 0..plan.components() {
        let list = list_to(alloc, plan, j)?;
        lists.push(list)?;
    }
    Ok(lists)
}

// The components that may send to `j`.
fn list_to(alloc: Global, plan: &Plan, j: u16) -> Result<Vec<u16>, NoMemory>
    ensures { IfOk result (λ list. list.items ≡ senders_of (composition plan.now) j) }
{
    let others = plan.formals(j);
    let inputs = plan.entries(j);
    let mut list = Vec::new(alloc);
    for i in 0..plan.components() {
        push_if(&mut list, may_send(plan, j, i, others, inputs), i)?;
    }
    Ok(list)
}

// Component `i` is another one than `j`, and may send to one with these formals and entries.
#[inline(always)]
fn may_send(plan: &Plan, j: u16, i: u16, others: &[Scalar], inputs: &[Entry]) -> bool
    ensures { result ≡ (not (j == i) && may_give_any (component_at (composition plan.now) i)
        others.now (map transition_of inputs.now)) }
{
    j != i && gives_any(plan, i, others, inputs)
}

// Component `i` has an entry that is no input, and for an action of which one of these inputs may stand.
fn gives_any(plan: &Plan, i: u16, others: &[Scalar], inputs: &[Entry]) -> bool
    ensures { result ≡ may_give_any (component_at (composition plan.now) i) others.now
        (map transition_of inputs.now) }
{
    let formals = plan.formals(i);
    let entries = plan.entries(i);
    may_reach(formals, entries, others, inputs)
}

fn push_if(numbers: &mut Vec<u16>, test: bool, number: u16) -> Result<(), NoMemory>
    ensures { OnOk result (numbers.new.items ≡ numbers.old.items ++ cond test (number ∷ []) []) }
{
    if test {
        numbers.push(number)?;
    }
    Ok(())
}

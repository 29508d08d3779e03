//! Start states and the effects of actions.
ghost use Rattle.std.specs.Prelude.{◌≡◌, IfOk, OnOk, OnErr, cond, map, take};
ghost use Rattle.io_automata.specs.Automata.{transition_of};
ghost use Rattle.io_automata.specs.Signatures.{inputs};
ghost use Rattle.io_automata.specs.Steps.{scope_in, start_value, start_of, is_enabled, applied, IsPartApplied, holds};
ghost use Rattle.terms.specs.Scopes.{scope};
ghost use Rattle.terms.specs.TermTree.{term_tree};

use crate::plan::Plan;
use crate::plan::signature::takes_input;
use evaluation::evaluate::is_true;
use evaluation::{eval, run};
use io_automata::Entry;
use outcomes::asking::{env_of, holds};
use std::alloc::Global;
use terms::{Action, Cells, Env, NoMemory, Scalar, State, Term, Value};

impl Plan {
    ghost use Rattle.io_automata.specs.Automata.{component_at};
    ghost use Rattle.plans.specs.Plans.{composition};

    /// The start state of component `i`.
    pub fn start(&self, alloc: Global, i: u16) -> Result<State, NoMemory>
        ensures { IfOk result (λ state. state ≡ start_of (composition self.now) i) }
    {
        let values = start_values(alloc, self.start_terms(i), self.formals(i))?;
        Ok(State::new(values))
    }

    /// Whether the precondition of an action of component `i` holds in its state; false where `i` doesn't have the action.
    pub fn is_enabled<C: Cells>(
        &self,
        alloc: Global,
        i: u16,
        action: &Action,
        cells: &C,
    ) -> Result<bool, NoMemory>
        ensures { IfOk result (λ enabled. enabled
            ≡ is_enabled (composition self.now) i action.now (C.values cells.now)) }
    {
        match self.entry(i, action) {
            Some(entry) => holds(alloc, entry, self.formals(i), action.args.as_slice(), cells),
            None => Ok(false),
        }
    }

    /// Changes the state of component `i` by an action that it has; another action changes nothing. After a refusal some
    /// first part of the assignments is done, and the caller goes back to the state before. The states to which the cells can go
    /// back stay.
    pub fn apply<C: Cells>(
        &self,
        alloc: Global,
        i: u16,
        action: &Action,
        cells: &mut C,
    ) -> Result<(), NoMemory>
        ensures ok { OnOk result (C.values cells.new
            ≡ applied (composition self.now) i action.now (C.values cells.old)) }
        ensures err { OnErr result
            (IsPartApplied (composition self.now) i action.now (C.values cells.old)
            (C.values cells.new)) }
        ensures marked { C.marked cells.new ≡ C.marked cells.old }
    {
        match self.entry(i, action) {
            Some(entry) => {
                let env = env_of(self.formals(i), action.args.as_slice());
                run(alloc, &entry.effect, &env, cells)
            }
            None => Ok(()),
        }
    }

    /// Changes the state of component `j` by an action that it takes as an input; another action changes nothing. A refusal leaves
    /// what one of `apply` leaves.
    #[inline(always)]
    pub fn receive<C: Cells>(
        &self,
        alloc: Global,
        j: u16,
        action: &Action,
        cells: &mut C,
    ) -> Result<(), NoMemory>
        ensures ok { OnOk result (C.values cells.new
            ≡ cond (inputs (composition self.now) j action.now)
            (applied (composition self.now) j action.now (C.values cells.old))
            (C.values cells.old)) }
        ensures err { OnErr result (IsPartApplied (composition self.now) j action.now
            (C.values cells.old) (C.values cells.new)) }
        ensures marked { C.marked cells.new ≡ C.marked cells.old }
    {
        match self.entry(j, action) {
            Some(entry) => {
                let takes = takes_input(Some(entry.kind));
                if !takes {
                    return Ok(());
                }
                let env = env_of(self.formals(j), action.args.as_slice());
                run(alloc, &entry.effect, &env, cells)
            }
            None => Ok(()),
        }
    }
}

fn start_values(alloc: Global, terms: &[Term], formals: &[Scalar]) -> Result<Vec<Value>, NoMemory>
    ensures { IfOk result (λ values. values.items
        ≡ map (start_value formals.now) (map term_tree terms.now)) }
{
    let env = env_of(formals, &[]);
    let nothing = State::new(Vec::new(alloc));
    let mut values = Vec::with_capacity(alloc, terms.len())?;
    for term in terms {
        values.push(eval(alloc, term, &env, &nothing)?)?;
    }
    Ok(values)
}

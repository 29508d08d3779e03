//! Which values of a parameter are worth a try.
ghost use Rattle.std.specs.Prelude.{◌≡◌, ◌⊎◌, ◌<◌, ◌≤◌, IfNone, IfOk, IfSome, List, ℕ, false, true, suc, length, take, get_or, slice_get, max};
ghost use Rattle.conditions.specs.Conditions.{AreBranches, AreWithin, Binds, tests_hold};
ghost use Rattle.io_automata.specs.Steps.{scope_in};
ghost use Rattle.io_automata.specs.Tuples.{choices, picked};
ghost use Rattle.io_automata.specs.WellFormed.{is_complete};
ghost use Rattle.io_automata.specs.declared.automaton.Param.TheVariants.{Member};
ghost use Rattle.outcomes.specs.Solving.{IsComplete, IsNowhere, IsOutside, IsPlaceOf, IsRange, IsSure};
ghost use Rattle.terms.specs.Datum.{Just};
ghost use Rattle.terms.specs.Meaning.{slot, value};
ghost use Rattle.terms.specs.Scopes.{scope};
ghost use Rattle.terms.specs.TermTree.{term_tree};
ghost use Rattle.terms.specs.declared.scalar.Scalar.{Scalar as Value};

use crate::asking::env_of;
use crate::making::picked;
use crate::node::Range;
use crate::tuples::choices;
use conditions::{Branch, Stage, Test};
use evaluation::{eval, parts};
use io_automata::Param;
use std::alloc::Global;
use terms::{Cells, Env, NoMemory, Scalar, Term};

/// The values of a parameter for which one of the branches that are left may be left after the stage.
pub(crate) fn range_of<C: Cells>(
    alloc: Global,
    stage: &Stage,
    left: &[bool],
    param: Param,
    env: &Env,
    cells: &C,
    known: usize,
) -> Result<Range, NoMemory>
    requires many { length stage.now.branches.items ≡ length left.now }
    requires branches { AreBranches (suc known) stage.now.branches.items }
    requires complete { IsComplete param }
    ensures low { IfOk result (λ range. range.low ≤ choices param) }
    ensures high { IfOk result (λ range. range.high ≤ choices param) }
    ensures range { IfOk result (λ range. IsRange (scope env.now) (C.values cells.now) known param
        stage.now.branches.items left.now range.low range.high) }
{
    let total = usize::from(choices(&param));
    let mut low = total;
    let mut high = 0;
    for b in 0..left.len() {
        if left[b] {
            let range = branch_range(alloc, &stage.branches[b], param, env, cells, known)?;
            low = low.min(range.low);
            high = larger(high, range.high);
        }
    }
    Ok(Range {
        low,
        high,
        sure: false,
    })
}

#[inline(always)]
fn larger(a: usize, b: usize) -> usize
    ensures { result ≡ max a b }
{
    if a < b { b } else { a }
}

/// The values for which the tests of a branch may hold: one where it is bound.
#[inline(always)]
pub(crate) fn branch_range<C: Cells>(
    alloc: Global,
    branch: &Branch,
    param: Param,
    env: &Env,
    cells: &C,
    known: usize,
) -> Result<Range, NoMemory>
    requires bound { Binds (suc known) branch.now.tests.items branch.now.bound }
    requires complete { IsComplete param }
    ensures low { IfOk result (λ range. range.low ≤ choices param) }
    ensures high { IfOk result (λ range. range.high ≤ choices param) }
    ensures range { IfOk result (λ range. IsOutside (scope env.now) (C.values cells.now) known param
        branch.now.tests.items range.low range.high) }
    ensures sure { IfOk result (λ range. range.sure ≡ true
        → IsSure (scope env.now) (C.values cells.now) known param
        branch.now.tests.items range.low range.high) }
{
    let _ = known;
    match &branch.bound {
        None => Ok(Range {
            low: 0,
            high: usize::from(choices(&param)),
            sure: branch.tests.is_empty(),
        }),
        Some(term) => match place_by(alloc, term, param, env, cells)? {
            Some(place) => Ok(Range {
                low: place,
                high: place + 1,
                sure: is_alone(branch.tests.as_slice()),
            }),
            None => Ok(Range {
                low: usize::from(choices(&param)),
                high: 0,
                sure: false,
            }),
        },
    }
}

// Whether there is one test and no other.
#[inline(always)]
fn is_alone(tests: &[Test]) -> bool
    ensures { result ≡ true → length tests.now ≡ 1 }
{
    tests.len() == 1
}

// The only place at which a parameter has the value of a term; `None` where it has it nowhere.
#[inline(always)]
fn place_by<C: Cells>(
    alloc: Global,
    term: &Term,
    param: Param,
    env: &Env,
    cells: &C,
) -> Result<Option<usize>, NoMemory>
    requires complete { IsComplete param }
    ensures some { IfOk result (λ found. IfSome found (λ at. IsPlaceOf
        (value (term_tree term.now) (scope env.now) (C.values cells.now))
        env.now.formals.now param at)) }
    ensures none { IfOk result (λ found. IfNone found (IsNowhere
        (value (term_tree term.now) (scope env.now) (C.values cells.now))
        env.now.formals.now param)) }
{
    let value = eval(alloc, term, env, cells)?;
    let scalar = value.as_scalar();
    drop(value);
    match scalar {
        Some(scalar) => Ok(place_with(env.formals, param, scalar)),
        None => Ok(None),
    }
}

#[inline(always)]
fn place_with(formals: &[Scalar], param: Param, scalar: Scalar) -> Option<usize>
    requires complete { IsComplete param }
    ensures some { IfSome result (λ at. IsPlaceOf (Just scalar) formals.now param at) }
    ensures none { IfNone result (IsNowhere (Just scalar) formals.now param) }
{
    let place = place_of(param, scalar);
    if place < usize::from(choices(&param)) {
        if picked(formals, &param, place) == scalar {
            return Some(place);
        }
    }
    None
}

#[inline(always)]
fn place_of(param: Param, scalar: Scalar) -> usize
    requires complete { IsComplete param }
    ensures { (formals : List Value) (p : ℕ) → p < choices param
        → picked formals param p ≡ scalar → p ≡ result }
{
    match param {
        Param::Member(listed) => parts::place_in(listed, scalar),
        Param::Const(_) => 0,
        Param::Between(_, _) => 0,
        Param::Whole => 0,
    }
}

//! The value of a term.
ghost use Rattle.std.specs.Prelude.{◌≡◌, IfOk, IfSome};
ghost use Rattle.terms.specs.Datum.{Just};
ghost use Rattle.terms.specs.Meaning.{value, truth};
ghost use Rattle.terms.specs.Scopes.{scope};
ghost use Rattle.terms.specs.TermTree.{term_tree};

use crate::glance::scalar_of;
use crate::look::look;
use crate::parts;
use crate::plain::{scalar_at_once, truth_at_once};
use crate::typed::{number_of, truth_worked_out};
use std::alloc::Global;
use terms::reading::truth_in;
use terms::{Cells, Env, NoMemory, Scalar, Term, Value};

/// The value of a term in a scope and a state. `NoMemory` where a growth was refused; a scalar takes no memory, unless it
/// is one of a sequence or an array that the term makes.
pub fn eval<C: Cells>(alloc: Global, term: &Term, env: &Env, cells: &C) -> Result<Value, NoMemory>
    ensures { IfOk result (λ v. v
        ≡ value (term_tree term.now) (scope env.now) (C.values cells.now)) }
{
    match scalar_at_once(term, env, cells) {
        Some(scalar) => Ok(Value::of_scalar(scalar)),
        None => eval_other(alloc, term, env, cells),
    }
}

// The same for a term that isn't read off at once.
#[inline(never)]
fn eval_other<C: Cells>(alloc: Global, term: &Term, env: &Env, cells: &C) -> Result<Value, NoMemory>
    ensures { IfOk result (λ v. v
        ≡ value (term_tree term.now) (scope env.now) (C.values cells.now)) }
{
    match found(term, env, cells) {
        Some(scalar) => Ok(Value::of_scalar(scalar)),
        None => made(alloc, term, env, cells),
    }
}

/// The value of a term, made where it isn't there.
pub(crate) fn made<C: Cells>(
    alloc: Global,
    term: &Term,
    env: &Env,
    cells: &C,
) -> Result<Value, NoMemory>
    ensures { IfOk result (λ v. v
        ≡ value (term_tree term.now) (scope env.now) (C.values cells.now)) }
{
    parts::owned(alloc, look(alloc, term, env, cells))
}

/// The scalar that a term is, first of all as a whole number; `None` where it is none, or where memory is needed to find it.
pub(crate) fn found<C: Cells>(term: &Term, env: &Env, cells: &C) -> Option<Scalar>
    ensures { IfSome result
        (λ s. value (term_tree term.now) (scope env.now) (C.values cells.now) ≡ Just s) }
{
    match number_of(term, env, cells) {
        Some(number) => Some(Scalar::Int(number)),
        None => scalar_of(term, env, cells),
    }
}

/// Whether a term is true in a scope and a state.
#[inline(always)]
pub fn is_true<C: Cells>(alloc: Global, term: &Term, env: &Env, cells: &C) -> Result<bool, NoMemory>
    ensures { IfOk result (λ t. t
        ≡ truth (value (term_tree term.now) (scope env.now) (C.values cells.now))) }
{
    match truth_at_once(term, env, cells) {
        Some(truth) => Ok(truth),
        None => is_other_true(alloc, term, env, cells),
    }
}

// The same for a term that isn't read off at once.
#[inline(never)]
fn is_other_true<C: Cells>(
    alloc: Global,
    term: &Term,
    env: &Env,
    cells: &C,
) -> Result<bool, NoMemory>
    ensures { IfOk result (λ t. t
        ≡ truth (value (term_tree term.now) (scope env.now) (C.values cells.now))) }
{
    match truth_worked_out(term, env, cells) {
        Some(truth) => Ok(truth),
        None => is_scalar_true(alloc, term, env, cells),
    }
}

// The same for a term that isn't worked out as a truth value.
fn is_scalar_true<C: Cells>(
    alloc: Global,
    term: &Term,
    env: &Env,
    cells: &C,
) -> Result<bool, NoMemory>
    ensures { IfOk result (λ t. t
        ≡ truth (value (term_tree term.now) (scope env.now) (C.values cells.now))) }
{
    match scalar_of(term, env, cells) {
        Some(scalar) => Ok(truth_in(scalar)),
        None => is_made_true(alloc, term, env, cells),
    }
}

// The same for a term of which memory is needed, in a frame of its own.
#[inline(never)]
fn is_made_true<C: Cells>(
    alloc: Global,
    term: &Term,
    env: &Env,
    cells: &C,
) -> Result<bool, NoMemory>
    ensures { IfOk result (λ t. t
        ≡ truth (value (term_tree term.now) (scope env.now) (C.values cells.now))) }
{
    let seen = look(alloc, term, env, cells)?;
    let truth = seen.truth();
    drop(seen);
    Ok(truth)
}

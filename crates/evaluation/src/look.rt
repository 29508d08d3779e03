//! The value of a term, made where it isn't there.
ghost use Rattle.std.specs.Prelude.{◌≡◌, IfOk, map};
ghost use Rattle.terms.specs.Linked.{value_on, values_on};
ghost use Rattle.terms.specs.Datum.{Datum, Just};
ghost use Rattle.terms.specs.Meaning.{value, combined, cell};
ghost use Rattle.evaluation.specs.Seen.{seen};
ghost use Rattle.terms.specs.Scopes.{scope};
ghost use Rattle.terms.specs.TermTree.{term_tree, operand_tree, link_tree};

use crate::seen::Seen;
use crate::{number, parts};
use std::alloc::Global;
use terms::cells::slot_of;
use terms::reading::{number_in, truth_in};
use terms::{Cells, Env, Link, NoMemory, Operand, Operator, Scalar, Term, Value};

fn cell_of<C: Cells>(cells: &C, n: usize) -> Seen
    ensures { seen result ≡ cell (C.values cells.now) n }
{
    match cells.get(n) {
        Some(value) => Seen::Lent(value),
        None => Seen::of_scalar(Scalar::Int(0)),
    }
}

fn combine(operator: Operator, a: &Value, b: &Value) -> Scalar
    ensures { result ≡ combined operator a.now b.now }
{
    let left = a.scalar();
    let right = b.scalar();
    match operator {
        Operator::Plus => Scalar::Int(number::sum(number_in(left), number_in(right))),
        Operator::Minus => Scalar::Int(number::difference(number_in(left), number_in(right))),
        Operator::Times => Scalar::Int(number::product(number_in(left), number_in(right))),
        Operator::Same => Scalar::Bool(a == b),
        Operator::Differs => Scalar::Bool(a != b),
        Operator::Less => Scalar::Bool(number_in(left) < number_in(right)),
        Operator::AtMost => Scalar::Bool(number_in(left) <= number_in(right)),
        Operator::Both => Scalar::Bool(truth_in(left) && truth_in(right)),
        Operator::Either => Scalar::Bool(truth_in(left) || truth_in(right)),
    }
}

fn join<'a>(
    operator: Operator,
    left: Seen<'_>,
    right: Result<Seen<'_>, NoMemory>,
) -> Result<Seen<'a>, NoMemory>
    ensures { (d : Datum) → IfOk right.entry (λ v. seen v ≡ d)
        → IfOk result (λ v. seen v ≡ Just (combined operator (seen left.entry) d)) }
{
    match right {
        Ok(right) => {
            let scalar = combine(operator, left.value(), right.value());
            drop(left);
            drop(right);
            Ok(Seen::of_scalar(scalar))
        }
        Err(refused) => {
            drop(left);
            Err(refused)
        }
    }
}

/// The value of a term, lent where it stands in the state.
#[cycle(look)]
#[tactic(auto, using(terms::specs::Linked::value_linked))]
pub(crate) fn look<'a, C: Cells>(
    alloc: Global,
    term: &Term,
    env: &Env,
    cells: &'a C,
) -> Result<Seen<'a>, NoMemory>
    ensures { IfOk result (λ v. seen v
        ≡ value (term_tree term.now) (scope env.now) (C.values cells.now)) }
{
    let first = look_first(alloc, &term.first, env, cells)?;
    look_on(alloc, first, term.links.as_slice(), env, cells)
}

// The value that links make of the one before them.
#[cycle(look)]
fn look_on<'a, C: Cells>(
    alloc: Global,
    first: Seen<'a>,
    links: &[Link],
    env: &Env,
    cells: &'a C,
) -> Result<Seen<'a>, NoMemory>
    ensures { IfOk result (λ v. seen v
        ≡ values_on (map link_tree links.now) (scope env.now) (C.values cells.now)
        (seen first.entry)) }
{
    let mut value = first;
    for link in links {
        value = look_at(alloc, value, link, env, cells)?;
    }
    Ok(value)
}

#[cycle(look)]
fn look_at<'a, C: Cells>(
    alloc: Global,
    left: Seen<'a>,
    link: &Link,
    env: &Env,
    cells: &'a C,
) -> Result<Seen<'a>, NoMemory>
    ensures { IfOk result (λ v. seen v
        ≡ value_on (link_tree link.now) (scope env.now) (C.values cells.now) (seen left.entry)) }
{
    match link {
        Link::Operator(operator, right) => { join(*operator, left, look(alloc, right, env, cells)) }
        Link::Modulo(k) => Ok(Seen::of_scalar(Scalar::Int(number::modulo(left.into_number(), *k)))),
    }
}

#[cycle(look)]
fn look_first<'a, C: Cells>(
    alloc: Global,
    operand: &Operand,
    env: &Env,
    cells: &'a C,
) -> Result<Seen<'a>, NoMemory>
    ensures { IfOk result (λ v. seen v
        ≡ value (operand_tree operand.now) (scope env.now) (C.values cells.now)) }
{
    match operand {
        Operand::Known(scalar) => Ok(Seen::of_scalar(*scalar)),
        Operand::Formal(n) => Ok(Seen::of_scalar(slot_of(env.formals, *n))),
        Operand::Parameter(n) => Ok(Seen::of_scalar(slot_of(env.parameters, *n))),
        Operand::Loop(n) => Ok(Seen::of_scalar(slot_of(&env.loops, *n))),
        Operand::Cell(n) => Ok(cell_of(cells, *n)),
        Operand::Not(a) => parts::inverse(look(alloc, a, env, cells)),
        Operand::Negative(a) => parts::negative(look(alloc, a, env, cells)),
        Operand::Nearest(a, low, high) => {
            let a = look(alloc, a, env, cells)?;
            Ok(parts::clamped(a, *low, *high))
        }
        Operand::Length(a) => parts::length(look(alloc, a, env, cells)),
        Operand::Head(a, shape) => parts::head(alloc, look(alloc, a, env, cells), shape),
        Operand::Tail(a) => parts::tail(alloc, look(alloc, a, env, cells)),
        Operand::Append(a, b, room) => {
            let a = look(alloc, a, env, cells)?.into_value(alloc)?;
            parts::append(alloc, a, look(alloc, b, env, cells), *room)
        }
        Operand::Index(a, at, listed) => {
            let at = parts::place_seen(*listed, look(alloc, at, env, cells))?;
            parts::item(alloc, look(alloc, a, env, cells), at)
        }
        Operand::Empty => Ok(Seen::of_items(Vec::new(alloc))),
        Operand::Fill(n, a) => parts::filled(alloc, look(alloc, a, env, cells), *n),
    }
}

//! What is read off at once: a literal, what stands in a slot or in a cell, and what operators make of these.
ghost use Rattle.std.specs.Prelude.{◌≡◌, IfSome, map};
ghost use Rattle.terms.specs.Datum.{Just};
ghost use Rattle.terms.specs.Linked.{value_on, values_on};
ghost use Rattle.terms.specs.Meaning.{value, combined};
ghost use Rattle.terms.specs.Scopes.{scope};
ghost use Rattle.terms.specs.TermTree.{term_tree, operand_tree, link_tree};

use crate::number;
use terms::cells::slot_of;
use terms::reading::{as_number, as_truth};
use terms::{Cells, Env, Link, Operand, Operator, Scalar, Term};

/// The scalar that an operand is, in a slot or in the state. What is met most stands first, in its caller's frame.
#[inline(always)]
pub(crate) fn scalar_at<C: Cells>(operand: &Operand, env: &Env, cells: &C) -> Option<Scalar>
    ensures { IfSome result
        (λ s. value (operand_tree operand.now) (scope env.now) (C.values cells.now) ≡ Just s) }
{
    if let Operand::Cell(n) = operand {
        return cells.get(*n)?.as_scalar();
    }
    if let Operand::Known(scalar) = operand {
        return Some(*scalar);
    }
    if let Operand::Loop(n) = operand {
        return Some(slot_of(&env.loops, *n));
    }
    in_slot(operand, env, cells)
}

#[inline(never)]
fn in_slot<C: Cells>(operand: &Operand, env: &Env, cells: &C) -> Option<Scalar>
    ensures { IfSome result
        (λ s. value (operand_tree operand.now) (scope env.now) (C.values cells.now) ≡ Just s) }
{
    let _ = cells;
    match operand {
        Operand::Formal(n) => Some(slot_of(env.formals, *n)),
        Operand::Parameter(n) => Some(slot_of(env.parameters, *n)),
        _ => None,
    }
}

/// The whole number that an operand is, in a slot or in the state.
#[inline(always)]
pub(crate) fn number_at<C: Cells>(operand: &Operand, env: &Env, cells: &C) -> Option<i64>
    ensures { IfSome result
        (λ n. value (operand_tree operand.now) (scope env.now) (C.values cells.now)
        ≡ Just (Scalar.Int n)) }
{
    if let Operand::Cell(n) = operand {
        return cells.get(*n)?.as_number();
    }
    if let Operand::Known(scalar) = operand {
        return as_number(*scalar);
    }
    if let Operand::Loop(n) = operand {
        return as_number(slot_of(&env.loops, *n));
    }
    if let Operand::Parameter(n) = operand {
        return as_number(slot_of(env.parameters, *n));
    }
    number_in_slot(operand, env, cells)
}

#[inline(never)]
fn number_in_slot<C: Cells>(operand: &Operand, env: &Env, cells: &C) -> Option<i64>
    ensures { IfSome result
        (λ n. value (operand_tree operand.now) (scope env.now) (C.values cells.now)
        ≡ Just (Scalar.Int n)) }
{
    let _ = cells;
    match operand {
        Operand::Formal(n) => as_number(slot_of(env.formals, *n)),
        _ => None,
    }
}

/// The truth value that a term is where it is read off, or compares two operands that are.
#[inline(always)]
pub(crate) fn truth_at_once<C: Cells>(term: &Term, env: &Env, cells: &C) -> Option<bool>
    ensures { IfSome result
        (λ t. value (term_tree term.now) (scope env.now) (C.values cells.now)
        ≡ Just (Scalar.Bool t)) }
{
    let links = term.links.as_slice();
    linked_truth(&term.first, links, env, cells)
}

#[inline(always)]
fn linked_truth<C: Cells>(first: &Operand, links: &[Link], env: &Env, cells: &C) -> Option<bool>
    ensures { IfSome result
        (λ t. values_on (map link_tree links.now) (scope env.now) (C.values cells.now)
        (value (operand_tree first.now) (scope env.now) (C.values cells.now))
        ≡ Just (Scalar.Bool t)) }
{
    match links.split_first() {
        None => truth_in_cell(first, env, cells),
        Some((link, further)) => {
            if further.is_empty() {
                return compared_at_once(first, link, env, cells);
            }
            None
        }
    }
}

#[inline(always)]
fn truth_in_cell<C: Cells>(operand: &Operand, env: &Env, cells: &C) -> Option<bool>
    ensures { IfSome result
        (λ t. value (operand_tree operand.now) (scope env.now) (C.values cells.now)
        ≡ Just (Scalar.Bool t)) }
{
    let _ = env;
    if let Operand::Cell(n) = operand {
        return cells.get(*n)?.as_truth();
    }
    None
}

#[inline(always)]
fn compared_at_once<C: Cells>(first: &Operand, link: &Link, env: &Env, cells: &C) -> Option<bool>
    ensures { IfSome result
        (λ t. value_on (link_tree link.now) (scope env.now) (C.values cells.now)
        (value (operand_tree first.now) (scope env.now) (C.values cells.now))
        ≡ Just (Scalar.Bool t)) }
{
    match link {
        Link::Operator(operator, right) => {
            if right.links.is_empty() {
                return match number_at(first, env, cells) {
                    Some(left) => compared(*operator, left, number_alone(right, env, cells)?),
                    None => compared_as_scalars(*operator, first, right, env, cells),
                };
            }
            None
        }
        Link::Modulo(_) => None,
    }
}

/// Whether an operator that compares holds of two whole numbers; `None` where it compares none.
#[inline(always)]
pub(crate) fn compared(operator: Operator, left: i64, right: i64) -> Option<bool>
    ensures { IfSome result
        (λ t. combined operator (Just (Scalar.Int left)) (Just (Scalar.Int right))
        ≡ Scalar.Bool t) }
{
    match operator {
        Operator::Same => Some(left == right),
        Operator::Differs => Some(left != right),
        Operator::Less => Some(left < right),
        Operator::AtMost => Some(left <= right),
        _ => None,
    }
}

// The same for truth values and for members, in a frame of its own.
#[inline(never)]
fn compared_as_scalars<C: Cells>(
    operator: Operator,
    first: &Operand,
    right: &Term,
    env: &Env,
    cells: &C,
) -> Option<bool>
    ensures { IfSome result
        (λ t. combined operator
        (value (operand_tree first.now) (scope env.now) (C.values cells.now))
        (value (term_tree right.now) (scope env.now) (C.values cells.now)) ≡ Scalar.Bool t) }
{
    let left = scalar_at(first, env, cells)?;
    let right = scalar_alone(right, env, cells)?;
    match operator {
        Operator::Same => Some(left == right),
        Operator::Differs => Some(left != right),
        _ => None,
    }
}

// The scalar that a term of one operand is.
#[inline(always)]
fn scalar_alone<C: Cells>(term: &Term, env: &Env, cells: &C) -> Option<Scalar>
    ensures { IfSome result
        (λ s. value (term_tree term.now) (scope env.now) (C.values cells.now) ≡ Just s) }
{
    if term.links.is_empty() {
        return scalar_at(&term.first, env, cells);
    }
    None
}

/// The scalar that a term is where it is read off, or a whole number made of two that are.
#[inline(always)]
pub(crate) fn scalar_at_once<C: Cells>(term: &Term, env: &Env, cells: &C) -> Option<Scalar>
    ensures { IfSome result
        (λ s. value (term_tree term.now) (scope env.now) (C.values cells.now) ≡ Just s) }
{
    let links = term.links.as_slice();
    linked_scalar(&term.first, links, env, cells)
}

#[inline(always)]
fn linked_scalar<C: Cells>(first: &Operand, links: &[Link], env: &Env, cells: &C) -> Option<Scalar>
    ensures { IfSome result
        (λ s. values_on (map link_tree links.now) (scope env.now) (C.values cells.now)
        (value (operand_tree first.now) (scope env.now) (C.values cells.now)) ≡ Just s) }
{
    match links.split_first() {
        None => scalar_at(first, env, cells),
        Some((link, others)) => {
            if others.is_empty() {
                return Some(Scalar::Int(number_at_once(first, link, env, cells)?));
            }
            None
        }
    }
}

#[inline(always)]
fn number_at_once<C: Cells>(first: &Operand, link: &Link, env: &Env, cells: &C) -> Option<i64>
    ensures { IfSome result
        (λ n. value_on (link_tree link.now) (scope env.now) (C.values cells.now)
        (value (operand_tree first.now) (scope env.now) (C.values cells.now))
        ≡ Just (Scalar.Int n)) }
{
    match link {
        Link::Operator(operator, right) => {
            if right.links.is_empty() {
                let left = number_at(first, env, cells)?;
                let right = number_alone(right, env, cells)?;
                return calculated(*operator, left, right);
            }
            None
        }
        Link::Modulo(k) => Some(number::modulo(number_at(first, env, cells)?, *k)),
    }
}

/// The whole number that a term of one operand is.
#[inline(always)]
pub(crate) fn number_alone<C: Cells>(term: &Term, env: &Env, cells: &C) -> Option<i64>
    ensures { IfSome result
        (λ n. value (term_tree term.now) (scope env.now) (C.values cells.now)
        ≡ Just (Scalar.Int n)) }
{
    if term.links.is_empty() {
        return number_at(&term.first, env, cells);
    }
    None
}

/// The whole number that a term is where it is made of what is read off alone.
#[inline(never)]
#[cycle(sums)]
pub(crate) fn number_made_up<C: Cells>(term: &Term, env: &Env, cells: &C) -> Option<i64>
    ensures { IfSome result
        (λ n. value (term_tree term.now) (scope env.now) (C.values cells.now)
        ≡ Just (Scalar.Int n)) }
{
    let first = number_at(&term.first, env, cells)?;
    made_up_on(first, term.links.as_slice(), env, cells)
}

#[inline(always)]
#[cycle(sums)]
fn made_up_on<C: Cells>(first: i64, links: &[Link], env: &Env, cells: &C) -> Option<i64>
    ensures { IfSome result
        (λ n. values_on (map link_tree links.now) (scope env.now) (C.values cells.now)
        (Just (Scalar.Int first)) ≡ Just (Scalar.Int n)) }
{
    let mut number = first;
    for link in links {
        number = made_up_with(number, link, env, cells)?;
    }
    Some(number)
}

#[inline(always)]
#[cycle(sums)]
fn made_up_with<C: Cells>(left: i64, link: &Link, env: &Env, cells: &C) -> Option<i64>
    ensures { IfSome result
        (λ n. value_on (link_tree link.now) (scope env.now) (C.values cells.now)
        (Just (Scalar.Int left)) ≡ Just (Scalar.Int n)) }
{
    match link {
        Link::Operator(operator, right) => {
            let right = right_made_up(right, env, cells)?;
            calculated(*operator, left, right)
        }
        Link::Modulo(k) => Some(number::modulo(left, *k)),
    }
}

#[inline(always)]
#[cycle(sums)]
fn right_made_up<C: Cells>(term: &Term, env: &Env, cells: &C) -> Option<i64>
    ensures { IfSome result
        (λ n. value (term_tree term.now) (scope env.now) (C.values cells.now)
        ≡ Just (Scalar.Int n)) }
{
    if term.links.is_empty() {
        return number_at(&term.first, env, cells);
    }
    number_made_up(term, env, cells)
}

/// The whole number that an operator makes of two; `None` where it makes none.
#[inline(always)]
pub(crate) fn calculated(operator: Operator, left: i64, right: i64) -> Option<i64>
    ensures { IfSome result
        (λ n. combined operator (Just (Scalar.Int left)) (Just (Scalar.Int right)) ≡ Scalar.Int n) }
{
    match operator {
        Operator::Plus => Some(number::sum(left, right)),
        Operator::Minus => Some(number::difference(left, right)),
        Operator::Times => Some(number::product(left, right)),
        _ => None,
    }
}

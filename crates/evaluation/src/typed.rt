//! Whole numbers and truth values that are read of a term without taking memory, each as itself and not as a scalar.
ghost use Rattle.std.specs.Prelude.{◌≡◌, IfSome, map};
ghost use Rattle.terms.specs.Datum.{Datum, Just};
ghost use Rattle.terms.specs.Linked.{value_on, values_on, so_far};
ghost use Rattle.terms.specs.Meaning.{combined, value};
ghost use Rattle.terms.specs.Scopes.{scope};
ghost use Rattle.terms.specs.TermTree.{term_tree, operand_tree, link_tree};

use crate::glance::{items_in, place_of};
use crate::plain::{calculated, compared, number_alone, number_at, scalar_at, truth_at_once};
use crate::{number, unary};
use terms::reading::as_truth;
use terms::{Cells, Env, Link, Operand, Operator, Scalar, Term};

/// The whole number that a term is; `None` where it is none, or isn't read off as one.
#[inline(never)]
#[cycle(numbers)]
pub(crate) fn number_of<C: Cells>(term: &Term, env: &Env, cells: &C) -> Option<i64>
    ensures { IfSome result
        (λ n. value (term_tree term.now) (scope env.now) (C.values cells.now)
        ≡ Just (Scalar.Int n)) }
{
    let first = first_number(&term.first, env, cells)?;
    numbers_on(first, term.links.as_slice(), env, cells)
}

#[inline(always)]
#[cycle(numbers)]
fn first_number<C: Cells>(operand: &Operand, env: &Env, cells: &C) -> Option<i64>
    ensures { IfSome result
        (λ n. value (operand_tree operand.now) (scope env.now) (C.values cells.now)
        ≡ Just (Scalar.Int n)) }
{
    match number_at(operand, env, cells) {
        Some(number) => Some(number),
        None => number_made(operand, env, cells),
    }
}

// The number that is made of others, in a frame of its own.
#[inline(never)]
#[cycle(numbers)]
fn number_made<C: Cells>(operand: &Operand, env: &Env, cells: &C) -> Option<i64>
    ensures { IfSome result
        (λ n. value (operand_tree operand.now) (scope env.now) (C.values cells.now)
        ≡ Just (Scalar.Int n)) }
{
    match operand {
        Operand::Negative(a) => unary::negative_number(number_of(a, env, cells)),
        Operand::Nearest(a, low, high) => {
            let a = number_of(a, env, cells)?;
            Some(number::clamped(a, *low, *high))
        }
        Operand::Length(a) => unary::length_of(items_in(a, env, cells)),
        Operand::Head(_, _) | Operand::Index(_, _, _) => {
            unary::number_there(place_of(operand, env, cells))
        }
        _ => None,
    }
}

/// The number that links make of the one before them.
#[inline(always)]
#[cycle(numbers)]
pub(crate) fn numbers_on<C: Cells>(first: i64, links: &[Link], env: &Env, cells: &C) -> Option<i64>
    ensures { IfSome result
        (λ n. values_on (map link_tree links.now) (scope env.now) (C.values cells.now)
        (Just (Scalar.Int first)) ≡ Just (Scalar.Int n)) }
{
    let mut number = first;
    for link in links {
        number = number_on(number, link, env, cells)?;
    }
    Some(number)
}

#[inline(always)]
#[cycle(numbers)]
fn number_on<C: Cells>(left: i64, link: &Link, env: &Env, cells: &C) -> Option<i64>
    ensures { IfSome result
        (λ n. value_on (link_tree link.now) (scope env.now) (C.values cells.now)
        (Just (Scalar.Int left)) ≡ Just (Scalar.Int n)) }
{
    match link {
        Link::Operator(operator, right) => {
            let right = right_number(right, env, cells)?;
            calculated(*operator, left, right)
        }
        Link::Modulo(k) => Some(number::modulo(left, *k)),
    }
}

// The number that a right operand is: at once where it is read off, as most are.
#[inline(always)]
#[cycle(numbers)]
fn right_number<C: Cells>(term: &Term, env: &Env, cells: &C) -> Option<i64>
    ensures { IfSome result
        (λ n. value (term_tree term.now) (scope env.now) (C.values cells.now)
        ≡ Just (Scalar.Int n)) }
{
    match number_alone(term, env, cells) {
        Some(number) => Some(number),
        None => number_of(term, env, cells),
    }
}

// Whether a right operand is true: at once where it is read off or compares two that are.
#[cycle(truths)]
fn truth_of<C: Cells>(term: &Term, env: &Env, cells: &C) -> Option<bool>
    ensures { IfSome result
        (λ t. value (term_tree term.now) (scope env.now) (C.values cells.now)
        ≡ Just (Scalar.Bool t)) }
{
    match truth_at_once(term, env, cells) {
        Some(truth) => Some(truth),
        None => truth_worked_out(term, env, cells),
    }
}

/// Whether a term is true; `None` where it is no truth value, or isn't read off as one.
#[inline(never)]
#[cycle(truths)]
pub(crate) fn truth_worked_out<C: Cells>(term: &Term, env: &Env, cells: &C) -> Option<bool>
    ensures { IfSome result
        (λ t. value (term_tree term.now) (scope env.now) (C.values cells.now)
        ≡ Just (Scalar.Bool t)) }
{
    let links = term.links.as_slice();
    match first_truth(&term.first, env, cells) {
        Some(first) => truths_on(0, Some(first), links, env, cells),
        None => {
            let first = first_number(&term.first, env, cells)?;
            truths_on(first, None, links, env, cells)
        }
    }
}

#[inline(always)]
#[cycle(truths)]
fn first_truth<C: Cells>(operand: &Operand, env: &Env, cells: &C) -> Option<bool>
    ensures { IfSome result
        (λ t. value (operand_tree operand.now) (scope env.now) (C.values cells.now)
        ≡ Just (Scalar.Bool t)) }
{
    match scalar_at(operand, env, cells) {
        Some(scalar) => as_truth(scalar),
        None => truth_made(operand, env, cells),
    }
}

#[inline(never)]
#[cycle(truths)]
fn truth_made<C: Cells>(operand: &Operand, env: &Env, cells: &C) -> Option<bool>
    ensures { IfSome result
        (λ t. value (operand_tree operand.now) (scope env.now) (C.values cells.now)
        ≡ Just (Scalar.Bool t)) }
{
    match operand {
        Operand::Not(a) => unary::inverse_truth(truth_of(a, env, cells)),
        Operand::Head(_, _) | Operand::Index(_, _, _) => {
            unary::truth_there(place_of(operand, env, cells))
        }
        _ => None,
    }
}

// What links make of a number or of a truth value: numbers up to one that compares, truth values from there on.
#[cycle(truths)]
fn truths_on<C: Cells>(
    first: i64,
    first_truth: Option<bool>,
    links: &[Link],
    env: &Env,
    cells: &C,
) -> Option<bool>
    ensures { IfSome result
        (λ t. values_on (map link_tree links.now) (scope env.now) (C.values cells.now)
        (so_far first first_truth) ≡ Just (Scalar.Bool t)) }
{
    let mut number = first;
    let mut truth = first_truth;
    for link in links {
        match truth {
            Some(left) => truth = Some(truth_on(left, link, env, cells)?),
            None => {
                let (further, compared) = linked_on(number, link, env, cells)?;
                number = further;
                truth = compared;
            }
        }
    }
    truth
}

// What a link makes of a number: another one, or a truth value.
#[inline(always)]
fn linked_on<C: Cells>(left: i64, link: &Link, env: &Env, cells: &C) -> Option<(i64, Option<bool>)>
    ensures { IfSome result
        (λ made. value_on (link_tree link.now) (scope env.now) (C.values cells.now)
        (Just (Scalar.Int left)) ≡ so_far made.0 made.1) }
{
    match link {
        Link::Operator(operator, right) => {
            let right = right_number(right, env, cells)?;
            made_of(*operator, left, right)
        }
        Link::Modulo(k) => Some((number::modulo(left, *k), None)),
    }
}

#[inline(always)]
fn made_of(operator: Operator, left: i64, right: i64) -> Option<(i64, Option<bool>)>
    ensures { IfSome result
        (λ made. Just (combined operator (Just (Scalar.Int left)) (Just (Scalar.Int right)))
        ≡ so_far made.0 made.1) }
{
    match compared(operator, left, right) {
        Some(truth) => Some((left, Some(truth))),
        None => Some((calculated(operator, left, right)?, None)),
    }
}

#[inline(always)]
fn same_truth(left: bool, found: Option<bool>) -> Option<bool>
    ensures { (d : Datum) → IfSome found (λ t. d ≡ Just (Scalar.Bool t))
        → IfSome result
        (λ t. Just (combined Operator.Same (Just (Scalar.Bool left)) d) ≡ Just (Scalar.Bool t)) }
{
    Some(left == found?)
}

#[inline(always)]
fn other_truth(left: bool, found: Option<bool>) -> Option<bool>
    ensures { (d : Datum) → IfSome found (λ t. d ≡ Just (Scalar.Bool t))
        → IfSome result
        (λ t. Just (combined Operator.Differs (Just (Scalar.Bool left)) d) ≡ Just (Scalar.Bool t)) }
{
    Some(left != found?)
}

#[cycle(truths)]
fn truth_on<C: Cells>(left: bool, link: &Link, env: &Env, cells: &C) -> Option<bool>
    ensures { IfSome result
        (λ t. value_on (link_tree link.now) (scope env.now) (C.values cells.now)
        (Just (Scalar.Bool left)) ≡ Just (Scalar.Bool t)) }
{
    match link {
        Link::Operator(operator, right) => match operator {
            Operator::Both => {
                if left {
                    truth_of(right, env, cells)
                } else {
                    Some(false)
                }
            }
            Operator::Either => {
                if left {
                    Some(true)
                } else {
                    truth_of(right, env, cells)
                }
            }
            Operator::Same => same_truth(left, truth_of(right, env, cells)),
            Operator::Differs => other_truth(left, truth_of(right, env, cells)),
            _ => None,
        },
        Link::Modulo(_) => None,
    }
}

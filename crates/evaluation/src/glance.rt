//! What is read of a term without taking memory: a scalar, a value that stands in the state, or the items of one.
ghost use Rattle.std.specs.Prelude.{◌≡◌, IfSome, drop, map};
ghost use Rattle.terms.specs.Datum.{Just, items_of};
ghost use Rattle.terms.specs.Linked.{value_on, values_on};
ghost use Rattle.terms.specs.Meaning.{value, combined, cell};
ghost use Rattle.terms.specs.Scopes.{scope};
ghost use Rattle.terms.specs.TermTree.{term_tree, operand_tree, link_tree};

use crate::plain::number_made_up;
use crate::{number, parts, unary};
use terms::cells::slot_of;
use terms::reading::{number_in, truth_in};
use terms::{Cells, Env, Link, Operand, Operator, Scalar, Term, Value};

/// The scalar that a term is; `None` where it is none, or where memory is needed to find it.
#[cycle(glance)]
pub(crate) fn scalar_of<C: Cells>(term: &Term, env: &Env, cells: &C) -> Option<Scalar>
    ensures { IfSome result
        (λ s. value (term_tree term.now) (scope env.now) (C.values cells.now) ≡ Just s) }
{
    let first = first_of(&term.first, env, cells)?;
    with_links(first, term.links.as_slice(), env, cells)
}

#[cycle(glance)]
fn first_of<C: Cells>(operand: &Operand, env: &Env, cells: &C) -> Option<Scalar>
    ensures { IfSome result
        (λ s. value (operand_tree operand.now) (scope env.now) (C.values cells.now) ≡ Just s) }
{
    match read_off(operand, env, cells) {
        Some(scalar) => Some(scalar),
        None => worked_out(operand, env, cells),
    }
}

// The scalar that links make of the one before them.
#[cycle(glance)]
fn with_links<C: Cells>(first: Scalar, links: &[Link], env: &Env, cells: &C) -> Option<Scalar>
    ensures { IfSome result
        (λ s. values_on (map link_tree links.now) (scope env.now) (C.values cells.now) (Just first)
        ≡ Just s) }
{
    let mut scalar = first;
    for link in links {
        scalar = with_link(scalar, link, env, cells)?;
    }
    Some(scalar)
}

#[cycle(glance)]
fn with_link<C: Cells>(left: Scalar, link: &Link, env: &Env, cells: &C) -> Option<Scalar>
    ensures { IfSome result
        (λ s. value_on (link_tree link.now) (scope env.now) (C.values cells.now) (Just left)
        ≡ Just s) }
{
    match link {
        Link::Operator(operator, right) => {
            let right = right_of(right, env, cells)?;
            Some(combine(*operator, left, right))
        }
        Link::Modulo(k) => Some(Scalar::Int(number::modulo(number_in(left), *k))),
    }
}

// The scalar that a right operand is: at once where it is read off, as most are.
#[cycle(glance)]
fn right_of<C: Cells>(term: &Term, env: &Env, cells: &C) -> Option<Scalar>
    ensures { IfSome result
        (λ s. value (term_tree term.now) (scope env.now) (C.values cells.now) ≡ Just s) }
{
    if term.links.is_empty() {
        if let Some(scalar) = read_off(&term.first, env, cells) {
            return Some(scalar);
        }
    }
    scalar_of(term, env, cells)
}

// The scalar that stands in a slot, or in the state.
#[inline(always)]
fn read_off<C: Cells>(operand: &Operand, env: &Env, cells: &C) -> Option<Scalar>
    ensures { IfSome result
        (λ s. value (operand_tree operand.now) (scope env.now) (C.values cells.now) ≡ Just s) }
{
    match operand {
        Operand::Known(scalar) => Some(*scalar),
        Operand::Formal(n) => Some(slot_of(env.formals, *n)),
        Operand::Parameter(n) => Some(slot_of(env.parameters, *n)),
        Operand::Loop(n) => Some(slot_of(&env.loops, *n)),
        Operand::Cell(n) => in_cell(cells, *n),
        _ => None,
    }
}

// The scalar that is made of others. It has a frame of its own, so that reading one off needs no room for what this needs.
#[inline(never)]
#[cycle(glance)]
fn worked_out<C: Cells>(operand: &Operand, env: &Env, cells: &C) -> Option<Scalar>
    ensures { IfSome result
        (λ s. value (operand_tree operand.now) (scope env.now) (C.values cells.now) ≡ Just s) }
{
    match operand {
        Operand::Not(a) => unary::inverse(scalar_of(a, env, cells)),
        Operand::Negative(a) => unary::negative(scalar_of(a, env, cells)),
        Operand::Nearest(a, low, high) => {
            let a = scalar_of(a, env, cells)?;
            Some(Scalar::Int(number::clamped(number_in(a), *low, *high)))
        }
        Operand::Length(a) => Some(Scalar::Int(items_in(a, env, cells)?.len() as i64)),
        Operand::Head(_, _) | Operand::Index(_, _, _) => {
            unary::scalar_there(place_of(operand, env, cells))
        }
        _ => None,
    }
}

// The scalar in a cell.
fn in_cell<C: Cells>(cells: &C, n: usize) -> Option<Scalar>
    ensures { IfSome result (λ s. cell (C.values cells.now) n ≡ Just s) }
{
    match cells.get(n) {
        Some(value) => value.as_scalar(),
        None => Some(Scalar::Int(0)),
    }
}

/// The value in the state that an operand is; `None` where it is none, or where memory is needed to find it.
#[cycle(glance)]
pub(crate) fn place_of<'a, C: Cells>(
    operand: &Operand,
    env: &Env,
    cells: &'a C,
) -> Option<&'a Value>
    ensures { IfSome result
        (λ v. value (operand_tree operand.now) (scope env.now) (C.values cells.now) ≡ v.now) }
{
    match operand {
        Operand::Cell(n) => cells.get(*n),
        Operand::Head(a, _) => unary::item_at(items_in(a, env, cells), 0),
        Operand::Index(a, at, listed) => {
            let at = index_of(at, env, cells)?;
            unary::item_at(items_in(a, env, cells), parts::place_in(*listed, at))
        }
        _ => None,
    }
}

// The scalar that an index is: at once where it is read off, or is a whole number made of what is, as most are.
#[inline(always)]
#[cycle(glance)]
fn index_of<C: Cells>(term: &Term, env: &Env, cells: &C) -> Option<Scalar>
    ensures { IfSome result
        (λ s. value (term_tree term.now) (scope env.now) (C.values cells.now) ≡ Just s) }
{
    match index_at_once(term, env, cells) {
        Some(scalar) => Some(scalar),
        None => scalar_of(term, env, cells),
    }
}

#[inline(always)]
fn index_at_once<C: Cells>(term: &Term, env: &Env, cells: &C) -> Option<Scalar>
    ensures { IfSome result
        (λ s. value (term_tree term.now) (scope env.now) (C.values cells.now) ≡ Just s) }
{
    if term.links.is_empty() {
        return read_off(&term.first, env, cells);
    }
    Some(Scalar::Int(number_made_up(term, env, cells)?))
}

// The items of a sequence or an array in the state.
#[cycle(glance)]
pub(crate) fn items_in<'a, C: Cells>(term: &Term, env: &Env, cells: &'a C) -> Option<&'a [Value]>
    ensures { IfSome result
        (λ items. items_of (value (term_tree term.now) (scope env.now) (C.values cells.now))
        ≡ items.now) }
{
    if term.links.is_empty() {
        items_of(&term.first, env, cells)
    } else {
        None
    }
}

#[cycle(glance)]
#[tactic(auto, using(terms::specs::Linked::tail_by))]
fn items_of<'a, C: Cells>(operand: &Operand, env: &Env, cells: &'a C) -> Option<&'a [Value]>
    ensures { IfSome result
        (λ items. items_of (value (operand_tree operand.now) (scope env.now) (C.values cells.now))
        ≡ items.now) }
{
    match operand {
        Operand::Tail(a) => Some(without_first(items_in(a, env, cells)?)),
        _ => unary::items_there(place_of(operand, env, cells)),
    }
}

fn without_first(items: &[Value]) -> &[Value]
    ensures { result.now ≡ drop 1 items.now }
{
    match items.split_first() {
        Some((_, rest)) => rest,
        None => &[],
    }
}

fn combine(operator: Operator, a: Scalar, b: Scalar) -> Scalar
    ensures { result ≡ combined operator (Just a) (Just b) }
{
    match operator {
        Operator::Plus => Scalar::Int(number::sum(number_in(a), number_in(b))),
        Operator::Minus => Scalar::Int(number::difference(number_in(a), number_in(b))),
        Operator::Times => Scalar::Int(number::product(number_in(a), number_in(b))),
        Operator::Same => Scalar::Bool(a == b),
        Operator::Differs => Scalar::Bool(a != b),
        Operator::Less => Scalar::Bool(number_in(a) < number_in(b)),
        Operator::AtMost => Scalar::Bool(number_in(a) <= number_in(b)),
        Operator::Both => Scalar::Bool(truth_in(a) && truth_in(b)),
        Operator::Either => Scalar::Bool(truth_in(a) || truth_in(b)),
    }
}

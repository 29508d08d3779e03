//! Loops whose body is an assignment to a cell. Where each turn makes a number of the one before, and of nothing else that
//! it writes, the number is carried from turn to turn and written once.
ghost use Rattle.std.specs.Prelude.{◌≡◌, IfSome, OnOk, OnErr, Some, map, slice_get, slice_set, true};
ghost use Rattle.terms.specs.Datum.{Just};
ghost use Rattle.terms.specs.Meaning.{each, turn, AreParts, IsPartOfTurn};
ghost use Rattle.terms.specs.Shapes.{members};
ghost use Rattle.terms.specs.Scopes.{scope};
ghost use Rattle.terms.specs.EffectTree.{Assign};
ghost use Rattle.terms.specs.TermTree.{Cell, term_tree, operand_tree, link_tree};
ghost use Rattle.evaluation.specs.Turning.{IsApart, IsLinkApart, AreApart, carried};

use crate::assign::assign;
use crate::parts;
use crate::typed::numbers_on;
use std::alloc::Global;
use terms::{Cells, Env, Link, Listed, NoMemory, Operand, Scalar, Term};

/// Puts the value of a term into a cell, once for each member, with the member as a loop variable.
#[inline(never)]
pub(crate) fn assign_turns<C: Cells>(
    alloc: Global,
    slot: usize,
    listed: Listed,
    cell: usize,
    term: &Term,
    env: &Env,
    cells: &mut C,
) -> Result<(), NoMemory>
    ensures ok { OnOk result (C.values cells.new
        ≡ each (turn slot (Assign cell (term_tree term.now)) (scope env.now)) (members listed)
        (C.values cells.old)) }
    ensures err { OnErr result
        (AreParts (turn slot (Assign cell (term_tree term.now)) (scope env.now))
        (IsPartOfTurn slot (Assign cell (term_tree term.now)) (scope env.now)) (members listed)
        (C.values cells.old) (C.values cells.new)) }
    ensures marked { C.marked cells.new ≡ C.marked cells.old }
{
    match number_left(slot, listed, cell, term, env, cells) {
        Some(number) => cells.set_scalar(cell, Scalar::Int(number)),
        None => assign_each(alloc, slot, listed, cell, term, env, cells),
    }
}

#[tactic(auto, using(terms::specs::Turns::turns))]
fn assign_each<C: Cells>(
    alloc: Global,
    slot: usize,
    listed: Listed,
    cell: usize,
    term: &Term,
    env: &Env,
    cells: &mut C,
) -> Result<(), NoMemory>
    ensures ok { OnOk result (C.values cells.new
        ≡ each (turn slot (Assign cell (term_tree term.now)) (scope env.now)) (members listed)
        (C.values cells.old)) }
    ensures err { OnErr result
        (AreParts (turn slot (Assign cell (term_tree term.now)) (scope env.now))
        (IsPartOfTurn slot (Assign cell (term_tree term.now)) (scope env.now)) (members listed)
        (C.values cells.old) (C.values cells.new)) }
    ensures marked { C.marked cells.new ≡ C.marked cells.old }
{
    let mut inner = *env;
    for k in 0..parts::count_of(listed) {
        put_member(&mut inner.loops, slot, parts::member_at(listed, k));
        assign(alloc, cell, term, &inner, cells)?;
    }
    Ok(())
}

// The number that the turns leave in the cell, where it can be carried.
fn number_left<C: Cells>(
    slot: usize,
    listed: Listed,
    cell: usize,
    term: &Term,
    env: &Env,
    cells: &C,
) -> Option<i64>
    ensures { IfSome result
        (λ n. each (turn slot (Assign cell (term_tree term.now)) (scope env.now)) (members listed)
        (C.values cells.now) ≡ slice_set (C.values cells.now) cell (Just (Scalar.Int n))) }
{
    let first = own_number(&term.first, cell, cells)?;
    let links = term.links.as_slice();
    if are_apart(links, cell) {
        return number_carried(slot, listed, first, links, env, cells);
    }
    None
}

#[inline(always)]
fn own_number<C: Cells>(operand: &Operand, cell: usize, cells: &C) -> Option<i64>
    ensures { IfSome result
        (λ n. (operand_tree operand.now ≡ Cell cell)
        × (slice_get (C.values cells.now) cell ≡ Some (Just (Scalar.Int n)))) }
{
    if let Operand::Cell(n) = operand {
        if *n == cell {
            return cells.get(cell)?.as_number();
        }
    }
    None
}

#[tactic(auto, using(terms::specs::Turns::turns))]
fn number_carried<C: Cells>(
    slot: usize,
    listed: Listed,
    first: i64,
    links: &[Link],
    env: &Env,
    cells: &C,
) -> Option<i64>
    ensures { IfSome result
        (λ n. carried slot (map link_tree links.now) (scope env.now) (C.values cells.now)
        (members listed) (Just (Scalar.Int first)) ≡ Just (Scalar.Int n)) }
{
    let mut inner = *env;
    let mut number = first;
    for turn in 0..parts::count_of(listed) {
        put_member(&mut inner.loops, slot, parts::member_at(listed, turn));
        number = numbers_on(number, links, &inner, cells)?;
    }
    Some(number)
}

// Whether links are seen to read nothing of a cell.
#[cycle(apart)]
#[tactic(auto, using(crate::proofs::Carried::apart_more))]
fn are_apart(links: &[Link], cell: usize) -> bool
    ensures { result ≡ true → AreApart cell (map link_tree links.now) }
{
    for link in links {
        if !is_link_apart(link, cell) {
            return false;
        }
    }
    true
}

#[cycle(apart)]
#[tactic(auto, using(crate::proofs::Carried::apart_on))]
fn is_link_apart(link: &Link, cell: usize) -> bool
    ensures { result ≡ true → IsLinkApart cell (link_tree link.now) }
{
    match link {
        Link::Operator(_, right) => is_apart(right, cell),
        Link::Modulo(_) => true,
    }
}

#[cycle(apart)]
fn is_apart(term: &Term, cell: usize) -> bool
    ensures { result ≡ true → IsApart cell (term_tree term.now) }
{
    let first = is_operand_apart(&term.first, cell);
    let links = are_apart(term.links.as_slice(), cell);
    first && links
}

fn is_operand_apart(operand: &Operand, cell: usize) -> bool
    ensures { result ≡ true → IsApart cell (operand_tree operand.now) }
{
    match operand {
        Operand::Known(_) => true,
        Operand::Formal(_) => true,
        Operand::Parameter(_) => true,
        Operand::Loop(_) => true,
        Operand::Cell(n) => *n != cell,
        _ => false,
    }
}

/// Puts a member in the place of a loop variable.
#[inline(always)]
pub(crate) fn put_member(loops: &mut [Scalar; 3], slot: usize, member: Scalar)
    ensures { loops.new ≡ slice_set loops.old slot member }
{
    if slot < 3 {
        loops[slot] = member;
    }
}

//! Assignments to a cell, or to an item of one.
ghost use Rattle.std.specs.Prelude.{◌≡◌, OnOk, OnErr, slice_set};
ghost use Rattle.terms.specs.Meaning.{after, value};
ghost use Rattle.terms.specs.Scopes.{scope};
ghost use Rattle.terms.specs.EffectTree.{AssignItem};
ghost use Rattle.terms.specs.TermTree.{term_tree};

use crate::evaluate::{eval, found, made};
use crate::parts;
use crate::plain::scalar_at_once;
use std::alloc::Global;
use terms::{Cells, Env, Listed, NoMemory, Term};

/// Puts the value of a term into a cell.
#[inline(always)]
pub(crate) fn assign<C: Cells>(
    alloc: Global,
    cell: usize,
    term: &Term,
    env: &Env,
    cells: &mut C,
) -> Result<(), NoMemory>
    ensures ok { OnOk result (C.values cells.new
        ≡ slice_set (C.values cells.old) cell
        (value (term_tree term.now) (scope env.now) (C.values cells.old))) }
    ensures err { OnErr result (C.values cells.new ≡ C.values cells.old) }
    ensures marked { C.marked cells.new ≡ C.marked cells.old }
{
    match scalar_at_once(term, env, cells) {
        Some(scalar) => cells.set_scalar(cell, scalar),
        None => assign_other(alloc, cell, term, env, cells),
    }
}

/// The same for a value that isn't read off at once.
#[inline(never)]
pub(crate) fn assign_other<C: Cells>(
    alloc: Global,
    cell: usize,
    term: &Term,
    env: &Env,
    cells: &mut C,
) -> Result<(), NoMemory>
    ensures ok { OnOk result (C.values cells.new
        ≡ slice_set (C.values cells.old) cell
        (value (term_tree term.now) (scope env.now) (C.values cells.old))) }
    ensures err { OnErr result (C.values cells.new ≡ C.values cells.old) }
    ensures marked { C.marked cells.new ≡ C.marked cells.old }
{
    match found(term, env, cells) {
        Some(scalar) => cells.set_scalar(cell, scalar),
        None => assign_made(alloc, cell, term, env, cells),
    }
}

// The same for a value that is made, in a frame of its own.
#[inline(never)]
fn assign_made<C: Cells>(
    alloc: Global,
    cell: usize,
    term: &Term,
    env: &Env,
    cells: &mut C,
) -> Result<(), NoMemory>
    ensures ok { OnOk result (C.values cells.new
        ≡ slice_set (C.values cells.old) cell
        (value (term_tree term.now) (scope env.now) (C.values cells.old))) }
    ensures err { OnErr result (C.values cells.new ≡ C.values cells.old) }
    ensures marked { C.marked cells.new ≡ C.marked cells.old }
{
    let value = made(alloc, term, env, cells)?;
    cells.set(cell, value)
}

/// Puts the value of a term in the place of an item.
#[inline(never)]
pub(crate) fn assign_item<C: Cells>(
    alloc: Global,
    cell: usize,
    at: (&Term, Listed),
    term: &Term,
    env: &Env,
    cells: &mut C,
) -> Result<(), NoMemory>
    ensures ok { OnOk result (C.values cells.new
        ≡ after (AssignItem cell (term_tree at.entry.0.now) at.entry.1 (term_tree term.now))
        (scope env.now) (C.values cells.old)) }
    ensures err { OnErr result (C.values cells.new ≡ C.values cells.old) }
    ensures marked { C.marked cells.new ≡ C.marked cells.old }
{
    let (index, listed) = at;
    let index = eval(alloc, index, env, cells)?;
    let place = parts::place_in(listed, index.scalar());
    drop(index);
    let value = eval(alloc, term, env, cells)?;
    cells.set_at(cell, place, value)
}

//! What an effect does.
ghost use Rattle.std.specs.Prelude.{◌≡◌, OnOk, OnErr};
ghost use Rattle.terms.specs.Meaning.{after, each, turn, IsPart, AreParts, IsPartOfTurn};
ghost use Rattle.terms.specs.Shapes.{members};
ghost use Rattle.terms.specs.Scopes.{scope};
ghost use Rattle.terms.specs.EffectTree.{effect_tree, last_tree};

use crate::assign::{assign, assign_item, assign_other};
use crate::evaluate::is_true;
use crate::parts;
use crate::turning::{assign_turns, put_member};
use std::alloc::Global;
use terms::{Cells, Effect, Env, Last, Listed, NoMemory, Part};

/// Does an effect: the state becomes the one after it. `NoMemory` where a growth was refused; then some first part of the
/// assignments is done, and the caller goes back to a state of its own.
#[cycle(run)]
pub fn run<C: Cells>(
    alloc: Global,
    effect: &Effect,
    env: &Env,
    cells: &mut C,
) -> Result<(), NoMemory>
    ensures ok { OnOk result (C.values cells.new
        ≡ after (effect_tree effect.now) (scope env.now) (C.values cells.old)) }
    ensures err { OnErr result
        (IsPart (effect_tree effect.now) (scope env.now) (C.values cells.old)
        (C.values cells.new)) }
    ensures marked { C.marked cells.new ≡ C.marked cells.old }
{
    for part in &effect.parts {
        match part {
            Part::Before(first) => run(alloc, first, env, cells)?,
            Part::Branch(test, body) => {
                if is_true(alloc, test, env, cells)? {
                    return run(alloc, body, env, cells);
                }
            }
        }
    }
    run_last(alloc, &effect.last, env, cells)
}

#[inline(always)]
#[cycle(run)]
fn run_last<C: Cells>(alloc: Global, last: &Last, env: &Env, cells: &mut C) -> Result<(), NoMemory>
    ensures ok { OnOk result (C.values cells.new
        ≡ after (last_tree last.now) (scope env.now) (C.values cells.old)) }
    ensures err { OnErr result
        (IsPart (last_tree last.now) (scope env.now) (C.values cells.old) (C.values cells.new)) }
    ensures marked { C.marked cells.new ≡ C.marked cells.old }
{
    match last {
        Last::Nothing => Ok(()),
        Last::Assign(cell, term) => assign(alloc, *cell, term, env, cells),
        _ => run_other(alloc, last, env, cells),
    }
}

// The same in a frame of its own, so that an assignment needs no room for what a loop needs.
#[inline(never)]
#[cycle(run)]
fn run_other<C: Cells>(alloc: Global, last: &Last, env: &Env, cells: &mut C) -> Result<(), NoMemory>
    ensures ok { OnOk result (C.values cells.new
        ≡ after (last_tree last.now) (scope env.now) (C.values cells.old)) }
    ensures err { OnErr result
        (IsPart (last_tree last.now) (scope env.now) (C.values cells.old) (C.values cells.new)) }
    ensures marked { C.marked cells.new ≡ C.marked cells.old }
{
    match last {
        Last::Nothing => Ok(()),
        Last::Assign(cell, term) => assign_other(alloc, *cell, term, env, cells),
        Last::AssignItem(cell, index, listed, term) => {
            assign_item(alloc, *cell, (index, *listed), term, env, cells)
        }
        Last::For(slot, listed, body) => turns(alloc, *slot, *listed, body, env, cells),
    }
}

// Turns of a loop: an assignment alone is done turn by turn, without a look at what else it may be.
#[cycle(run)]
fn turns<C: Cells>(
    alloc: Global,
    slot: usize,
    listed: Listed,
    body: &Effect,
    env: &Env,
    cells: &mut C,
) -> Result<(), NoMemory>
    ensures ok { OnOk result (C.values cells.new
        ≡ each (turn slot (effect_tree body.now) (scope env.now)) (members listed)
        (C.values cells.old)) }
    ensures err { OnErr result
        (AreParts (turn slot (effect_tree body.now) (scope env.now))
        (IsPartOfTurn slot (effect_tree body.now) (scope env.now)) (members listed)
        (C.values cells.old) (C.values cells.new)) }
    ensures marked { C.marked cells.new ≡ C.marked cells.old }
{
    if body.parts.is_empty() {
        if let Last::Assign(cell, term) = &body.last {
            return assign_turns(alloc, slot, listed, *cell, term, env, cells);
        }
    }
    run_each(alloc, slot, listed, body, env, cells)
}

#[cycle(run)]
#[tactic(auto, using(terms::specs::Turns::turns))]
fn run_each<C: Cells>(
    alloc: Global,
    slot: usize,
    listed: Listed,
    body: &Effect,
    env: &Env,
    cells: &mut C,
) -> Result<(), NoMemory>
    ensures ok { OnOk result (C.values cells.new
        ≡ each (turn slot (effect_tree body.now) (scope env.now)) (members listed)
        (C.values cells.old)) }
    ensures err { OnErr result
        (AreParts (turn slot (effect_tree body.now) (scope env.now))
        (IsPartOfTurn slot (effect_tree body.now) (scope env.now)) (members listed)
        (C.values cells.old) (C.values cells.new)) }
    ensures marked { C.marked cells.new ≡ C.marked cells.old }
{
    let mut inner = *env;
    for k in 0..parts::count_of(listed) {
        put_member(&mut inner.loops, slot, parts::member_at(listed, k));
        run(alloc, body, &inner, cells)?;
    }
    Ok(())
}

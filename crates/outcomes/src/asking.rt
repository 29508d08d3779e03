//! Whether conditions hold.
ghost use Rattle.std.specs.Prelude.{◌≡◌, IfOk, IfSome, OnOk, length};
ghost use Rattle.conditions.specs.Conditions.{tests_hold, left_after, left_after_all, is_one_left};
ghost use Rattle.io_automata.specs.Automata.{transition_of};
ghost use Rattle.io_automata.specs.Steps.{scope_in, holds};
ghost use Rattle.outcomes.specs.Solving.{AreAsMany, IsOnly};
ghost use Rattle.terms.specs.Scopes.{scope};

use conditions::{Stage, Test};
use evaluation::evaluate::is_true;
use io_automata::Entry;
use std::alloc::Global;
use terms::{Cells, Env, NoMemory, Scalar};

/// The scope of an action: its component's formals and its arguments, and no loop variable.
#[inline(always)]
pub fn env_of<'a>(formals: &'a [Scalar], parameters: &'a [Scalar]) -> Env<'a>
    ensures { scope result ≡ scope_in formals.now parameters.now }
{
    Env {
        formals,
        parameters,
        loops: [Scalar::Int(0); 3],
    }
}

/// Whether the precondition of an entry holds for these arguments.
#[inline(always)]
pub fn holds<C: Cells>(
    alloc: Global,
    entry: &Entry,
    formals: &[Scalar],
    args: &[Scalar],
    cells: &C,
) -> Result<bool, NoMemory>
    ensures { IfOk result (λ holding. holding
        ≡ holds (transition_of entry.now) formals.now (C.values cells.now) args.now) }
{
    let env = env_of(formals, args);
    is_true(alloc, &entry.pre, &env, cells)
}

/// Whether all tests hold. The first that doesn't ends it.
#[inline(always)]
pub(crate) fn tests_hold<C: Cells>(
    alloc: Global,
    tests: &[Test],
    env: &Env,
    cells: &C,
) -> Result<bool, NoMemory>
    ensures { IfOk result (λ hold. hold
        ≡ tests_hold (scope env.now) (C.values cells.now) tests.now) }
{
    for test in tests {
        let truth = is_true(alloc, &test.term, env, cells)?;
        if truth != test.is {
            return Ok(false);
        }
    }
    Ok(true)
}

/// Notes which branches are left after a stage.
pub(crate) fn ask<C: Cells>(
    alloc: Global,
    stage: &Stage,
    env: &Env,
    cells: &C,
    left: &mut [bool],
) -> Result<(), NoMemory>
    requires many { length stage.now.branches.items ≡ length left.old }
    ensures many { length left.new ≡ length left.old }
    ensures left { OnOk result (left.new ≡ left_after (scope env.now) (C.values cells.now)
        stage.now.branches.items left.old) }
{
    for b in 0..left.len() {
        if left[b] {
            left[b] = tests_hold(alloc, stage.branches[b].tests.as_slice(), env, cells)?;
        }
    }
    Ok(())
}

/// The same for some stages, one after another.
pub(crate) fn ask_all<C: Cells>(
    alloc: Global,
    stages: &[Stage],
    env: &Env,
    cells: &C,
    left: &mut [bool],
) -> Result<(), NoMemory>
    requires many { AreAsMany (length left.old) stages.now }
    ensures many { length left.new ≡ length left.old }
    ensures left { OnOk result (left.new ≡ left_after_all (scope env.now) (C.values cells.now)
        stages.now left.old) }
{
    for stage in stages {
        ask(alloc, stage, env, cells, left)?;
    }
    Ok(())
}

/// The branch that is left, where it is the only one.
pub(crate) fn only_left(left: &[bool]) -> Option<usize>
    ensures { IfSome result (λ b. IsOnly b left.now) }
{
    let (here, others) = left.split_first()?;
    if *here {
        return if is_one_left(others) { None } else { Some(0) };
    }
    only_left(others)?.checked_add(1)
}

/// Whether a branch is left.
#[inline(always)]
pub(crate) fn is_one_left(left: &[bool]) -> bool
    ensures { result ≡ is_one_left left.now }
{
    for here in left {
        if *here {
            return true;
        }
    }
    false
}

//! The enabled actions of a task, and the one that a turn takes.
ghost use Rattle.std.specs.Prelude.{◌≡◌, ◌++◌, ◌+◌, ◌<◌, ◌≤◌, ◌%◌, IfOk, OnOk, OnErr, None, Some, length, map, slice_get, true, false};
ghost use Rattle.std.specs.List.{flat_map, range_with_len};
ghost use Rattle.io_automata.specs.Automata.{transition_of};
ghost use Rattle.io_automata.specs.Outcomes.{named};
ghost use Rattle.io_automata.specs.Tuples.{many, tuple_at};
ghost use Rattle.outcomes.specs.Tasks.{IsTask, AreFound, IsFound, enabled_of_task, made_of};

use crate::asking::holds;
use crate::found::find;
use crate::known::{entry_among, number_at};
use crate::making::put_action_at;
use crate::several::put_outcome_of_several;
use crate::spans::Found;
use crate::task::Task;
use crate::tuples::{count_all, put_tuple};
use io_automata::Entry;
use std::alloc::Global;
use terms::{Action, Cells, NoMemory, Scalar};

/// The enabled actions of a task: by its entries in order, and within one by the tuples of its free parameters in type order,
/// the first changing slowest.
pub fn enabled<C: Cells>(alloc: Global, task: &Task, cells: &C) -> Result<Vec<Action>, NoMemory>
    requires { IsTask task.now }
    ensures { IfOk result (λ actions. actions.items
        ≡ enabled_of_task task.now (C.values cells.now)) }
{
    let founds = find(alloc, task, cells)?;
    let mut actions = Vec::new(alloc);
    for found in founds.as_slice() {
        add_actions(alloc, task, *found, &mut actions)?;
    }
    Ok(actions)
}

// The actions of what was found.
fn add_actions(
    alloc: Global,
    task: &Task,
    found: Found,
    actions: &mut Vec<Action>,
) -> Result<(), NoMemory>
    requires { IsFound task.now found }
    ensures { OnOk result (actions.new.items ≡ actions.old.items ++ made_of task.now found) }
{
    let Some(entry) = entry_among(task.entries, found.place) else {
        return Ok(());
    };
    let count = count_all(entry.params.as_slice())?;
    let mut args = vec![in alloc; Scalar::Int(0); entry.params.len()]?;
    for at in found.from..found.from + found.count {
        put_tuple(
            task.formals,
            entry.params.as_slice(),
            count,
            at,
            args.as_mut_slice(),
            0,
        );
        actions.push(Action::of_slice(alloc, entry.name, args.as_slice())?)?;
    }
    Ok(())
}

/// Puts there the enabled action at `choice` modulo their number, or nothing (idle) where none is enabled. A refusal leaves
/// nothing there.
#[inline(always)]
pub fn put_outcome<C: Cells>(
    alloc: Global,
    task: &Task,
    choice: u32,
    cells: &C,
    found: &mut Option<Action>,
) -> Result<(), NoMemory>
    requires task { IsTask task.now }
    requires none { found.old ≡ None }
    ensures ok { OnOk result (let enabled = enabled_of_task task.now (C.values cells.now) in
        found.new ≡ slice_get enabled (choice % length enabled)) }
    ensures err { OnErr result (found.new ≡ None) }
{
    if put_plain_outcome(alloc, task, choice, cells, found)? {
        return Ok(());
    }
    put_outcome_found(alloc, task, choice, cells, found)
}

/// The same where no condition of the task's entries mentions a parameter, as in most tasks. The answer is whether that is so and the
/// outcome is put there; else nothing is.
#[inline(always)]
pub fn put_plain_outcome<C: Cells>(
    alloc: Global,
    task: &Task,
    choice: u32,
    cells: &C,
    found: &mut Option<Action>,
) -> Result<bool, NoMemory>
    requires task { IsTask task.now }
    requires none { found.old ≡ None }
    ensures plain { IfOk result (λ plain. plain ≡ true
        → let enabled = enabled_of_task task.now (C.values cells.now) in
        found.new ≡ slice_get enabled (choice % length enabled)) }
    ensures other { IfOk result (λ plain. plain ≡ false → found.new ≡ None) }
    ensures err { OnErr result (found.new ≡ None) }
{
    if task.places.len() == 1 {
        if let Some(entry) = entry_among(task.entries, task.places[0]) {
            let number = number_at(task.known.numbers.as_slice(), task.places[0]);
            if number > 0 {
                let holding = holds(alloc, entry, task.formals, &[], cells)?;
                if !holding {
                    return Ok(true);
                }
                let at = choice as usize % number;
                put_action_at(alloc, entry, task.formals, number, at, found)?;
                return Ok(true);
            }
        }
    }
    put_outcome_of_several(alloc, task, choice, cells, found)
}

/// The same by what was found.
#[inline(never)]
pub(crate) fn put_outcome_found<C: Cells>(
    alloc: Global,
    task: &Task,
    choice: u32,
    cells: &C,
    found: &mut Option<Action>,
) -> Result<(), NoMemory>
    requires task { IsTask task.now }
    requires none { found.old ≡ None }
    ensures ok { OnOk result (let enabled = enabled_of_task task.now (C.values cells.now) in
        found.new ≡ slice_get enabled (choice % length enabled)) }
    ensures err { OnErr result (found.new ≡ None) }
{
    let founds = find(alloc, task, cells)?;
    put_found(alloc, task, founds.as_slice(), choice, found)
}

/// Puts there the action at `choice` modulo their number, of those that were found, or nothing where none was. A refusal leaves nothing
/// there.
pub fn put_found(
    alloc: Global,
    task: &Task,
    founds: &[Found],
    choice: u32,
    found: &mut Option<Action>,
) -> Result<(), NoMemory>
    requires founds { AreFound task.now founds.now }
    requires none { found.old ≡ None }
    ensures ok { OnOk result (let all = flat_map (made_of task.now) founds.now in
        found.new ≡ slice_get all (choice % length all)) }
    ensures err { OnErr result (found.new ≡ None) }
{
    let total = count_found(task, founds)?;
    if total == 0 {
        return Ok(());
    }
    put_nth(alloc, task, founds, choice as usize % total, found)
}

// How many actions were found.
fn count_found(task: &Task, founds: &[Found]) -> Result<usize, NoMemory>
    requires { AreFound task.now founds.now }
    ensures { IfOk result (λ total. total ≡ length (flat_map (made_of task.now) founds.now)) }
{
    let _ = task;
    let mut total: usize = 0;
    for found in founds {
        total = sum(total, found.count)?;
    }
    Ok(total)
}

#[inline(always)]
pub(crate) fn sum(total: usize, count: usize) -> Result<usize, NoMemory>
    ensures { IfOk result (λ more. more ≡ total + count) }
{
    match total.checked_add(count) {
        Some(more) => Ok(more),
        None => Err(NoMemory),
    }
}

// The action at a place among those found.
fn put_nth(
    alloc: Global,
    task: &Task,
    founds: &[Found],
    nth: usize,
    found: &mut Option<Action>,
) -> Result<(), NoMemory>
    requires founds { AreFound task.now founds.now }
    requires none { found.old ≡ None }
    ensures ok { OnOk result (found.new ≡ slice_get (flat_map (made_of task.now) founds.now) nth) }
    ensures err { OnErr result (found.new ≡ None) }
{
    let mut left = nth;
    for one in founds {
        if left < one.count {
            let Some(entry) = entry_among(task.entries, one.place) else {
                return Ok(());
            };
            let count = count_all(entry.params.as_slice())?;
            return put_action_at(alloc, entry, task.formals, count, one.from + left, found);
        }
        left -= one.count;
    }
    Ok(())
}

// What is put there takes the place of what was there.
#[inline(always)]
pub(crate) fn put(found: &mut Option<Action>, action: Option<Action>)
    ensures { found.new ≡ action }
{
    *found = action;
}

//! The outcome of a task of several entries, none of whose conditions mentions a parameter, as in most tasks.
ghost use Rattle.std.specs.Prelude.{◌≡◌, ◌+◌, ◌<◌, ◌%◌, ℕ, true, false, IfOk, IfSome, OnOk, OnErr, [], None, Some, get_or, map, slice_get, length};
ghost use Rattle.std.specs.List.{flat_map};
ghost use Rattle.outcomes.specs.Alike.{alike, number_or_none};
ghost use Rattle.outcomes.specs.Tasks.{IsTask, AreAlike, enabled_of_task};
ghost use Rattle.io_automata.specs.Automata.{transition_of};
ghost use Rattle.io_automata.specs.Outcomes.{enabled_by};
ghost use Rattle.io_automata.specs.Steps.{holds, scope_in};
ghost use Rattle.io_automata.specs.Tuples.{enabled_in, enabled_count};
ghost use Rattle.terms.specs.Scopes.{scope};

use crate::asking::env_of;
use crate::choose::sum;
use crate::known::{entry_among, first_at, number_at};
use crate::making::put_action_at;
use crate::task::Task;
use evaluation::evaluate::is_true;
use io_automata::Entry;
use std::alloc::Global;
use terms::{Action, Cells, Env, NoMemory, Scalar};

/// Of so many entries of a task the numbers of their actions stand on the stack.
const SHORT: usize = 8;

/// Puts there the enabled action at `choice` modulo their number, and answers whether no condition of the task's entries mentions a
/// parameter; else nothing is put there.
#[inline(never)]
pub(crate) fn put_outcome_of_several<C: Cells>(
    alloc: Global,
    task: &Task,
    choice: u32,
    cells: &C,
    found: &mut Option<Action>,
) -> Result<bool, NoMemory>
    requires task { IsTask task.now }
    requires none { found.old ≡ None }
    ensures plain { IfOk result (λ plain. plain ≡ true
        → let enabled = enabled_of_task task.now (C.values cells.now) in
        found.new ≡ slice_get enabled (choice % length enabled)) }
    ensures other { IfOk result (λ plain. plain ≡ false → found.new ≡ None) }
    ensures err { OnErr result (found.new ≡ None) }
{
    let many = task.places.len();
    if many > SHORT || !are_alike(task) {
        return Ok(false);
    }
    let mut counts = [0; SHORT];
    let few = &mut counts[..many];
    let total = count_alike(alloc, task, few, cells)?;
    if total > 0 {
        put_chosen(alloc, task, few, choice as usize % total, cells, found)?;
    }
    Ok(true)
}

// Whether no condition of the task's entries mentions a parameter.
#[inline(always)]
fn are_alike(task: &Task) -> bool
    ensures { result ≡ true → AreAlike task.now }
{
    for place in task.places {
        if number_at(task.known.numbers.as_slice(), *place) == 0 {
            return false;
        }
    }
    true
}

// Notes how many actions of each entry are enabled. The answer is how many that is. One scope serves all entries, and a condition
// that is the last one's again isn't evaluated again.
#[inline(always)]
fn count_alike<C: Cells>(
    alloc: Global,
    task: &Task,
    counts: &mut [usize],
    cells: &C,
) -> Result<usize, NoMemory>
    requires task { IsTask task.now }
    requires alike { AreAlike task.now }
    requires room { length counts.old ≡ length task.now.places.now }
    ensures counts { OnOk result (counts.new ≡ map
        (enabled_count task.now.entries.now task.now.formals.now (C.values cells.now))
        task.now.places.now) }
    ensures total { IfOk result (λ total. total ≡ length
        (enabled_of_task task.now (C.values cells.now))) }
{
    let env = env_of(task.formals, &[]);
    let mut total: usize = 0;
    let mut last = task.entries.len();
    let mut held = false;
    for at in 0..task.places.len() {
        let place = task.places[at];
        let number = number_at(task.known.numbers.as_slice(), place);
        let mut count = 0;
        if let Some(entry) = entry_among(task.entries, place) {
            let first = first_at(task.entries, task.known.firsts.as_slice(), place);
            let known = if first == last { Some(held) } else { None };
            let holding = holds_as(alloc, entry, task.formals, &env, known, cells)?;
            count = count_if(entry, number, task.formals, holding, cells);
            last = first;
            held = holding;
        }
        counts[at] = count;
        total = sum(total, count)?;
    }
    Ok(total)
}

// Whether the condition of an entry holds, which may be known already.
#[inline(always)]
fn holds_as<C: Cells>(
    alloc: Global,
    entry: &Entry,
    formals: &[Scalar],
    env: &Env,
    known: Option<bool>,
    cells: &C,
) -> Result<bool, NoMemory>
    requires known { IfSome known (λ held. held ≡ holds (transition_of entry.now) formals.now
        (C.values cells.now) []) }
    requires env { scope env.now ≡ scope_in formals.now [] }
    ensures { IfOk result (λ holding. holding ≡ holds (transition_of entry.now) formals.now
        (C.values cells.now) []) }
{
    let _ = formals;
    match known {
        Some(held) => Ok(held),
        None => is_true(alloc, &entry.pre, env, cells),
    }
}

// How many actions of an entry are enabled, where its condition mentions no parameter and holds, or doesn't.
#[inline(always)]
fn count_if<C: Cells>(
    entry: &Entry,
    number: usize,
    formals: &[Scalar],
    holding: bool,
    cells: &C,
) -> usize
    requires told { number ≡ alike (transition_of entry.now) }
    requires some { 0 < number }
    requires holding { holding ≡ holds (transition_of entry.now) formals.now
        (C.values cells.now) [] }
    ensures { result ≡ length
        (enabled_by formals.now (C.values cells.now) (Some (transition_of entry.now))) }
{
    let _ = entry;
    let _ = formals;
    let _ = cells;
    if holding { number } else { 0 }
}

// The enabled action at a place, where each entry's number is known.
#[inline(always)]
fn put_chosen<C: Cells>(
    alloc: Global,
    task: &Task,
    counts: &[usize],
    nth: usize,
    cells: &C,
    found: &mut Option<Action>,
) -> Result<(), NoMemory>
    requires task { IsTask task.now }
    requires alike { AreAlike task.now }
    requires counts { counts.now ≡ map
        (enabled_count task.now.entries.now task.now.formals.now (C.values cells.now))
        task.now.places.now }
    requires none { found.old ≡ None }
    ensures ok { OnOk result (found.new ≡ slice_get
        (enabled_of_task task.now (C.values cells.now)) nth) }
    ensures err { OnErr result (found.new ≡ None) }
{
    let _ = cells;
    let mut left = nth;
    for at in 0..task.places.len() {
        let count = counts[at];
        if left < count {
            let Some(entry) = entry_among(task.entries, task.places[at]) else {
                return Ok(());
            };
            let number = number_at(task.known.numbers.as_slice(), task.places[at]);
            return put_action_at(alloc, entry, task.formals, number, left, found);
        }
        left -= count;
    }
    Ok(())
}

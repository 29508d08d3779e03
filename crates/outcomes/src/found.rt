//! What is enabled of a task: one walk, by which a turn's action is chosen and the enabled actions are listed.
ghost use Rattle.std.specs.Prelude.{◌≡◌, ◌++◌, List, IfOk, OnOk, filter, length, map};
ghost use Rattle.std.specs.List.{flat_map, range_with_len};
ghost use Rattle.conditions.specs.Conditions.{AreApart, AreStages, IsSolved};
ghost use Rattle.io_automata.specs.Automata.{transition_of};
ghost use Rattle.io_automata.specs.Steps.{holds};
ghost use Rattle.io_automata.specs.Tuples.{many, tuple_at, enabled_in};
ghost use Rattle.outcomes.specs.Solving.{places_in, passes, AreComplete, IsNode};
ghost use Rattle.outcomes.specs.Tasks.{IsTask, AreFound, enabled_of_task, made_of, placed};
ghost use Rattle.terms.specs.declared.scalar.Scalar.{Scalar as Value};

use crate::asking::{ask, env_of, holds};
use crate::known::{condition_among, entry_among, number_at};
use crate::node::Node;
use crate::spans::{Found, Founds, Span, Spans};
use crate::task::Task;
use crate::tuples::count_all;
use crate::walk::{MOST, walk};
use conditions::{Condition, Stage};
use io_automata::Entry;
use smallvec::SmallVec;
use std::alloc::Global;
use terms::{Cells, NoMemory, Scalar};

// Up to so many arguments stand on the stack while they are tried.
const FEW: usize = 8;

/// All that is enabled of a task, in order.
pub fn find<C: Cells>(alloc: Global, task: &Task, cells: &C) -> Result<Founds, NoMemory>
    requires task { IsTask task.now }
    ensures there { IfOk result (λ founds. AreFound task.now founds.items) }
    ensures made { IfOk result (λ founds. flat_map (made_of task.now) founds.items
        ≡ enabled_of_task task.now (C.values cells.now)) }
{
    let mut founds = SmallVec::new(alloc);
    for place in task.places {
        find_at(alloc, task, *place, cells, &mut founds)?;
    }
    Ok(founds)
}

// What is enabled of the entry at a place.
fn find_at<C: Cells>(
    alloc: Global,
    task: &Task,
    place: usize,
    cells: &C,
    founds: &mut Founds,
) -> Result<(), NoMemory>
    requires task { IsTask task.now }
    ensures there { OnOk result (AreFound task.now founds.old.items
        → AreFound task.now founds.new.items) }
    ensures made { OnOk result (flat_map (made_of task.now) founds.new.items
        ≡ flat_map (made_of task.now) founds.old.items
        ++ enabled_in task.now.entries.now task.now.formals.now (C.values cells.now) place) }
{
    let Some(entry) = entry_among(task.entries, place) else {
        return Ok(());
    };
    let number = number_at(task.known.numbers.as_slice(), place);
    if number > 0 {
        if holds(alloc, entry, task.formals, &[], cells)? {
            founds.push(Found {
                place,
                from: 0,
                count: number,
            })?;
        }
        return Ok(());
    }
    let conditions = task.known.conditions.as_slice();
    let Some(condition) = condition_among(conditions, place) else {
        return Ok(());
    };
    let spans = solve(alloc, entry, condition, task.formals, cells)?;
    let all = spans.as_slice();
    add_all(place, all, founds)
}

// Adds the spans of an entry.
fn add_all(place: usize, spans: &[Span], founds: &mut Founds) -> Result<(), NoMemory>
    ensures { OnOk result (founds.new.items ≡ founds.old.items ++ map (placed place) spans.now) }
{
    for span in spans {
        founds.push(Found {
            place,
            from: span.from,
            count: span.count,
        })?;
    }
    Ok(())
}

// The tuples of an entry for which its condition holds.
fn solve<C: Cells>(
    alloc: Global,
    entry: &Entry,
    condition: &Condition,
    formals: &[Scalar],
    cells: &C,
) -> Result<Spans, NoMemory>
    requires solved { IsSolved (transition_of entry.now).precondition condition.now }
    requires complete { AreComplete entry.now.params.items }
    ensures { IfOk result (λ spans. places_in spans.items ≡ filter
        (λ at. holds (transition_of entry.now) formals.now (C.values cells.now)
        (tuple_at formals.now entry.now.params.items at))
        (range_with_len 0 (many entry.now.params.items))) }
{
    let all = entry.params.as_slice();
    let count = count_all(all)?;
    if count == 0 {
        return Ok(SmallVec::new(alloc));
    }
    let mut room = [true; MOST];
    let left = &mut room[..condition.branches];
    let stages = ask_first(alloc, condition.stages.as_slice(), formals, cells, left)?;
    let node = Node {
        all,
        known: 0,
        stages,
        left,
        from: 0,
        count,
    };
    walk_from(alloc, formals, cells, &node)
}

// Asks the first stage, which no parameter decides. The answer is the stages to come.
fn ask_first<'a, C: Cells>(
    alloc: Global,
    stages: &'a [Stage],
    formals: &[Scalar],
    cells: &C,
    left: &mut [bool],
) -> Result<&'a [Stage], NoMemory>
    requires stages { AreStages (length left.old) 0 stages.now }
    requires apart { AreApart 0 stages.now }
    ensures many { length left.new ≡ length left.old }
    ensures stages { IfOk result (λ rest. AreStages (length left.old) 1 rest.now) }
    ensures apart { IfOk result (λ rest. AreApart 1 rest.now) }
    ensures passes { IfOk result (λ rest. (args : List Value)
        → passes formals.now (C.values cells.now) rest.now left.new args
        ≡ passes formals.now (C.values cells.now) stages.now left.old args) }
{
    let Some((first, rest)) = stages.split_first() else {
        return Ok(stages);
    };
    ask(alloc, first, &env_of(formals, &[]), cells, left)?;
    Ok(rest)
}

// The tuples of a node for which the condition holds; arguments are tried on the stack where they are few.
fn walk_from<C: Cells>(
    alloc: Global,
    formals: &[Scalar],
    cells: &C,
    node: &Node,
) -> Result<Spans, NoMemory>
    requires node { (args : List Value) → length args ≡ length node.now.all.now
        → IsNode formals.now args node.now }
    ensures { IfOk result (λ spans. places_in spans.items ≡ filter
        (λ at. passes formals.now (C.values cells.now) node.now.stages.now node.now.left.now
        (tuple_at formals.now node.now.all.now at))
        (range_with_len node.now.from node.now.count)) }
{
    let mut spans = SmallVec::new(alloc);
    let many = node.all.len();
    if many <= FEW {
        let mut args = [Scalar::Int(0); FEW];
        walk(alloc, formals, cells, node, &mut args[..many], &mut spans)?;
        return Ok(spans);
    }
    let mut args = vec![in alloc; Scalar::Int(0); many]?;
    walk(alloc, formals, cells, node, args.as_mut_slice(), &mut spans)?;
    drop(args);
    Ok(spans)
}

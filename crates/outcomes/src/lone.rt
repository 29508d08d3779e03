//! The same walk where one branch is left: it is asked alone, and a value of which its tests are sure isn't asked.
ghost use Rattle.std.specs.Prelude.{◌≡◌, ◌<◌, ◌+◌, ◌++◌, IfOk, OnOk, filter, length, map, take, true};
ghost use Rattle.std.specs.List.{range_with_len};
ghost use Rattle.conditions.specs.Conditions.{tests_hold};
ghost use Rattle.io_automata.specs.Tuples.{tuple_at};
ghost use Rattle.outcomes.specs.Solving.{places_in, passes, AreLaterWithout, IsNode, IsOnly};
ghost use Rattle.terms.specs.Scopes.{scope};

use crate::asking::{env_of, tests_hold};
use crate::choose::sum;
use crate::making::picked;
use crate::node::{Lone, Node};
use crate::range::branch_range;
use crate::spans::{Span, Spans};
use crate::tuples::choices;
use crate::walk::walk_end;
use conditions::Branch;
use smallvec::SmallVec;
use std::alloc::Global;
use terms::{Cells, Env, NoMemory, Scalar};

/// Adds the tuples of a node for which its one branch holds. The arguments after those of the node are written over.
#[inline(never)]
#[cycle(lone)]
pub(crate) fn walk_lone<C: Cells>(
    alloc: Global,
    formals: &[Scalar],
    cells: &C,
    lone: &Lone,
    args: &mut [Scalar],
    out: &mut Spans,
) -> Result<(), NoMemory>
    requires node { IsNode formals.now args.old lone.now.node }
    requires only { IsOnly lone.now.branch lone.now.node.left.now }
    ensures room { length args.new ≡ length args.old }
    ensures args { take lone.now.node.known args.new ≡ take lone.now.node.known args.old }
    ensures out { OnOk result (places_in out.new.items ≡ places_in out.old.items
        ++ filter (λ at. passes formals.now (C.values cells.now) lone.now.node.stages.now
        lone.now.node.left.now (tuple_at formals.now lone.now.node.all.now at))
        (range_with_len lone.now.node.from lone.now.node.count)) }
{
    let node = &lone.node;
    let Some((stage, stages)) = node.stages.split_first() else {
        out.push(Span {
            from: node.from,
            count: node.count,
        })?;
        return Ok(());
    };
    if node.known >= node.all.len() {
        return walk_end(alloc, formals, cells, node, args, out);
    }
    let param = node.all[node.known];
    let total = usize::from(choices(&param));
    let count = node.count / total;
    let branch = &stage.branches[lone.branch];
    let env = env_of(formals, args);
    let range = branch_range(alloc, branch, param, &env, cells, node.known)?;
    if stage.apart && total > 1 && branch.bound.is_none() {
        return walk_apart(alloc, formals, cells, lone, args, out);
    }
    for place in range.low..range.high {
        args[node.known] = picked(formals, &param, place);
        if is_kept(alloc, branch, range.sure, &env_of(formals, args), cells)? {
            let below = Node {
                all: node.all,
                known: node.known + 1,
                stages,
                left: node.left,
                from: node.from + place * count,
                count,
            };
            let lone = Lone {
                node: below,
                branch: lone.branch,
            };
            walk_lone(alloc, formals, cells, &lone, args, out)?;
        }
    }
    Ok(())
}

// The same where no later stage mentions the next parameter: what is found below one of its values is found below each that passes.
#[inline(never)]
#[cycle(lone)]
fn walk_apart<C: Cells>(
    alloc: Global,
    formals: &[Scalar],
    cells: &C,
    lone: &Lone,
    args: &mut [Scalar],
    out: &mut Spans,
) -> Result<(), NoMemory>
    requires node { IsNode formals.now args.old lone.now.node }
    requires only { IsOnly lone.now.branch lone.now.node.left.now }
    requires more { lone.now.node.known < length lone.now.node.all.now }
    requires apart { AreLaterWithout lone.now.node.known lone.now.node.stages.now }
    ensures room { length args.new ≡ length args.old }
    ensures args { take lone.now.node.known args.new ≡ take lone.now.node.known args.old }
    ensures out { OnOk result (places_in out.new.items ≡ places_in out.old.items
        ++ filter (λ at. passes formals.now (C.values cells.now) lone.now.node.stages.now
        lone.now.node.left.now (tuple_at formals.now lone.now.node.all.now at))
        (range_with_len lone.now.node.from lone.now.node.count)) }
{
    let node = &lone.node;
    let Some((stage, stages)) = node.stages.split_first() else {
        return Ok(());
    };
    let param = node.all[node.known];
    let total = usize::from(choices(&param));
    let count = node.count / total;
    let branch = &stage.branches[lone.branch];
    args[node.known] = picked(formals, &param, 0);
    let first = Lone {
        node: Node {
            all: node.all,
            known: node.known + 1,
            stages,
            left: node.left,
            from: node.from,
            count,
        },
        branch: lone.branch,
    };
    let mut below = SmallVec::new(alloc);
    walk_lone(alloc, formals, cells, &first, args, &mut below)?;
    for place in 0..total {
        args[node.known] = picked(formals, &param, place);
        if tests_hold(
            alloc,
            branch.tests.as_slice(),
            &env_of(formals, args),
            cells,
        )? {
            let spans = below.as_slice();
            add_behind(spans, place * count, out)?;
        }
    }
    Ok(())
}

// Adds the same spans so many places behind.
fn add_behind(spans: &[Span], by: usize, out: &mut Spans) -> Result<(), NoMemory>
    ensures { OnOk result (places_in out.new.items ≡ places_in out.old.items
        ++ map (λ at. at + by) (places_in spans.now)) }
{
    for span in spans {
        out.push(Span {
            from: sum(span.from, by)?,
            count: span.count,
        })?;
    }
    Ok(())
}

// Whether the tests of a branch hold, which need not be asked where that is sure.
#[inline(always)]
fn is_kept<C: Cells>(
    alloc: Global,
    branch: &Branch,
    sure: bool,
    env: &Env,
    cells: &C,
) -> Result<bool, NoMemory>
    requires { sure ≡ true → tests_hold (scope env.now) (C.values cells.now)
        branch.now.tests.items ≡ true }
    ensures { IfOk result (λ kept. kept ≡ tests_hold (scope env.now) (C.values cells.now)
        branch.now.tests.items) }
{
    if sure {
        return Ok(true);
    }
    tests_hold(alloc, branch.tests.as_slice(), env, cells)
}

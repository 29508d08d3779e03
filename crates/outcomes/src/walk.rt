//! The tuples for which a condition that is solved holds: parameter by parameter, in the order of the types.
ghost use Rattle.std.specs.Prelude.{◌≡◌, ◌≤◌, ◌++◌, OnOk, filter, length, take};
ghost use Rattle.std.specs.List.{range_with_len};
ghost use Rattle.io_automata.specs.Tuples.{tuple_at};
ghost use Rattle.outcomes.specs.Solving.{places_in, passes, IsNode};

use crate::asking::{ask, ask_all, env_of, is_one_left, only_left};
use crate::lone::walk_lone;
use crate::making::picked;
use crate::node::{Lone, Node};
use crate::range::range_of;
use crate::spans::{Span, Spans};
use crate::tuples::choices;
use std::alloc::Global;
use terms::{Cells, NoMemory, Scalar};

/// A condition has at most so many branches.
pub(crate) const MOST: usize = 16;

/// Adds the tuples of a node for which the condition holds. The arguments after those of the node are written over.
#[inline(never)]
pub fn walk<C: Cells>(
    alloc: Global,
    formals: &[Scalar],
    cells: &C,
    node: &Node,
    args: &mut [Scalar],
    out: &mut Spans,
) -> Result<(), NoMemory>
    requires node { IsNode formals.now args.old node.now }
    ensures room { length args.new ≡ length args.old }
    ensures args { take node.now.known args.new ≡ take node.now.known args.old }
    ensures out { OnOk result (places_in out.new.items ≡ places_in out.old.items
        ++ filter (λ at. passes formals.now (C.values cells.now) node.now.stages.now
        node.now.left.now (tuple_at formals.now node.now.all.now at))
        (range_with_len node.now.from node.now.count)) }
{
    if let Some(branch) = only_left(node.left) {
        let lone = Lone {
            node: *node,
            branch,
        };
        return walk_lone(alloc, formals, cells, &lone, args, out);
    }
    if !is_one_left(node.left) {
        return Ok(());
    }
    let Some((stage, stages)) = node.stages.split_first() else {
        out.push(Span {
            from: node.from,
            count: node.count,
        })?;
        return Ok(());
    };
    if node.known >= node.all.len() {
        return walk_end(alloc, formals, cells, node, args, out);
    }
    let param = node.all[node.known];
    let total = usize::from(choices(&param));
    let count = node.count / total;
    let env = env_of(formals, args);
    let range = range_of(alloc, stage, node.left, param, &env, cells, node.known)?;
    for place in range.low..range.high {
        args[node.known] = picked(formals, &param, place);
        let mut room = [false; MOST];
        let left = &mut room[..node.left.len()];
        left.copy_from_slice(node.left);
        ask(alloc, stage, &env_of(formals, args), cells, left)?;
        let below = Node {
            all: node.all,
            known: node.known + 1,
            stages,
            left,
            from: node.from + place * count,
            count,
        };
        walk(alloc, formals, cells, &below, args, out)?;
    }
    Ok(())
}

/// The same where all parameters have values: the one tuple is asked the stages that are left.
#[cold]
#[inline(never)]
pub(crate) fn walk_end<C: Cells>(
    alloc: Global,
    formals: &[Scalar],
    cells: &C,
    node: &Node,
    args: &[Scalar],
    out: &mut Spans,
) -> Result<(), NoMemory>
    requires node { IsNode formals.now args.now node.now }
    requires end { length node.now.all.now ≤ node.now.known }
    ensures out { OnOk result (places_in out.new.items ≡ places_in out.old.items
        ++ filter (λ at. passes formals.now (C.values cells.now) node.now.stages.now
        node.now.left.now (tuple_at formals.now node.now.all.now at))
        (range_with_len node.now.from node.now.count)) }
{
    let mut room = [false; MOST];
    let left = &mut room[..node.left.len()];
    left.copy_from_slice(node.left);
    ask_all(alloc, node.stages, &env_of(formals, args), cells, left)?;
    if is_one_left(left) {
        out.push(Span {
            from: node.from,
            count: node.count,
        })?;
    }
    Ok(())
}

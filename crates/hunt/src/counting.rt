//! How many seeds of a range have the action.
ghost use Rattle.std.specs.Prelude.{◌≤◌, ◌-◌, ◌+◌, IfErr, IfOk, IfSome};
ghost use Rattle.compose.specs.Composed.{IsComposed};
ghost use Rattle.hunt.specs.Faults.{IsUnseen};
ghost use Rattle.hunt.specs.Hunts.{IsCount};
ghost use Rattle.hunt.specs.Seeds.{hunted};

use crate::course::Course;
use crate::fault::HuntFault;
use crate::find::{Aim, Part};
use crate::looks::Looks;
use crate::seeds::look;
use crate::sharing::look_through;
use plans::Plan;
use std::alloc::Global;
use std::thread::Threads;

// 1 where the seed has the action, and else 0.
fn count_one(
    alloc: Global,
    source: &[u8],
    action: &str,
    course: Course,
    seed: u64,
    kept: &mut Option<Plan>,
) -> Result<u64, HuntFault>
    requires kept { IfSome kept.old (IsComposed source.now) }
    ensures kept { IfSome kept.new (IsComposed source.now) }
    ensures count { IfOk result (IsCount (hunted source.now action.now course) seed (seed + 1)) }
    ensures few { IfOk result (λ count. count ≤ 1) }
    ensures err { IfErr result (IsUnseen (hunted source.now action.now course)) }
{
    match look(alloc, source, action, course, seed, kept) {
        Ok(Some(text)) => {
            drop(text);
            Ok(1)
        }
        Ok(None) => Ok(0),
        Err(fault) => Err(fault),
    }
}

/// How many seeds of a range have the action, counted by one thread.
pub(crate) fn count_alone<L: Looks>(
    alloc: Global,
    source: &[u8],
    action: &str,
    course: Course,
    from: u64,
    end: u64,
    looks: &L,
    kept: &mut Option<Plan>,
) -> Result<u64, HuntFault>
    requires range { from ≤ end }
    requires kept { IfSome kept.old (IsComposed source.now) }
    ensures kept { IfSome kept.new (IsComposed source.now) }
    ensures count { IfOk result (IsCount (hunted source.now action.now course) from end) }
    ensures few { IfOk result (λ count. count ≤ end - from) }
    ensures err { IfErr result (IsUnseen (hunted source.now action.now course)) }
{
    let mut count: u64 = 0;
    for seed in from..end {
        match count_one(alloc, source, action, course, seed, kept) {
            Ok(one) => {
                looks.looked();
                count += one;
            }
            Err(fault) => return Err(fault),
        }
    }
    Ok(count)
}

/// How many seeds of a range have the action, by several workers.
pub(crate) fn count_all<R: Threads + Sync, L: Looks + Sync>(
    rt: &R,
    alloc: Global,
    source: &[u8],
    action: &str,
    course: Course,
    first: u64,
    end: u64,
    workers: u64,
    looks: &L,
) -> Result<u64, HuntFault>
    ensures count { IfOk result (IsCount (hunted source.now action.now course) first end) }
    ensures err { IfErr result (IsUnseen (hunted source.now action.now course)) }
{
    if end <= first {
        return Ok(0);
    }
    match look_through(
        rt,
        alloc,
        source,
        action,
        course,
        Aim::Count,
        first,
        end,
        workers,
        looks,
    ) {
        Ok(Part::Counted(count)) => Ok(count),
        Ok(Part::Found(_) | Part::Nothing | Part::GivenUp) => {
            let mut kept = None;
            let count = count_alone(alloc, source, action, course, first, end, looks, &mut kept);
            drop(kept);
            count
        }
        Err(fault) => Err(fault),
    }
}

//! The least seed of a range that has the action.
ghost use Rattle.std.specs.Prelude.{IfErr, IfOk, IfSome};
ghost use Rattle.compose.specs.Composed.{IsComposed};
ghost use Rattle.hunt.specs.Faults.{IsUnseen};
ghost use Rattle.hunt.specs.Hunts.{IsFound, IsPart};
ghost use Rattle.hunt.specs.Seeds.{hunted};

use crate::course::Course;
use crate::fault::HuntFault;
use crate::find::{Aim, Find, Part};
use crate::looks::Looks;
use crate::seeds::look;
use crate::sharing::look_through;
use plans::Plan;
use std::alloc::Global;
use std::sync::atomic::{AtomicU64, Ordering};
use std::thread::Threads;

// The least seed of a range that has the action, if there is one. One thread looks at one seed
// after the other.
fn search_alone(
    alloc: Global,
    source: &[u8],
    action: &str,
    course: Course,
    from: u64,
    end: u64,
) -> Result<Option<Find>, HuntFault>
    ensures found { IfOk result (IsFound (hunted source.now action.now course) from end) }
    ensures err { IfErr result (IsUnseen (hunted source.now action.now course)) }
{
    let mut kept = None;
    for seed in from..end {
        match look(alloc, source, action, course, seed, &mut kept) {
            Ok(Some(text)) => return Ok(Some(Find { seed, text })),
            Ok(None) => {}
            Err(fault) => return Err(fault),
        }
    }
    Ok(None)
}

// Whether a lesser seed was found.
fn is_given_up(least: &AtomicU64, seed: u64) -> bool {
    least.load(Ordering::SeqCst) < seed
}

// Notes a seed that was found, for those who look at greater ones. Two that note at once may leave
// the greater one there: then only more is looked at.
fn note_found(least: &AtomicU64, seed: u64) {
    if !is_given_up(least, seed) {
        least.store(seed, Ordering::SeqCst);
    }
}

/// The same, given up where a lesser seed was found elsewhere.
pub(crate) fn search_part<L: Looks>(
    alloc: Global,
    source: &[u8],
    action: &str,
    course: Course,
    from: u64,
    end: u64,
    least: &AtomicU64,
    looks: &L,
    kept: &mut Option<Plan>,
) -> Result<Part, HuntFault>
    requires kept { IfSome kept.old (IsComposed source.now) }
    ensures kept { IfSome kept.new (IsComposed source.now) }
    ensures part { IfOk result (IsPart (hunted source.now action.now course) from end) }
    ensures err { IfErr result (IsUnseen (hunted source.now action.now course)) }
{
    for seed in from..end {
        if is_given_up(least, seed) {
            return Ok(Part::GivenUp);
        }
        match look(alloc, source, action, course, seed, kept) {
            Ok(Some(text)) => {
                note_found(least, seed);
                looks.looked();
                return Ok(Part::Found(Find { seed, text }));
            }
            Ok(None) => looks.looked(),
            Err(fault) => return Err(fault),
        }
    }
    Ok(Part::Nothing)
}

/// The least seed of a range that has the action, if there is one, by several workers.
pub(crate) fn search<R: Threads + Sync, L: Looks + Sync>(
    rt: &R,
    alloc: Global,
    source: &[u8],
    action: &str,
    course: Course,
    first: u64,
    end: u64,
    workers: u64,
    looks: &L,
) -> Result<Option<Find>, HuntFault>
    ensures found { IfOk result (IsFound (hunted source.now action.now course) first end) }
    ensures err { IfErr result (IsUnseen (hunted source.now action.now course)) }
{
    if end <= first {
        return Ok(None);
    }
    match look_through(
        rt,
        alloc,
        source,
        action,
        course,
        Aim::Least,
        first,
        end,
        workers,
        looks,
    ) {
        Ok(Part::Found(find)) => Ok(Some(find)),
        Ok(Part::Nothing) => Ok(None),
        Ok(Part::GivenUp | Part::Counted(_)) => {
            search_alone(alloc, source, action, course, first, end)
        }
        Err(fault) => Err(fault),
    }
}

//! Many seeds by several workers, each of which takes the next part of them when it is through with one.
ghost use Rattle.std.specs.Prelude.{◌≡◌, ◌≤◌, ◌<◌, ℕ, true, IfErr, IfOk, IfSome};
ghost use Rattle.std.specs.Thread.{IsSync};
ghost use Rattle.compose.specs.Composed.{IsComposed};
ghost use Rattle.hunt.specs.Faults.{IsUnseen};
ghost use Rattle.hunt.specs.Hunts.{AreTaken, IsPart};
ghost use Rattle.hunt.specs.Seeds.{Hunted, hunted};

use crate::counting::count_alone;
use crate::course::Course;
use crate::fault::HuntFault;
use crate::find::{Aim, Part, Taken, merged};
use crate::looks::Looks;
use crate::searching::search_part;
use plans::Plan;
use std::alloc::Global;
use std::sync::atomic::{AtomicU64, Ordering};
use std::thread::{Threads, join};

// How many seeds there are for each worker in the first round, and in the last ones: what workers
// saw of a round is kept until its end.
const LEAST_SEEDS: u64 = 16;

const MOST_SEEDS: u64 = 1_024;

// How many parts of a round there are for each worker. A worker that is late with one makes the
// others wait no longer than that.
const PARTS: u64 = 64;

// What is asked of a range, by one thread.
fn look_at<L: Looks>(
    alloc: Global,
    source: &[u8],
    action: &str,
    course: Course,
    aim: Aim,
    from: u64,
    end: u64,
    least: &AtomicU64,
    looks: &L,
    kept: &mut Option<Plan>,
) -> Result<Part, HuntFault>
    requires range { from ≤ end }
    requires kept { IfSome kept.old (IsComposed source.now) }
    ensures kept { IfSome kept.new (IsComposed source.now) }
    ensures part { IfOk result (IsPart (hunted source.now action.now course) from end) }
    ensures err { IfErr result (IsUnseen (hunted source.now action.now course)) }
{
    match aim {
        Aim::Least => search_part(alloc, source, action, course, from, end, least, looks, kept),
        Aim::Count => match count_alone(alloc, source, action, course, from, end, looks, kept) {
            Ok(count) => Ok(Part::Counted(count)),
            Err(fault) => Err(fault),
        },
    }
}

// The parts of a range that one worker takes, each of so many seeds: from where the next one begins,
// as long as that is below the range's end.
fn take_parts<L: Looks>(
    alloc: Global,
    source: &[u8],
    action: &str,
    course: Course,
    aim: Aim,
    from: u64,
    end: u64,
    size: u64,
    next: &AtomicU64,
    least: &AtomicU64,
    looks: &L,
) -> Result<Vec<Taken>, HuntFault>
    ensures are { IfOk result (λ parts. AreTaken
        (hunted source.now action.now course) parts.items) }
    ensures err { IfErr result (IsUnseen (hunted source.now action.now course)) }
{
    let mut parts = Vec::new(alloc);
    let mut kept = None;
    for _ in from..end {
        let begin = next.fetch_add(size, Ordering::SeqCst);
        if end <= begin {
            return Ok(parts);
        }
        let stop = begin.saturating_add(size).min(end);
        match look_at(
            alloc, source, action, course, aim, begin, stop, least, looks, &mut kept,
        ) {
            Ok(part) => parts.push(Taken {
                from: begin,
                end: stop,
                part,
            })?,
            Err(fault) => return Err(fault),
        }
    }
    Ok(parts)
}

// What two workers, or two groups of them, took.
fn joined(
    low: Result<Vec<Taken>, HuntFault>,
    high: Result<Vec<Taken>, HuntFault>,
) -> Result<Vec<Taken>, HuntFault>
    ensures are { (h : Hunted) → IfOk low (λ parts. AreTaken h parts.items)
        → IfOk high (λ parts. AreTaken h parts.items)
        → IfOk result (λ parts. AreTaken h parts.items) }
    ensures err { (h : Hunted) → IfErr low (IsUnseen h) → IfErr high (IsUnseen h)
        → IfErr result (IsUnseen h) }
{
    match (low, high) {
        (Ok(mut low), Ok(mut high)) => {
            low.append(&mut high)?;
            Ok(low)
        }
        (Err(fault), _) => Err(fault),
        (_, Err(fault)) => Err(fault),
    }
}

// The parts of a range that several workers take.
#[cycle(shares)]
fn share<R: Threads + Sync, L: Looks + Sync>(
    rt: &R,
    alloc: Global,
    source: &[u8],
    action: &str,
    course: Course,
    aim: Aim,
    from: u64,
    end: u64,
    size: u64,
    workers: u64,
    next: &AtomicU64,
    least: &AtomicU64,
    looks: &L,
) -> Result<Vec<Taken>, HuntFault>
    ensures are { IfOk result (λ parts. AreTaken
        (hunted source.now action.now course) parts.items) }
    ensures err { IfErr result (IsUnseen (hunted source.now action.now course)) }
{
    if workers < 2 {
        return take_parts(
            alloc, source, action, course, aim, from, end, size, next, least, looks,
        );
    }
    let low = workers / 2;
    let high = workers - low;
    let front = move || -> Result<Vec<Taken>, HuntFault>
        requires { IsSync R.row × IsSync L.row }
        ensures { IfOk result (λ parts.
            AreTaken (hunted source.entry.now action.entry.now course) parts.items)
            × IfErr result (IsUnseen (hunted source.entry.now action.entry.now course)) }
    {
        share(
            rt, alloc, source, action, course, aim, from, end, size, low, next, least, looks,
        )
    };
    let back = move || -> Result<Vec<Taken>, HuntFault>
        requires { IsSync R.row × IsSync L.row }
        ensures { IfOk result (λ parts.
            AreTaken (hunted source.entry.now action.entry.now course) parts.items)
            × IfErr result (IsUnseen (hunted source.entry.now action.entry.now course)) }
    {
        share(
            rt, alloc, source, action, course, aim, from, end, size, high, next, least, looks,
        )
    };
    let (front, back) = join(rt, front, back);
    joined(front, back)
}

// What came of a range of which the front was looked at.
fn ended(all: Part, at: u64, end: u64) -> Part
    requires { at ≤ end }
    ensures { (h : Hunted) (from : ℕ) → IsPart h from at all → IsPart h from end result }
{
    if at == end {
        return all;
    }
    if all.is_over() {
        return all;
    }
    Part::GivenUp
}

// Whether a part begins here and ends within the range.
fn follows(taken: &Taken, at: u64, end: u64) -> bool
    ensures { result ≡ true
        → (taken.now.from ≡ at) × (at ≤ taken.now.end) × (taken.now.end ≤ end) }
{
    taken.from == at && at <= taken.end && taken.end <= end
}

// What came of a range, from the parts that workers took of it, in the order of their seeds. Where
// one is missing, those behind it say nothing.
fn gathered(aim: Aim, from: u64, end: u64, parts: Vec<Taken>) -> Part
    requires range { from ≤ end }
    ensures { (h : Hunted) → AreTaken h parts.items → IsPart h from end result }
{
    let mut at = from;
    let mut all = aim.of_none();
    for taken in parts {
        if !follows(&taken, at, end) {
            return ended(all, at, end);
        }
        at = taken.end;
        all = merged(all, taken.part);
    }
    ended(all, at, end)
}

// One round of the workers over a range.
fn look_round<R: Threads + Sync, L: Looks + Sync>(
    rt: &R,
    alloc: Global,
    source: &[u8],
    action: &str,
    course: Course,
    aim: Aim,
    from: u64,
    end: u64,
    size: u64,
    workers: u64,
    looks: &L,
) -> Result<Part, HuntFault>
    requires range { from ≤ end }
    ensures part { IfOk result (IsPart (hunted source.now action.now course) from end) }
    ensures err { IfErr result (IsUnseen (hunted source.now action.now course)) }
{
    let next = AtomicU64::new(from);
    let least = AtomicU64::new(u64::MAX);
    match share(
        rt, alloc, source, action, course, aim, from, end, size, workers, &next, &least, looks,
    ) {
        Ok(mut parts) => {
            parts.sort_unstable_by_key(|taken| taken.from);
            Ok(gathered(aim, from, end, parts))
        }
        Err(fault) => Err(fault),
    }
}

// Where the first so many parts of a range end, of which each has this many seeds.
fn border(from: u64, end: u64, size: u64, parts: u64) -> u64
    requires { from ≤ end }
    ensures above { from ≤ result }
    ensures below { result ≤ end }
    ensures some { 0 < size → 0 < parts → from < end → from < result }
{
    let width = size.saturating_mul(parts);
    from.saturating_add(width).min(end)
}

/// What is asked of a range. The workers look at it in rounds, each at twice as many seeds as in the
/// round before, up to a limit. It is given up only where a worker gave up and no lesser seed was
/// found, which never comes.
pub(crate) fn look_through<R: Threads + Sync, L: Looks + Sync>(
    rt: &R,
    alloc: Global,
    source: &[u8],
    action: &str,
    course: Course,
    aim: Aim,
    first: u64,
    end: u64,
    workers: u64,
    looks: &L,
) -> Result<Part, HuntFault>
    requires range { first ≤ end }
    ensures part { IfOk result (IsPart (hunted source.now action.now course) first end) }
    ensures err { IfErr result (IsUnseen (hunted source.now action.now course)) }
{
    let workers = workers.max(1);
    let mut at = first;
    let mut size = LEAST_SEEDS;
    let mut all = aim.of_none();
    while at < end {
        let stop = border(at, end, size, workers);
        let piece = (size / PARTS).max(1);
        match look_round(
            rt, alloc, source, action, course, aim, at, stop, piece, workers, looks,
        ) {
            Ok(part) => all = merged(all, part),
            Err(fault) => {
                drop(all);
                return Err(fault);
            }
        }
        at = stop;
        if all.is_over() {
            return Ok(ended(all, at, end));
        }
        if size < MOST_SEEDS {
            size *= 2;
        }
    }
    Ok(ended(all, at, end))
}

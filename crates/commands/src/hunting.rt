//! The engine of `hunt`, on the file of a source.
ghost use Rattle.std.specs.Prelude.{◌≡◌, true, false};
ghost use Rattle.trace.specs.Went.{IsStopped, IsWritten};
ghost use Rattle.commands.specs.Hunting.{IsHuntFileReport, IsHuntReport, found_report};

use crate::files::Files;
use crate::reading::{SOURCE_BYTES, read_front};
use crate::report::{Report, report_of};
use command_line::Hunting;
use hunt::{Course, Looks, count, hunt};
use std::alloc::Global;
use std::io::Write;
use std::thread::Threads;
use trace::Counted;

/// Hunts for an action in the schedules of the composition of a source, or counts the seeds that have it. What is written is the same by any
/// number of workers. The source is judged first, then the action. `looks` is told of each seed that was looked at.
pub fn hunt_source<L: Looks + Sync, W: Write, R: Threads + Sync>(
    rt: &R,
    alloc: Global,
    source: &[u8],
    action: &str,
    hunting: Hunting,
    looks: &L,
    out: &mut Counted<W>,
) -> Report
    ensures { IsHuntReport source.now action.now hunting (out.new ≡ out.old)
        (IsWritten W.contents out.old out.new) (IsStopped W.contents out.old out.new) result }
{
    if hunting.count {
        count_source(rt, alloc, source, action, hunting, looks, out)
    } else {
        seek_source(rt, alloc, source, action, hunting, looks, out)
    }
}

// Writes the turns of the least seed.
fn seek_source<L: Looks + Sync, W: Write, R: Threads + Sync>(
    rt: &R,
    alloc: Global,
    source: &[u8],
    action: &str,
    hunting: Hunting,
    looks: &L,
    out: &mut Counted<W>,
) -> Report
    requires { hunting.count ≡ false }
    ensures { IsHuntReport source.now action.now hunting (out.new ≡ out.old)
        (IsWritten W.contents out.old out.new) (IsStopped W.contents out.old out.new) result }
{
    let course = Course {
        stream: hunting.stream,
        gap: hunting.gap,
        from_zero: hunting.from_zero,
        ticks: hunting.ticks,
    };
    let end = hunting.seeds.last + 1;
    let workers = u64::from(hunting.workers);
    match hunt(
        rt,
        alloc,
        source,
        action,
        course,
        hunting.seeds.first,
        end,
        workers,
        looks,
        out,
    ) {
        Ok(found) => found_report(found),
        Err(fault) => report_of(&fault),
    }
}

// The report on whether a seed was found.
fn found_report(found: bool) -> Report
    ensures { result ≡ found_report found }
{
    if found { Report::Done } else { Report::No }
}

// Writes how many seeds have the action.
fn count_source<L: Looks + Sync, W: Write, R: Threads + Sync>(
    rt: &R,
    alloc: Global,
    source: &[u8],
    action: &str,
    hunting: Hunting,
    looks: &L,
    out: &mut Counted<W>,
) -> Report
    requires { hunting.count ≡ true }
    ensures { IsHuntReport source.now action.now hunting (out.new ≡ out.old)
        (IsWritten W.contents out.old out.new) (IsStopped W.contents out.old out.new) result }
{
    let course = Course {
        stream: hunting.stream,
        gap: hunting.gap,
        from_zero: hunting.from_zero,
        ticks: hunting.ticks,
    };
    let end = hunting.seeds.last + 1;
    let workers = u64::from(hunting.workers);
    match count(
        rt,
        alloc,
        source,
        action,
        course,
        hunting.seeds.first,
        end,
        workers,
        looks,
        out,
    ) {
        Ok(()) => Report::Done,
        Err(fault) => report_of(&fault),
    }
}

/// Hunts in the schedules of the source in a file.
pub fn hunt_file<F: Files, L: Looks + Sync, W: Write, R: Threads + Sync>(
    rt: &R,
    alloc: Global,
    name: &str,
    action: &str,
    hunting: Hunting,
    files: &F,
    looks: &L,
    out: &mut Counted<W>,
) -> Report
    ensures { IsHuntFileReport (F.has files.now name.now)
        (F.lacks files.now name.now) action.now hunting (out.new ≡ out.old)
        (IsWritten W.contents out.old out.new) (IsStopped W.contents out.old out.new) result }
{
    match read_front(alloc, name, SOURCE_BYTES, files) {
        Ok(source) => hunt_source(rt, alloc, source.as_slice(), action, hunting, looks, out),
        Err(number) => Report::Fault(number),
    }
}

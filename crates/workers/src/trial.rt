//! Into how many groups the components of a setup are put: a trial finds what is fastest.
ghost use Rattle.std.specs.Prelude.{◌≡◌, ◌≤◌};
ghost use Rattle.task_seed.specs.Any.{any_turn};
ghost use Rattle.workers.specs.Gates.{StaysItself};

use crate::gate::{Gate, run_ahead};
use crate::running::{Job, run_with_stats};
use event_keys::Bound;
use group_exchange::Lease;
use groups::{Ran, Stop};
use lone_group::{LoneGroup, Rest, Took};
use std::alloc::Global;
use std::io::{self, Sink};
use std::sync::atomic::{AtomicU64, Ordering};
use std::sync::{Arc, Wait};
use std::thread::Threads;
use std::time::{Clock, Duration, Instant};
use task_seed::{AnyTurns, Setup};
use terms::NoMemory;
use trace::Counted;

// How long one group is looked at first, in microseconds: by that it is told how long the run will take. A run that is to be over sooner than so many
// has one group.
const GLANCE: u64 = 500;

const LONG: u64 = 250_000;

// How long one group is tried, in microseconds, and how many entries it does then at least.
const TRIED: u64 = 2_000;

const ENTRIES: u64 = 64;

// More groups have to come as far in three quarters of the time, twice.
const TIMES: u8 = 2;

// How often the number of groups is halved at most: 64 groups become one.
const HALVINGS: u8 = 6;

// Nothing is left to do.
const END: u64 = u64::MAX;

// Where a trial ends: once all groups have come to a tick, or so much time has passed and so many entries were done.
#[derive(Clone, Copy)]
struct Finish {
    tick: u64,
    limit: Duration,
    entries: u64,
}

// How far all groups came, and in how much time.
#[derive(Clone, Copy)]
struct Reached {
    tick: u64,
    took: Duration,
}

impl Reached {
    // Where more groups have to be.
    fn goal(self) -> Finish {
        Finish {
            tick: self.tick,
            limit: (self.took / 4).saturating_mul(3),
            entries: 0,
        }
    }
}

// A gate that looks on how far the groups of a run come, and ends the run where the trial ends.
#[derive(Drop)]
struct Trial<'x, R> {
    rt: &'x R,
    start: Instant,
    finish: Finish,
    done: AtomicU64,
    // Of each group the tick of what it had to do next.
    ticks: Vec<AtomicU64>,
}

impl<'x, R: Clock> Trial<'x, R> {
    // Of so many groups; none where the clock fails.
    fn new(
        rt: &'x R,
        alloc: Global,
        groups: u16,
        finish: Finish,
    ) -> Result<Option<Trial<'x, R>>, NoMemory> {
        let mut ticks = Vec::new(alloc);
        for _ in 0..groups {
            ticks.push(AtomicU64::new(0))?;
        }
        Ok(
            Instant::now(rt).ok().map(|start| Trial {
                rt,
                start,
                finish,
                done: AtomicU64::new(0),
                ticks,
            }),
        )
    }

    // The least tick of what the groups had to do next.
    fn least(&self) -> u64 {
        let mut least = END;
        for tick in &self.ticks {
            least = least.min(tick.load(Ordering::Relaxed));
        }
        least
    }

    // How much time has passed; all of it where the clock fails.
    fn elapsed(&self) -> Duration {
        match Instant::now(self.rt) {
            Ok(now) => now.saturating_duration_since(self.start),
            Err(_) => Duration::MAX,
        }
    }

    fn is_over(&self) -> bool {
        self.least() >= self.finish.tick
            || (self.done.load(Ordering::Relaxed) >= self.finish.entries
                && self.elapsed() >= self.finish.limit)
    }

    // A group did so many entries and has come to this tick.
    fn note(&self, group: u16, count: u32, tick: u64) {
        self.done.fetch_add(u64::from(count), Ordering::Relaxed);
        if let Some(word) = self.ticks.get(usize::from(group)) {
            word.store(tick, Ordering::Relaxed);
        }
    }
}

impl<'x, R: Clock + Sync> Gate<AnyTurns> for Trial<'x, R> {
    fn ahead(&self, alloc: Global, lease: &mut Lease<AnyTurns>, budget: u32) -> Ran
        ensures same { StaysItself any_turn lease.old lease.new }
    {
        if self.is_over() {
            let _none = run_ahead(alloc, lease, 0);
            return Ran {
                count: 0,
                stop: Stop::NoMemory,
            };
        }
        let ran = run_ahead(alloc, lease, budget);
        self.note(lease.number(), ran.count, tick_of(lease.next()));
        ran
    }

    fn ahead_alone(&self, alloc: Global, group: &mut LoneGroup<AnyTurns>, budget: u32) -> Took
        ensures same { group.new.setup ≡ group.old.setup }
    {
        if self.is_over() {
            return Took {
                count: 0,
                rest: Rest::NoMemory,
            };
        }
        let took = group.run_ahead(alloc, budget);
        let tick = match group.next() {
            Some(key) => key.tick,
            None => END,
        };
        self.note(0, took.count, tick);
        took
    }
}

fn tick_of(next: Bound) -> u64 {
    match next {
        Bound::End => END,
        Bound::At(key) => key.tick,
    }
}

/// Into how many groups the components of a setup are put, 1 to the number of the workers of a job: as many as workers, or half of them, a quarter and
/// so on, the first that proves faster than one group, as far as some milliseconds of their runs tell, whose text goes nowhere. One group, where none
/// does, where a run up to this last tick seems to be over within a quarter of a second, and where memory or the clock fails.
///
/// The trial's runs may wait as [`run`](crate::run) does. Nothing is promised of the answer but its range.
pub fn groups_by_trial<R: Threads + Wait + Sync + Clock>(
    rt: &R,
    alloc: Global,
    setup: &Arc<Setup<AnyTurns>>,
    job: Job,
    last: u64,
) -> u16
    requires workers { (1 ≤ job.workers) × (job.workers ≤ 64) }
    requires budget { (1 ≤ job.budget) × (job.budget ≤ 65535) }
    ensures { (1 ≤ result) × (result ≤ job.workers) }
{
    let mut groups = job.workers.min(setup.plan().components());
    if groups <= 1 || !is_long(rt, alloc, setup, job, last).unwrap_or(false) {
        return 1;
    }
    for _ in 0..HALVINGS {
        let tried = within(groups, job.workers);
        if tried == 1 {
            return 1;
        }
        match is_faster(rt, alloc, setup, job, tried) {
            Ok(Some(true)) => return tried,
            Ok(Some(false)) => groups = tried / 2,
            Ok(None) | Err(_) => return 1,
        }
    }
    1
}

// Whether a run by one group up to this tick seems to take long, as far as its beginning tells.
fn is_long<R: Threads + Wait + Sync + Clock>(
    rt: &R,
    alloc: Global,
    setup: &Arc<Setup<AnyTurns>>,
    job: Job,
    last: u64,
) -> Result<bool, NoMemory>
    requires budget { (1 ≤ job.budget) × (job.budget ≤ 65535) }
{
    let alone = Job { workers: 1, ..job };
    let finish = Finish {
        tick: END,
        limit: Duration::from_micros(GLANCE),
        entries: ENTRIES,
    };
    let Some(begun) = try_run(rt, alloc, setup, alone, finish)? else {
        return Ok(false);
    };
    if begun.tick == END {
        return Ok(false);
    }
    let times = u32::try_from(last / begun.tick.max(1)).unwrap_or(u32::MAX);
    Ok(begun.took.saturating_mul(times) >= Duration::from_micros(LONG))
}

// The number, but one at least and no more than that.
fn within(number: u16, most: u16) -> u16
    requires { 1 ≤ most }
    ensures { (1 ≤ result) × (result ≤ most) }
{
    number.max(1).min(most)
}

// Whether so many groups come as far as one in less time, each time that it is tried; none where that can't be told.
fn is_faster<R: Threads + Wait + Sync + Clock>(
    rt: &R,
    alloc: Global,
    setup: &Arc<Setup<AnyTurns>>,
    job: Job,
    groups: u16,
) -> Result<Option<bool>, NoMemory>
    requires workers { (1 ≤ groups) × (groups ≤ 64) }
    requires budget { (1 ≤ job.budget) × (job.budget ≤ 65535) }
{
    let first = Finish {
        tick: END,
        limit: Duration::from_micros(TRIED),
        entries: ENTRIES,
    };
    for _ in 0..TIMES {
        let alone = Job { workers: 1, ..job };
        let Some(one) = try_run(rt, alloc, setup, alone, first)? else {
            return Ok(None);
        };
        if one.tick == END {
            return Ok(None);
        }
        let goal = one.goal();
        let many = Job {
            workers: groups,
            ..job
        };
        match try_run(rt, alloc, setup, many, goal)? {
            None => return Ok(None),
            Some(came) if came.tick < goal.tick => return Ok(Some(false)),
            Some(_) => {}
        }
    }
    Ok(Some(true))
}

// Runs up to where the trial ends; none where the clock fails.
fn try_run<R: Threads + Wait + Sync + Clock>(
    rt: &R,
    alloc: Global,
    setup: &Arc<Setup<AnyTurns>>,
    job: Job,
    finish: Finish,
) -> Result<Option<Reached>, NoMemory>
    requires workers { (1 ≤ job.workers) × (job.workers ≤ 64) }
    requires budget { (1 ≤ job.budget) × (job.budget ≤ 65535) }
{
    let Some(gate) = Trial::new(rt, alloc, job.workers, finish)? else {
        return Ok(None);
    };
    let own = Arc::try_clone(setup)?;
    let mut out: Counted<Sink> = Counted::new(io::sink());
    let ran = run_with_stats(rt, alloc, own, job, &gate, &mut out);
    let took = gate.elapsed();
    let tick = if ran.is_ok() { END } else { gate.least() };
    Ok(Some(Reached { tick, took }))
}

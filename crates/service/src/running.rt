//! The engine of `run`, over bytes.
ghost use Rattle.std.specs.Prelude.{◌≡◌, ◌≤◌};
ghost use Rattle.std.specs.Arc.{arc_value};
ghost use Rattle.task_seed.specs.Any.{any_turn};
ghost use Rattle.task_seed.specs.Setups.{plan_of, system};
ghost use Rattle.trace.specs.Went.{IsStopped, IsWritten};
ghost use Rattle.service.specs.Crews.{IsCrewReport, IsRunReport, done};
ghost use Rattle.commands.specs.Setups.{given_of};

use command_line::Crew;
use commands::GivenTurns;
use commands::report::{Report, report_of};
use commands::setups::setup_of;
use std::alloc::Global;
use std::io::Write;
use std::sync::{Arc, Wait};
use std::thread::Threads;
use std::time::Clock;
use steering::Stats;
use task_seed::{AnyTurns, Setup};
use trace::{Counted, Form};
use workers::{Job, Unheld, Window, groups_by_trial, run_with_stats};

/// Up to which last tick, by whom, and in which form a run is written.
#[derive(Clone, Copy)]
pub struct Manner {
    pub ticks: u64,
    pub crew: Crew,
    pub form: Form,
}

/// Simulates the composition of a source by workers, with the turns that are given up to the last tick, and writes the lines of the turns as
/// they are committed, behind the head where it is asked for. The source is judged before the turns. Where no number of groups is asked for, a
/// trial finds how many are fastest.
///
/// It may wait. What went out is a beginning of the text of the simulator by one thread, and all of it where the report is `Done` or `Ran`.
pub fn run_source<W: Write + Drop, R: Threads + Wait + Sync + Clock>(
    rt: &R,
    alloc: Global,
    source: &[u8],
    given: GivenTurns,
    manner: Manner,
    out: &mut Counted<W>,
) -> Report
    ensures { IsRunReport source.now (given_of given.entry) manner.ticks manner.form
        manner.crew.stats (out.new ≡ out.old) (IsWritten W.contents out.old out.new)
        (IsStopped W.contents out.old out.new) result }
{
    match setup_of(alloc, source, given, manner.ticks) {
        Ok(setup) => run_setup(rt, alloc, setup, manner, out),
        Err(report) => report,
    }
}

/// Runs a setup, whose gate holds nobody.
pub(crate) fn run_setup<W: Write + Drop, R: Threads + Wait + Sync + Clock>(
    rt: &R,
    alloc: Global,
    setup: Setup<AnyTurns>,
    manner: Manner,
    out: &mut Counted<W>,
) -> Report
    ensures { IsCrewReport (plan_of setup) (system any_turn setup) manner.form
        manner.crew.stats (out.new ≡ out.old) (IsWritten W.contents out.old out.new)
        (IsStopped W.contents out.old out.new) result }
{
    let Manner { ticks, crew, form } = manner;
    let shared = match Arc::new(alloc, setup) {
        Ok(shared) => shared,
        Err(_refused) => return Report::Fault(1),
    };
    let job = Job {
        workers: crew.workers,
        budget: crew.budget,
        window: window_of(crew),
        form,
    };
    let workers = match crew.groups {
        Some(groups) => groups,
        None => groups_by_trial(rt, alloc, &shared, job, ticks),
    };
    match run_with_stats(rt, alloc, shared, Job { workers, ..job }, &Unheld, out) {
        Ok(counts) => done(crew.stats, counts),
        Err(fault) => report_of(&fault),
    }
}

// The window that is asked for, if one is.
fn window_of(crew: Crew) -> Option<Window> {
    match crew.window {
        None => None,
        Some(turns) => Some(Window::new(turns)),
    }
}

// The report on workers that are done.
fn done(stats: bool, counts: Stats) -> Report
    ensures { result ≡ done stats counts }
{
    if stats {
        Report::Ran(counts)
    } else {
        Report::Done
    }
}

//! The engines of `reference`, `check` and `drive` over the bytes of a source, of turns, of actions and of steps.
ghost use Rattle.std.specs.Prelude.{◌≡◌};
ghost use Rattle.task_seed.specs.Setups.{plan_of, system};
ghost use Rattle.trace.specs.Went.{IsStopped, IsWritten};
ghost use Rattle.commands.specs.Checks.{IsActionsReport, IsCheckReport, verdict_report};
ghost use Rattle.commands.specs.Drives.{IsDriveReport, IsStepsReport};
ghost use Rattle.commands.specs.Parts.{IsSimulationReport};
ghost use Rattle.commands.specs.Setups.{given_of};
ghost use Rattle.commands.specs.Simulations.{IsSimulateReport};

use crate::checking::check_trace;
use crate::driving::drive;
use crate::given::GivenTurns;
use crate::report::{Report, report_of};
use crate::setups::{plan_of, setup_of};
use crate::simulating::simulate;
use plans::Plan;
use reference::Verdict;
use std::alloc::Global;
use std::io::Write;
use task_seed::{Setup, Turns};
use trace::{Counted, Form, read_steps};

/// Simulates the composition of a source by one thread, with the turns that are given up to the last tick, and writes each turn's line as it
/// is taken, behind the head where it is asked for. The source is judged before the turns.
pub fn simulate_source<W: Write>(
    alloc: Global,
    source: &[u8],
    given: GivenTurns,
    ticks: u64,
    form: Form,
    out: &mut Counted<W>,
) -> Report
    ensures { IsSimulateReport source.now (given_of given.entry) ticks form (out.new ≡ out.old)
        (IsWritten W.contents out.old out.new) (IsStopped W.contents out.old out.new) result }
{
    match setup_of(alloc, source, given, ticks) {
        Ok(setup) => simulate_setup(alloc, setup, form, out),
        Err(report) => report,
    }
}

/// Simulates a setup.
pub fn simulate_setup<T: Turns, W: Write>(
    alloc: Global,
    setup: Setup<T>,
    form: Form,
    out: &mut Counted<W>,
) -> Report
    ensures { IsSimulationReport (plan_of setup) (system T.turn_of setup) form
        (IsWritten W.contents out.old out.new) (IsStopped W.contents out.old out.new) result }
{
    match simulate(alloc, setup, form, out) {
        Ok(()) => Report::Done,
        Err(fault) => report_of(&fault),
    }
}

/// Judges actions by the composition of a source, and writes the line of the verdict. The source is judged before the actions are read.
pub fn check_source<W: Write>(
    alloc: Global,
    source: &[u8],
    actions: &[u8],
    out: &mut Counted<W>,
) -> Report
    ensures { IsCheckReport source.now actions.now (out.new ≡ out.old)
        (IsWritten W.contents out.old out.new) (IsStopped W.contents out.old out.new) result }
{
    match plan_of(alloc, source) {
        Ok(plan) => check_plan(alloc, &plan, actions, out),
        Err(report) => report,
    }
}

/// Judges actions by a plan.
pub fn check_plan<W: Write>(
    alloc: Global,
    plan: &Plan,
    actions: &[u8],
    out: &mut Counted<W>,
) -> Report
    ensures { IsActionsReport plan.now actions.now (out.new ≡ out.old)
        (IsWritten W.contents out.old out.new) (IsStopped W.contents out.old out.new) result }
{
    match check_trace(alloc, plan, actions, out) {
        Ok(verdict) => verdict_report(verdict),
        Err(fault) => report_of(&fault),
    }
}

fn verdict_report(verdict: Verdict) -> Report
    ensures { result ≡ verdict_report verdict }
{
    match verdict {
        Verdict::Schedule => Report::Done,
        Verdict::NotEnabled(_) | Verdict::NotAnAction(_) => Report::No,
    }
}

/// Drives the composition of a source, with the turns that are given up to the last tick, by steps, and writes the lines of the turns that
/// are committed after all of them, behind the head where it is asked for. The source is judged before the turns, and those before the steps.
pub fn drive_source<W: Write>(
    alloc: Global,
    source: &[u8],
    given: GivenTurns,
    ticks: u64,
    steps: &[u8],
    form: Form,
    out: &mut Counted<W>,
) -> Report
    ensures { IsDriveReport source.now (given_of given.entry) ticks steps.now form
        (out.new ≡ out.old) (IsWritten W.contents out.old out.new)
        (IsStopped W.contents out.old out.new) result }
{
    match setup_of(alloc, source, given, ticks) {
        Ok(setup) => drive_setup(alloc, setup, steps, form, out),
        Err(report) => report,
    }
}

/// Drives a setup by steps.
pub fn drive_setup<T: Turns, W: Write>(
    alloc: Global,
    setup: Setup<T>,
    bytes: &[u8],
    form: Form,
    out: &mut Counted<W>,
) -> Report
    ensures { IsStepsReport (plan_of setup) (system T.turn_of setup) form bytes.now
        (out.new ≡ out.old) (IsWritten W.contents out.old out.new)
        (IsStopped W.contents out.old out.new) result }
{
    let steps = match read_steps(alloc, setup.plan(), bytes) {
        Ok(steps) => steps,
        Err(refused) => return report_of(&refused),
    };
    match drive(alloc, setup, steps.as_slice(), form, out) {
        Ok(refused) => Report::Driven(refused),
        Err(fault) => report_of(&fault),
    }
}

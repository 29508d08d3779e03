//! The engines of `print`, `reference`, `check` and `drive` over files, each of which is read after those before it were judged.
ghost use Rattle.std.specs.Prelude.{◌≡◌};
ghost use Rattle.task_seed.specs.Any.{any_turn};
ghost use Rattle.task_seed.specs.Setups.{plan_of, system};
ghost use Rattle.trace.specs.Went.{IsStopped, IsWritten};
ghost use Rattle.commands.specs.Checks.{IsActionsReport};
ghost use Rattle.commands.specs.Drives.{IsStepsReport};
ghost use Rattle.commands.specs.FileReports.{IsCheckFileReport, IsDriveFileReport, IsSimulateFileReport, IsSmallReport, form_for, lines_for};
ghost use Rattle.commands.specs.Reports.{IsPrintReport};

use crate::files::Files;
use crate::over_bytes::{check_plan, drive_setup, simulate_setup};
use crate::printing::print_source;
use crate::reading::{SOURCE_BYTES, plan_in, read_front, read_whole, setup_in};
use crate::report::{Report, report_of};
use command_line::Options;
use plans::Plan;
use std::alloc::Global;
use std::io::Write;
use task_seed::{AnyTurns, Setup};
use trace::{Counted, Form, Lines};

/// Prints the source in a file.
pub fn print_file<F: Files, W: Write>(
    alloc: Global,
    name: &str,
    files: &F,
    out: &mut Counted<W>,
) -> Report
    ensures report { IsPrintReport (F.has files.now name.now) (F.lacks files.now name.now)
        (out.new ≡ out.old) (IsWritten W.contents out.old out.new)
        (IsStopped W.contents out.old out.new) result }
{
    let source = match read_front(alloc, name, SOURCE_BYTES, files) {
        Ok(source) => source,
        Err(number) => return Report::Fault(number),
    };
    match print_source(alloc, source.as_slice(), out) {
        Ok(()) => Report::Done,
        Err(refused) => report_of(&refused),
    }
}

/// Simulates by one thread.
pub fn simulate_file<F: Files, W: Write>(
    alloc: Global,
    source: &str,
    options: Options,
    files: &F,
    out: &mut Counted<W>,
) -> Report
    ensures { IsSimulateFileReport (F.has files.now) (F.lacks files.now) source.now options.entry
        (out.new ≡ out.old) (IsWritten W.contents out.old out.new)
        (IsStopped W.contents out.old out.new) result }
{
    match setup_in(alloc, source, options, files) {
        Ok(setup) => simulate_setup(alloc, setup, form_for(options), out),
        Err(report) => report,
    }
}

/// Drives by the steps in a file.
pub fn drive_file<F: Files, W: Write>(
    alloc: Global,
    source: &str,
    steps: &str,
    options: Options,
    files: &F,
    out: &mut Counted<W>,
) -> Report
    ensures { IsDriveFileReport (F.has files.now) (F.lacks files.now) source.now steps.now
        options.entry (out.new ≡ out.old) (IsWritten W.contents out.old out.new)
        (IsStopped W.contents out.old out.new) result }
{
    match setup_in(alloc, source, options, files) {
        Ok(setup) => drive_by(alloc, setup, steps, form_for(options), files, out),
        Err(report) => report,
    }
}

// Drives a setup by the steps in a file.
fn drive_by<F: Files, W: Write>(
    alloc: Global,
    setup: Setup<AnyTurns>,
    name: &str,
    form: Form,
    files: &F,
    out: &mut Counted<W>,
) -> Report
    ensures { IsSmallReport (F.has files.now name.now) (F.lacks files.now name.now)
        (out.new ≡ out.old)
        (λ bytes. IsStepsReport (plan_of setup) (system any_turn setup) form bytes
        (out.new ≡ out.old) (IsWritten W.contents out.old out.new)
        (IsStopped W.contents out.old out.new)) result }
{
    match read_whole(alloc, name, files) {
        Ok(steps) => drive_setup(alloc, setup, steps.as_slice(), form, out),
        Err(number) => Report::Fault(number),
    }
}

/// Judges the actions in a file.
pub fn check_file<F: Files, W: Write>(
    alloc: Global,
    source: &str,
    trace: &str,
    files: &F,
    out: &mut Counted<W>,
) -> Report
    ensures { IsCheckFileReport (F.has files.now) (F.lacks files.now) source.now trace.now
        (out.new ≡ out.old) (IsWritten W.contents out.old out.new)
        (IsStopped W.contents out.old out.new) result }
{
    match plan_in(alloc, source, files) {
        Ok(plan) => check_by(alloc, &plan, trace, files, out),
        Err(report) => report,
    }
}

// Judges the actions in a file by a plan.
fn check_by<F: Files, W: Write>(
    alloc: Global,
    plan: &Plan,
    name: &str,
    files: &F,
    out: &mut Counted<W>,
) -> Report
    ensures { IsSmallReport (F.has files.now name.now) (F.lacks files.now name.now)
        (out.new ≡ out.old)
        (λ bytes. IsActionsReport plan.now bytes (out.new ≡ out.old)
        (IsWritten W.contents out.old out.new) (IsStopped W.contents out.old out.new)) result }
{
    match read_whole(alloc, name, files) {
        Ok(actions) => check_plan(alloc, plan, actions.as_slice(), out),
        Err(number) => Report::Fault(number),
    }
}

/// The form of what is written.
pub fn form_for(options: Options) -> Form
    ensures { result ≡ form_for options.entry }
{
    Form {
        lines: lines_for(options.trace),
        head: options.head,
    }
}

fn lines_for(is_trace: bool) -> Lines
    ensures { result ≡ lines_for is_trace }
{
    if is_trace { Lines::Trace } else { Lines::All }
}

//! What is asked for, done on files: each is read after those before it were judged.
ghost use Rattle.std.specs.Prelude.{◌≡◌};
ghost use Rattle.trace.specs.Went.{IsStopped, IsWritten};
ghost use Rattle.service.specs.Crews.{IsRunFileReport};
ghost use Rattle.service.specs.Reports.{IsFormatReportOn, IsReportOn};
ghost use Rattle.service.specs.Subjects.{alone, subject_of, with_table};

use crate::running::{Manner, run_setup};
use command_line::{Asked, Crew, Options};
use commands::Files;
use commands::diagrams::draw_file;
use commands::explaining::{Subject, explain_files};
use commands::formatting::{format_file, judge_layout};
use commands::hunting::hunt_file;
use commands::over_files::{check_file, drive_file, form_for, print_file, simulate_file};
use commands::reading::setup_in;
use commands::report::Report;
use hunt::Looks;
use std::alloc::Global;
use std::io::Write;
use std::sync::Wait;
use std::thread::Threads;
use std::time::Clock;
use trace::Counted;

/// Does what is asked for.
pub(crate) fn do_asked<
    F: Files,
    L: Looks + Sync,
    W: Write + Drop,
    R: Threads + Wait + Sync + Clock,
>(rt: &R, alloc: Global, asked: Asked, files: &F, looks: &L, out: &mut Counted<W>) -> Report
    ensures report { IsReportOn asked.entry (F.has files.now) (F.lacks files.now)
        (out.new ≡ out.old) (IsWritten W.contents out.old out.new)
        (IsStopped W.contents out.old out.new) result }
{
    match asked {
        Asked::Print { source } => print_file(alloc, source, files, out),
        Asked::Format { source, check } => do_format(alloc, source, check, files, out),
        Asked::Reference { source, options } => simulate_file(alloc, source, options, files, out),
        Asked::Run {
            source,
            options,
            crew,
        } => run_file(rt, alloc, source, options, crew, files, out),
        Asked::Check { source, trace } => check_file(alloc, source, trace, files, out),
        Asked::Drive {
            source,
            steps,
            options,
        } => drive_file(alloc, source, steps, options, files, out),
        Asked::Explain {
            source,
            table,
            steps,
            actions,
        } => explain_files(
            alloc,
            Subject {
                source,
                table,
                steps,
                actions,
            },
            files,
            out,
        ),
        Asked::Hunt {
            source,
            action,
            hunting,
        } => hunt_file(rt, alloc, source, action, hunting, files, looks, out),
        Asked::Draw {
            source,
            options,
            ticks,
        } => draw_file(alloc, source, options, ticks, files, out),
    }
}

// Writes the layout of the source in a file, or judges it.
fn do_format<F: Files, W: Write>(
    alloc: Global,
    source: &str,
    check: bool,
    files: &F,
    out: &mut Counted<W>,
) -> Report
    ensures { IsFormatReportOn check (F.has files.now source.now) (F.lacks files.now source.now)
        (out.new ≡ out.old) (IsWritten W.contents out.old out.new)
        (IsStopped W.contents out.old out.new) result }
{
    if check {
        judge_layout(alloc, source, files)
    } else {
        format_file(alloc, source, files, out)
    }
}

/// The files that are asked about.
pub(crate) fn subject_of<'a>(asked: Asked<'a>) -> Subject<'a>
    ensures { result ≡ subject_of asked.entry }
{
    match asked {
        Asked::Print { source } => alone(source),
        Asked::Format { source, .. } => alone(source),
        Asked::Reference { source, options } => with_table(source, options),
        Asked::Run {
            source,
            options,
            ..
        } => with_table(source, options),
        Asked::Check { source, trace } => Subject {
            actions: Some(trace),
            ..alone(source)
        },
        Asked::Drive {
            source,
            steps,
            options,
        } => Subject {
            steps: Some(steps),
            ..with_table(source, options)
        },
        Asked::Explain {
            source,
            table,
            steps,
            actions,
        } => Subject {
            source,
            table,
            steps,
            actions,
        },
        Asked::Hunt { source, .. } => alone(source),
        Asked::Draw {
            source,
            options,
            ..
        } => with_table(source, options),
    }
}

// A source and no other file.
fn alone<'a>(source: &'a str) -> Subject<'a>
    ensures { result ≡ alone source.entry }
{
    Subject {
        source,
        table: None,
        steps: None,
        actions: None,
    }
}

// A source with the table of turns, if there is one.
fn with_table<'a>(source: &'a str, options: Options<'a>) -> Subject<'a>
    ensures { result ≡ with_table source.entry options.entry }
{
    Subject {
        table: options.table,
        ..alone(source)
    }
}

// Simulates by workers.
fn run_file<F: Files, W: Write + Drop, R: Threads + Wait + Sync + Clock>(
    rt: &R,
    alloc: Global,
    source: &str,
    options: Options,
    crew: Crew,
    files: &F,
    out: &mut Counted<W>,
) -> Report
    ensures { IsRunFileReport (F.has files.now) (F.lacks files.now) source.now options.entry
        crew.stats (out.new ≡ out.old) (IsWritten W.contents out.old out.new)
        (IsStopped W.contents out.old out.new) result }
{
    match setup_in(alloc, source, options, files) {
        Ok(setup) => {
            let manner = Manner {
                ticks: options.ticks,
                crew,
                form: form_for(options),
            };
            run_setup(rt, alloc, setup, manner, out)
        }
        Err(report) => report,
    }
}

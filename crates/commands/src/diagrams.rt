//! The engine of `draw`, on the file of a source.
ghost use Rattle.std.specs.Prelude.{◌≡◌, IfErr, IfOk, map, string_bytes};
ghost use Rattle.ioa_trees.specs.Views.{view_component};
ghost use Rattle.task_seed.specs.Any.{any_turn};
ghost use Rattle.task_seed.specs.Setups.{plan_of, system};
ghost use Rattle.trace.specs.Went.{IsStopped, IsWritten};
ghost use Rattle.commands.specs.Drawing.{AreNames, IsDrawEnd, IsDrawFileReport, IsDrawReport, SourceMeans, SourceMeansNone, names_in, window_of};

use crate::files::Files;
use crate::reading::{SOURCE_BYTES, read_front, setup_asked};
use crate::report::{Report, report_of};
use crate::setups::plan_of;
use command_line::{Options, Ticks};
use drawing::{Window, draw};
use ioa_front::read;
use ioa_trees::tree::ComponentTree;
use std::alloc::{AllocError, Global};
use std::io::Write;
use task_seed::{AnyTurns, Setup, Turns};
use terms::NoMemory;
use trace::Counted;

// The names of components, in their order.
fn copied(alloc: Global, components: &[ComponentTree]) -> Result<Vec<String>, AllocError>
    ensures { IfOk result (λ names. map string_bytes names.items
        ≡ names_in (map view_component components.now)) }
{
    let mut names = Vec::new(alloc);
    let mut rest = components;
    while let Some((component, later)) = rest.split_first() {
        names.push(component.name.clone()?)?;
        rest = later;
    }
    Ok(names)
}

// The names of the components of a source. It was read before, so it is refused for want of memory alone.
fn names_of(alloc: Global, source: &[u8]) -> Result<Vec<String>, NoMemory>
    ensures { IfOk result (λ names. AreNames source.now (map string_bytes names.items)) }
{
    let read = match read(alloc, source) {
        Ok(read) => read,
        Err(_) => return Err(NoMemory),
    };
    match copied(alloc, read.tree().composed.components.as_slice()) {
        Ok(names) => Ok(names),
        Err(_) => Err(NoMemory),
    }
}

fn window_of(ticks: Ticks) -> Window
    ensures { result ≡ window_of ticks }
{
    Window {
        from: ticks.from,
        to: ticks.to,
    }
}

// Draws a setup, whose components are named as in a source.
fn draw_setup<T: Turns, W: Write>(
    alloc: Global,
    setup: &Setup<T>,
    source: &[u8],
    ticks: Ticks,
    out: &mut Counted<W>,
) -> Report
    ensures { IsDrawEnd (plan_of setup.now) (system T.turn_of setup.now) ticks
        (out.new ≡ out.old) (IsWritten W.contents out.old out.new)
        (IsStopped W.contents out.old out.new) source.now result }
{
    let names = match names_of(alloc, source) {
        Ok(names) => names,
        Err(_) => return Report::Fault(1),
    };
    match draw(alloc, setup, names.as_slice(), window_of(ticks), out) {
        Ok(()) => Report::Done,
        Err(fault) => report_of(&fault),
    }
}

// The setup that a source means with the turns that are asked for, or the report on why there is none. The source is judged before the
// table is read.
fn setup_for<F: Files>(
    alloc: Global,
    source: &[u8],
    options: Options,
    files: &F,
) -> Result<Setup<AnyTurns>, Report>
    ensures ok { IfOk result (λ setup. SourceMeans (F.has files.now) source.now options.entry
        (plan_of setup) (system any_turn setup)) }
    ensures err { IfErr result
        (SourceMeansNone (F.has files.now) (F.lacks files.now) source.now options.entry) }
{
    match plan_of(alloc, source) {
        Ok(plan) => setup_asked(alloc, plan, options, files),
        Err(report) => Err(report),
    }
}

// Draws the schedule of a source.
fn draw_source<F: Files, W: Write>(
    alloc: Global,
    source: &[u8],
    options: Options,
    ticks: Ticks,
    files: &F,
    out: &mut Counted<W>,
) -> Report
    ensures { IsDrawReport (F.has files.now) (F.lacks files.now) source.now options.entry ticks
        (out.new ≡ out.old) (IsWritten W.contents out.old out.new)
        (IsStopped W.contents out.old out.new) result }
{
    match setup_for(alloc, source, options, files) {
        Ok(setup) => draw_setup(alloc, &setup, source, ticks, out),
        Err(report) => report,
    }
}

/// Draws the schedule of the source in a file. A composition has no names of components, so its bytes are read once more for them.
pub fn draw_file<F: Files, W: Write>(
    alloc: Global,
    name: &str,
    options: Options,
    ticks: Ticks,
    files: &F,
    out: &mut Counted<W>,
) -> Report
    ensures { IsDrawFileReport (F.has files.now) (F.lacks files.now) name.now options.entry ticks
        (out.new ≡ out.old) (IsWritten W.contents out.old out.new)
        (IsStopped W.contents out.old out.new) result }
{
    match read_front(alloc, name, SOURCE_BYTES, files) {
        Ok(source) => draw_source(alloc, source.as_slice(), options, ticks, files, out),
        Err(number) => Report::Fault(number),
    }
}

//! The engine of `draw`.
ghost use Rattle.std.specs.Prelude.{◌≡◌, ◌≤◌, IfErr, IfOk, OnOk, filter, length, map, string_bytes, take};
ghost use Rattle.task_seed.specs.Setups.{plan_of, system};
ghost use Rattle.trace.specs.Puts.{written_of};
ghost use Rattle.trace.specs.Went.{IsStopped, IsWritten};
ghost use Rattle.drawing.specs.Drawn.{IsDrawn, IsUndrawn};
ghost use Rattle.drawing.specs.Turns.{is_within, most_components};

use crate::fault::DrawFault;
use crate::turns::{MOST_COMPONENTS, diagram};
use crate::window::{MOST_TURNS, Window};
use event_keys::Turned;
use reference::schedule;
use std::alloc::Global;
use std::io::Write;
use task_seed::{Setup, Turns};
use terms::NoMemory;
use trace::{Counted, write_text};

// Whether the turn is drawn.
fn is_within(window: Window, turned: &Turned) -> bool
    ensures { result ≡ is_within window turned.now }
{
    window.from <= turned.key.tick && turned.key.tick <= window.to
}

// Those of the turns that are drawn.
fn keep(turns: &mut Vec<Turned>, window: Window)
    ensures { turns.new.items ≡ filter (is_within window) turns.old.items }
{
    turns.retain(|turned| is_within(window, turned));
}

// The first names, as many as are drawn.
fn first_names(names: &[String]) -> &[String]
    ensures first { result.now ≡ take most_components names.now }
    ensures few { length result.now ≤ 1024 }
{
    if names.len() > MOST_COMPONENTS {
        &names[..MOST_COMPONENTS]
    } else {
        names
    }
}

// The diagram of a setup's schedule.
fn text_of<T: Turns>(
    alloc: Global,
    setup: &Setup<T>,
    names: &[String],
    window: Window,
) -> Result<Vec<u8>, NoMemory>
    ensures { IfOk result (λ text. IsDrawn (plan_of setup.now) (system T.turn_of setup.now)
        (map string_bytes names.now) window (λ drawn. text.items ≡ drawn)) }
{
    let mut turns = schedule(alloc, setup)?;
    keep(&mut turns, window);
    let many = turns.as_slice().len();
    turns.truncate(MOST_TURNS);
    diagram(
        alloc,
        setup.plan(),
        first_names(names),
        window.from,
        many,
        turns.as_slice(),
    )
}

/// Writes the space-time diagram of the schedule of a setup, in SVG: a line downwards for each component with its name, a dot for each turn
/// at its tick, hollow where it was idle, the action beside it, and an arrow to each receiver. It has colours for day and night, and no
/// scripts. The turns are those of the simulator that always takes the least key, as far as their ticks are in the window; of more than
/// 2,000 the first 2,000 are drawn, and a remark says so. Names beyond the first 1,024 aren't written.
///
/// What it holds grows with the number of all turns.
///
/// # Errors
///
/// `NoMemory`; then nothing is written. `Write` where a write failed, with the number of the text's bytes that went out before.
pub fn draw<T: Turns, W: Write>(
    alloc: Global,
    setup: &Setup<T>,
    names: &[String],
    window: Window,
    out: &mut Counted<W>,
) -> Result<(), DrawFault>
    ensures drawn { OnOk result (IsDrawn (plan_of setup.now) (system T.turn_of setup.now)
        (map string_bytes names.now) window (IsWritten W.contents out.old out.new)) }
    ensures undrawn { IfErr result (IsUndrawn (plan_of setup.now) (system T.turn_of setup.now)
        (map string_bytes names.now) window (out.new ≡ out.old)
        (λ text failed. IsStopped W.contents out.old out.new text (written_of failed))) }
{
    let Ok(text) = text_of(alloc, setup, names, window) else {
        return Err(DrawFault::NoMemory);
    };
    match write_text(text.as_slice(), out) {
        Ok(()) => Ok(()),
        Err(fault) => Err(DrawFault::Write(fault)),
    }
}

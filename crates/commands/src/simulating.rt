//! The engine of `reference`, for a setup.
ghost use Rattle.std.specs.Prelude.{◌≡◌, [], IfErr, IfOk, OnOk, option_copied};
ghost use Rattle.std.specs.Io.KnownBytes.{Keeps};
ghost use Rattle.task_seed.specs.Setups.{plan_of, system};
ghost use Rattle.task_seed.specs.Taken.{turned_of};
ghost use Rattle.schedules.specs.Schedules.{KeyFits};
ghost use Rattle.trace.specs.Counts.{failures_of, writer_of};
ghost use Rattle.trace.specs.Headed.{Behind, headed};
ghost use Rattle.trace.specs.Lines.{shown_text};
ghost use Rattle.trace.specs.Puts.{Puts, Stops};
ghost use Rattle.trace.specs.Went.{IsWritten};
ghost use Rattle.commands.specs.Simulated.{IsSimulated, IsUnsimulated};
ghost use Rattle.commands.specs.Streams.{IsKnown};

use crate::fault::SimulateFault;
use event_keys::Key;
use plans::Plan;
use reference::Reference;
use schedules::laws::turns_are_schedule;
use std::alloc::Global;
use std::io::Write;
use std::sync::Arc;
use task_seed::laws::machine_is_lawful;
use task_seed::{Setup, Turns};
use terms::{Action, State};
use trace::{Counted, Form, Lines, WriteFault, append_taken, write_front};
use virtual_time::reference::{reference_is_complete, reference_is_one};

/// Simulates a composition by one thread, which always takes the turn with the least key, and writes
/// each turn's line as it is taken; the first line goes out at once. A head that is asked for goes
/// out before any turn is taken. What it holds grows with the number of components, and not with
/// that of turns.
///
/// # Errors
///
/// `NoMemory`; then the lines of the turns before it are written. `Write` where a write failed, with
/// the number of the bytes, those of the head too, that went out before.
pub fn simulate<T: Turns, W: Write>(
    alloc: Global,
    setup: Setup<T>,
    form: Form,
    out: &mut Counted<W>,
) -> Result<(), SimulateFault>
    ensures simulated { OnOk result (IsSimulated (plan_of setup) (system T.turn_of setup)
        form.lines (Behind form.head (IsWritten W.contents out.old out.new))) }
    ensures unsimulated { IfErr result (IsUnsimulated (plan_of setup) (system T.turn_of setup)
        form.lines (Behind form.head (IsWritten W.contents out.old out.new))
        (λ text. Stops W.contents out.old out.new 0 (headed form.head text))) }
{
    known_law(&setup);
    match write_front(form.head, out) {
        Ok(before) => simulate_on(alloc, setup, form.lines, before, out),
        Err(fault) => {
            drop(setup);
            Err(SimulateFault::Write(fault))
        }
    }
}

// Simulates, where so many bytes went out before the lines.
fn simulate_on<T: Turns, W: Write>(
    alloc: Global,
    setup: Setup<T>,
    lines: Lines,
    before: u64,
    out: &mut Counted<W>,
) -> Result<(), SimulateFault>
    requires known { IsKnown (plan_of setup) (system T.turn_of setup) }
    ensures simulated { OnOk result (IsSimulated (plan_of setup) (system T.turn_of setup) lines
        (IsWritten W.contents out.old out.new)) }
    ensures unsimulated { IfErr result (IsUnsimulated (plan_of setup) (system T.turn_of setup) lines
        (IsWritten W.contents out.old out.new) (Stops W.contents out.old out.new before)) }
{
    let shared = Arc::new(alloc, setup)?;
    let mut reference = Reference::new(alloc, shared)?;
    write_all(alloc, &mut reference, lines, before, out)
}

// What is known of the turns of a setup. The call does nothing.
fn known_law<T: Turns>(setup: &Setup<T>)
    ensures { IsKnown (plan_of setup.now) (system T.turn_of setup.now) }
{
    machine_is_lawful(setup);
    turns_are_schedule(setup);
    reference_is_one::<State, Action>();
    reference_is_complete::<State, Action>();
}

// Takes all turns from the start on, and writes the line of each, where so many bytes went out
// before.
fn write_all<T: Turns, W: Write>(
    alloc: Global,
    reference: &mut Reference<T>,
    lines: Lines,
    before: u64,
    out: &mut Counted<W>,
) -> Result<(), SimulateFault>
    requires known { IsKnown (plan_of reference.old.setup) (system T.turn_of reference.old.setup) }
    requires start { reference.old.taken ≡ [] }
    ensures simulated { OnOk result (IsSimulated (plan_of reference.old.setup)
        (system T.turn_of reference.old.setup) lines (IsWritten W.contents out.old out.new)) }
    ensures unsimulated { IfErr result (IsUnsimulated (plan_of reference.old.setup)
        (system T.turn_of reference.old.setup) lines (IsWritten W.contents out.old out.new)
        (Stops W.contents out.old out.new before)) }
{
    let mut written = before;
    let mut found = None;
    while let Some(key) = reference.step_into(alloc, &mut found)? {
        let plan = reference.setup().plan();
        match put_turn(plan, key, found.as_ref(), lines, before, written, out) {
            Ok(after) => written = after,
            Err(fault) => return Err(SimulateFault::Write(fault)),
        }
    }
    Ok(())
}

// Writes the line of a turn, where so many bytes went out before the first one and before this one.
#[inline(always)]
fn put_turn<W: Write>(
    plan: &Plan,
    key: Key,
    found: Option<&Action>,
    lines: Lines,
    start: u64,
    before: u64,
    out: &mut Counted<W>,
) -> Result<u64, WriteFault>
    ensures key { KeyFits key }
    ensures ok { IfOk result (λ after. Puts W.contents out.old out.new before after
        (shown_text plan.now lines (turned_of (option_copied found.entry) key))) }
    ensures err { IfErr result (λ fault. Stops W.contents out.old out.new before
        (shown_text plan.now lines (turned_of (option_copied found.entry) key)) fault) }
{
    let after = append_taken(plan, key, found, lines, before, out)?;
    send_first(start, before, after, out);
    Ok(after)
}

// Lets the first line go out at once. That a flush failed shows at the next write.
fn send_first<W: Write>(start: u64, before: u64, after: u64, out: &mut Counted<W>)
    ensures bytes { Keeps (W.contents (writer_of out.old)) (W.contents (writer_of out.new)) }
    ensures failures { failures_of out.new ≡ failures_of out.old }
{
    if before == start && after > start {
        let _ = out.flush();
    }
}

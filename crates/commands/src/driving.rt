//! The engine of `drive`, for a setup and steps.
ghost use Rattle.std.specs.Prelude.{◌≡◌, IfErr, IfOk, OnOk, map, reverse};
ghost use Rattle.task_seed.specs.Setups.{plan_of, system};
ghost use Rattle.schedules.specs.Schedules.{KeysFit};
ghost use Rattle.rollback.specs.ComponentView.{machine_of};
ghost use Rattle.virtual_time.specs.Worlds.{start_world};
ghost use Rattle.trace.specs.Headed.{Behind, headed};
ghost use Rattle.trace.specs.Lines.{text_of};
ghost use Rattle.trace.specs.Puts.{Puts, Stops};
ghost use Rattle.trace.specs.Went.{IsWritten};
ghost use Rattle.world.specs.Simulation.{world_of};
ghost use Rattle.world.specs.Steps.{answer_of};
ghost use Rattle.commands.specs.Driven.{IsBeginning, IsDriven, IsUndriven, refused_from};

use crate::fault::DriveFault;
use schedules::fits;
use schedules::laws::turns_are_schedule;
use std::alloc::{AllocError, Global};
use std::io::Write;
use std::sync::Arc;
use task_seed::laws::machine_is_lawful;
use task_seed::{Setup, Turns};
use terms::{Action, Refusal, State};
use trace::{Counted, Form, Lines, WriteFault, append_turns, write_front};
use virtual_time::reference::{reference_is_complete, reference_is_one};
use world::{Reply, Step, StepRefused, World};

/// A step that was refused.
#[derive(Clone, Copy, PartialEq, Eq)]
pub struct RefusedStep {
    /// Its place among all steps, counted from 1.
    pub step: u64,
    /// The number of the refusal.
    pub number: u8,
}

/// Drives a world from its start by steps, and writes the lines of the turns that are committed after all of them, behind the head where it is
/// asked for; a refused step leaves the world, and the next one follows. The answer is the refused steps, in their order.
///
/// # Errors
///
/// `NoMemory`; then nothing is written, the head neither. `Write` where a write failed, with the number of the bytes, those of the head too,
/// that went out before.
pub fn drive<T: Turns, W: Write>(
    alloc: Global,
    setup: Setup<T>,
    steps: &[Step],
    form: Form,
    out: &mut Counted<W>,
) -> Result<Vec<RefusedStep>, DriveFault>
    ensures driven { IfOk result (λ refused. IsDriven (plan_of setup) (system T.turn_of setup)
        form.lines steps.now (Behind form.head (IsWritten W.contents out.old out.new))
        refused.items) }
    ensures undriven { IfErr result (IsUndriven (plan_of setup) (system T.turn_of setup)
        form.lines steps.now (out.new ≡ out.old)
        (λ text. Stops W.contents out.old out.new 0 (headed form.head text))) }
{
    let shared = Arc::new(alloc, setup)?;
    let mut world = World::new(alloc, shared)?;
    drive_world(alloc, &mut world, steps, form, out)
}

// Drives a world that is at its start.
fn drive_world<T: Turns, W: Write>(
    alloc: Global,
    world: &mut World<T>,
    steps: &[Step],
    form: Form,
    out: &mut Counted<W>,
) -> Result<Vec<RefusedStep>, DriveFault>
    requires start { world_of (machine_of T.turn_of world.old.setup) world.old
        ≡ start_world (machine_of T.turn_of world.old.setup) }
    ensures driven { IfOk result (λ refused. IsDriven (plan_of world.old.setup)
        (system T.turn_of world.old.setup) form.lines steps.now
        (Behind form.head (IsWritten W.contents out.old out.new)) refused.items) }
    ensures undriven { IfErr result (IsUndriven (plan_of world.old.setup)
        (system T.turn_of world.old.setup) form.lines steps.now (out.new ≡ out.old)
        (λ text. Stops W.contents out.old out.new 0 (headed form.head text))) }
{
    let replies = world.run(alloc, steps)?;
    let refused = refused_steps(alloc, replies.as_slice())?;
    committed_begins(world, form.lines);
    match write_committed(world, form, out) {
        Ok(_) => Ok(refused),
        Err(fault) => Err(DriveFault::Write(fault)),
    }
}

// The refused steps among those that have these replies.
fn refused_steps(
    alloc: Global,
    replies: &[Result<Reply, StepRefused>],
) -> Result<Vec<RefusedStep>, AllocError>
    ensures { IfOk result (λ refused. refused.items ≡ refused_from 1 (map answer_of replies.now)) }
{
    let mut refused = Vec::new(alloc);
    for (place, reply) in replies.iter().enumerate() {
        if let Err(refusal) = reply {
            refused.push(RefusedStep {
                step: place as u64 + 1,
                number: refusal.number(),
            })?;
        }
    }
    Ok(refused)
}

// The numbers of the keys of what is committed fit their types. The call reads each of them, so that they are known to.
fn committed_fits<T: Turns>(world: &World<T>)
    ensures { KeysFit (reverse world.now.committed) }
{
    for turned in world.committed().iter() {
        fits(turned.key);
    }
}

// The text of what is committed is a beginning of that of all turns, and its actions are a schedule. The call changes nothing.
fn committed_begins<T: Turns>(world: &World<T>, lines: Lines)
    ensures { IsBeginning (plan_of world.now.setup) (system T.turn_of world.now.setup) lines
        (reverse world.now.committed) }
{
    machine_is_lawful(world.setup());
    turns_are_schedule(world.setup());
    reference_is_one::<State, Action>();
    reference_is_complete::<State, Action>();
    committed_fits(world);
    let _ = world.committed();
}

// Writes the lines of what is committed, in the order of keys, behind the head where it is asked for,
// and answers the number of bytes.
fn write_committed<T: Turns, W: Write>(
    world: &World<T>,
    form: Form,
    out: &mut Counted<W>,
) -> Result<u64, WriteFault>
    ensures ok { IfOk result (λ after. Puts W.contents out.old out.new 0 after (headed form.head
        (text_of (plan_of world.now.setup) form.lines (reverse world.now.committed)))) }
    ensures err { IfErr result (Stops W.contents out.old out.new 0 (headed form.head
        (text_of (plan_of world.now.setup) form.lines (reverse world.now.committed)))) }
{
    match write_front(form.head, out) {
        Ok(before) => put_committed(world, form.lines, before, out),
        Err(fault) => Err(fault),
    }
}

// Writes the lines, where so many bytes went out before, and answers the number from then on.
fn put_committed<T: Turns, W: Write>(
    world: &World<T>,
    lines: Lines,
    before: u64,
    out: &mut Counted<W>,
) -> Result<u64, WriteFault>
    ensures ok { IfOk result (λ after. Puts W.contents out.old out.new before after
        (text_of (plan_of world.now.setup) lines (reverse world.now.committed))) }
    ensures err { IfErr result (Stops W.contents out.old out.new before
        (text_of (plan_of world.now.setup) lines (reverse world.now.committed))) }
{
    append_turns(
        world.setup().plan(),
        world.committed().iter(),
        lines,
        before,
        out,
    )
}

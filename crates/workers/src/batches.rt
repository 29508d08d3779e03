//! What the calling thread does where all components are in one group: it writes the turns that the worker took.
ghost use Rattle.std.specs.Prelude.{◌≡◌, ◌≤◌, IfErr, IfOk, length, take};
ghost use Rattle.task_seed.specs.Setups.{system};
ghost use Rattle.lone_group.specs.Lone.{IsBatch};
ghost use Rattle.workers.specs.Alone.{IsWriterOf};
ghost use Rattle.workers.specs.Runs.{WroteAll, WroteSome};

use crate::activity::alone_stats;
use crate::alone::{Relay, Writer};
use crate::fault::{RunFault, WorkFault, run_fault};
use crate::portions::put_slots;
use crate::writing::Page;
use lone_group::{Batch, Slot};
use schedules::laws::turns_are_schedule;
use std::alloc::Global;
use std::io::Write;
use std::sync::Wait;
use std::sync::atomic::Ordering;
use steering::Stats;
use task_seed::{Setup, Turns};
use trace::Counted;

// The next batch, if one waits. The slots of the one before it go back, whose memory serves again.
fn next_batch<T: Turns, R: Wait>(
    rt: &R,
    relay: &Relay<T>,
    own: &Setup<T>,
    writer: &mut Writer<T>,
    spare: Vec<Slot>,
) -> Result<Batch, Vec<Slot>>
    requires { IsWriterOf relay.now own.now writer.old }
    ensures writer { IsWriterOf relay.now own.now writer.new }
    ensures batch { IfOk result (IsBatch (system T.turn_of own.now)) }
{
    let _ = own;
    if relay.batches.load(Ordering::SeqCst) == 0 {
        return Err(spare);
    }
    let Some(mut passed) = relay.board.take(rt, &mut writer.pass) else {
        return Err(spare);
    };
    let found = passed.inside.take();
    let answer = match found {
        Some(batch) => {
            passed.inside.give_slots(spare);
            Ok(batch)
        }
        None => Err(spare),
    };
    let left = passed.inside.batches() as u64;
    relay.batches.store(left, Ordering::SeqCst);
    relay.board.give_back(rt, &mut writer.pass, passed);
    answer
}

// The fault that ends the run, if there is one. The lock isn't taken else.
fn noted<T: Turns, R: Wait>(rt: &R, relay: &Relay<T>) -> Option<WorkFault> {
    if !relay.ends.has_ended() {
        return None;
    }
    relay.ends.noted(rt)
}

// The turns of a batch.
fn used_of(batch: &Batch) -> &[Slot]
    requires { batch.now.used ≤ length batch.now.slots.items }
    ensures { result.now ≡ take batch.now.used batch.now.slots.items }
{
    &batch.slots[..batch.used]
}

// Writes batches until the last. What was written is a beginning of the text of all turns, whose actions are a schedule.
pub(crate) fn write_batches<T: Turns, W: Write, R: Wait>(
    rt: &R,
    alloc: Global,
    relay: &Relay<T>,
    own: &Setup<T>,
    writer: &mut Writer<T>,
    page: Page,
    out: &mut Counted<W>,
) -> Result<Stats, RunFault>
    requires { IsWriterOf relay.now own.now writer.old }
    ensures whole { IfOk result
        (λ stats. WroteAll T.turn_of W.contents own.now page.lines out.old out.new stats.turns) }
    ensures unfinished { IfErr result
        (WroteSome T.turn_of W.contents own.now page.lines out.old out.new page.before) }
{
    turns_are_schedule(own);
    let mut written = 0;
    let mut bytes = page.before;
    let mut batches: u64 = 0;
    let mut spare = Vec::new(alloc);
    for _ in rt.forever() {
        let batch = match next_batch(rt, relay, own, writer, spare) {
            Ok(batch) => batch,
            Err(kept) => {
                spare = kept;
                if let Some(fault) = noted(rt, relay) {
                    return Err(run_fault(fault));
                }
                writer.pace.wait(rt);
                continue;
            }
        };
        writer.pace.go_on();
        batches = batches.saturating_add(1);
        if batch.first != written {
            return Err(RunFault::OutOfPlace);
        }
        match put_slots(own.plan(), used_of(&batch), page.lines, bytes, out) {
            Ok(after) => bytes = after,
            Err(fault) => return Err(RunFault::Write(fault)),
        }
        written = batch.given;
        if batch.is_last {
            return Ok(alone_stats(written, batches, relay.waited.load(Ordering::SeqCst)));
        }
        spare = batch.slots;
    }
    unreachable!()
}

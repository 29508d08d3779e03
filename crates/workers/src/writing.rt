//! What the calling thread does: it writes the turns that are committed for good.
ghost use Rattle.std.specs.Prelude.{◌≡◌, IfErr, IfOk, length};
ghost use Rattle.plans.specs.Plans.{composition};
ghost use Rattle.task_seed.specs.Setups.{plan_of, system};
ghost use Rattle.group_exchange.specs.Held.{put_all};
ghost use Rattle.workers.specs.Portions.{IsCutOf, IsDuePortion, IsPortion};
ghost use Rattle.workers.specs.Runs.{WroteAll, WroteSome};
ghost use Rattle.workers.specs.Crews.{IsCallerOf, StaysDivided};

use crate::crew::Caller;
use crate::fault::{RunFault, WorkFault, run_fault};
use crate::portions::{Cut, Portion, put_portion};
use crate::shared::{Shared, hold, note_look};
use event_keys::Turned;
use group_exchange::{Exchange, Parcel};
use raw_events::EventList;
use schedules::laws::turns_are_schedule;
use std::io::Write;
use std::sync::Wait;
use steering::Stats;
use steering::nap::nap;
use task_seed::{Setup, Turns};
use trace::{Counted, Lines};

// The next chunk of an exchange, in a parcel.
fn take_cut<T: Turns>(exchange: &mut Exchange<T>, parcel: &mut Parcel) -> Cut
    requires many { length parcel.old ≡ length (composition (plan_of exchange.old.setup)) }
    ensures cut { IsCutOf (system T.turn_of exchange.old.setup) result (put_all parcel.new) }
    ensures many { length parcel.new ≡ length parcel.old }
    ensures divided { StaysDivided exchange.old exchange.new }
    ensures stubs { exchange.new.stubs ≡ exchange.old.stubs }
{
    exchange.soundness_law();
    let is_last = exchange.finished();
    let first = exchange.take_parcel(parcel);
    let given = exchange.given();
    Cut {
        first,
        given,
        is_last,
    }
}

// What was cut off, put together. It takes a while, so the exchange is given back before.
fn put_together<T: Turns>(own: &Setup<T>, cut: Cut, parcel: &mut Parcel) -> Portion
    requires { IsCutOf (system T.turn_of own.now) cut (put_all parcel.old) }
    ensures portion { IsPortion (system T.turn_of own.now) result }
    ensures many { length parcel.new ≡ length parcel.old }
{
    let _ = own;
    Portion {
        turns: parcel.put_together(),
        first: cut.first,
        given: cut.given,
        is_last: cut.is_last,
    }
}

// With the exchange: the next chunk comes into the parcel, and the cells of what was written go to the workers.
fn collect<T: Turns, R: Wait>(
    rt: &R,
    shared: &Shared<T>,
    own: &Setup<T>,
    caller: &mut Caller<T>,
    spare: &mut EventList<Turned>,
) -> Cut
    requires { IsCallerOf shared.now own.now caller.old }
    ensures caller { IsCallerOf shared.now own.now caller.new }
    ensures cut { IsCutOf (system T.turn_of own.now) result (put_all caller.new.parcel) }
{
    let _ = own;
    let mut lent = hold(rt, shared, &mut caller.pass);
    let cut = take_cut(&mut lent.desk.exchange, &mut caller.parcel);
    caller.activity = lent.desk.activity;
    caller.activity.tally = lent.desk.exchange.tally();
    lent.desk.spare.append_all(spare);
    shared.board.give_back(rt, &mut caller.pass, lent);
    cut
}

// The next portion, where the published count tells that there may be one, or a worker has ended. The lock isn't taken else.
fn next_portion<T: Turns, R: Wait>(
    rt: &R,
    shared: &Shared<T>,
    own: &Setup<T>,
    caller: &mut Caller<T>,
    written: u64,
    spare: &mut EventList<Turned>,
) -> Result<Option<Portion>, WorkFault>
    requires { IsCallerOf shared.now own.now caller.old }
    ensures caller { IsCallerOf shared.now own.now caller.new }
    ensures portion { IfOk result (IsDuePortion (system T.turn_of own.now)) }
{
    note_look(shared);
    let count = shared.published.read(&mut caller.seat);
    if count <= written && !shared.ends.has_ended() {
        return Ok(None);
    }
    if let Some(fault) = shared.ends.noted(rt) {
        return Err(fault);
    }
    let cut = collect(rt, shared, own, caller, spare);
    Ok(Some(put_together(own, cut, &mut caller.parcel)))
}

// Naps, unless a worker has ended: then what is left can be had at once.
fn rest<T: Turns, R: Wait>(rt: &R, shared: &Shared<T>) {
    if !shared.ends.has_ended() {
        nap(rt);
    }
}

// Which lines are written, and how many bytes went out before them.
#[derive(Clone, Copy)]
pub(crate) struct Page {
    pub(crate) lines: Lines,
    pub(crate) before: u64,
}

// Writes portions until the last. What was written is a beginning of the text of all turns, whose actions
// are a schedule.
pub(crate) fn write_all<T: Turns, W: Write, R: Wait>(
    rt: &R,
    shared: &Shared<T>,
    own: &Setup<T>,
    caller: &mut Caller<T>,
    page: Page,
    out: &mut Counted<W>,
) -> Result<Stats, RunFault>
    requires { IsCallerOf shared.now own.now caller.old }
    ensures whole { IfOk result
        (λ stats. WroteAll T.turn_of W.contents own.now page.lines out.old out.new stats.turns) }
    ensures unfinished { IfErr result
        (WroteSome T.turn_of W.contents own.now page.lines out.old out.new page.before) }
{
    turns_are_schedule(own);
    let mut written = 0;
    let mut bytes = page.before;
    let mut spare = EventList::new();
    for _ in rt.forever() {
        let mut portion = match next_portion(rt, shared, own, caller, written, &mut spare) {
            Ok(Some(portion)) => portion,
            Ok(None) => {
                rest(rt, shared);
                continue;
            }
            Err(fault) => return Err(run_fault(fault)),
        };
        if portion.first != written {
            return Err(RunFault::OutOfPlace);
        }
        match put_portion(own.plan(), &portion.turns, page.lines, bytes, out) {
            Ok(after) => bytes = after,
            Err(fault) => return Err(RunFault::Write(fault)),
        }
        spare.append_all(&mut portion.turns);
        written = portion.given;
        if portion.is_last {
            return Ok(
                caller
                    .activity
                    .stats(written, shared.signals.groups(), caller.cut),
            );
        }
        rest(rt, shared);
    }
    unreachable!()
}

//! What the worker does that has all components in one group.
ghost use Rattle.std.specs.Prelude.{◌≡◌};
ghost use Rattle.workers.specs.Alone.{IsTakerOf};

use crate::alone::{Relay, Taker};
use crate::fault::WorkFault;
use crate::gate::Gate;
use lone_group::{Handover, LoneGroup, Rest};
use std::alloc::Global;
use std::sync::Wait;
use std::sync::atomic::Ordering;
use task_seed::Turns;
use terms::NoMemory;

// Takes turns until all are handed over, or a fault was noted.
pub(crate) fn take_turns<T: Turns, G: Gate<T>, R: Wait>(
    rt: &R,
    alloc: Global,
    relay: &Relay<T>,
    gate: &G,
    mut taker: Taker<T>,
)
    requires { IsTakerOf relay.now taker }
{
    for _ in rt.forever() {
        if relay.ends.has_ended() {
            break;
        }
        match go_round(rt, alloc, relay, gate, &mut taker) {
            Ok(Round::Went) => taker.pace.go_on(),
            Ok(Round::Vain) => taker.pace.wait(rt),
            Ok(Round::End) => break,
            Err(fault) => {
                relay.ends.note(rt, fault);
                break;
            }
        }
    }
    relay.ends.end();
}

// What a round came to: it took or fetched turns, or it did not, or all are handed over.
#[derive(Clone, Copy)]
enum Round {
    Went,
    Vain,
    End,
}

// Takes some turns, and hands over what it took, where it may.
fn go_round<T: Turns, G: Gate<T>, R: Wait>(
    rt: &R,
    alloc: Global,
    relay: &Relay<T>,
    gate: &G,
    taker: &mut Taker<T>,
) -> Result<Round, WorkFault>
    requires { IsTakerOf relay.now taker.old }
    ensures { IsTakerOf relay.now taker.new }
{
    let went = go_on(rt, alloc, relay, gate, taker)?;
    let has_shared = share(rt, alloc, relay, taker)?;
    if has_shared && taker.group.next().is_none() {
        return Ok(Round::End);
    }
    Ok(if went { Round::Went } else { Round::Vain })
}

// Takes some turns, as the gate lets it, of those that are drawn, unless many wait to be handed over. Whether it took or fetched any.
fn go_on<T: Turns, G: Gate<T>, R: Wait>(
    rt: &R,
    alloc: Global,
    relay: &Relay<T>,
    gate: &G,
    taker: &mut Taker<T>,
) -> Result<bool, WorkFault>
    requires { IsTakerOf relay.now taker.old }
    ensures { IsTakerOf relay.now taker.new }
{
    if taker.group.is_undrawn() {
        return fetch(rt, relay, taker);
    }
    if !taker.pace.has_room(taker.group.waiting()) {
        return Ok(false);
    }
    let most = taker.pace.slice();
    let took = gate.ahead_alone(alloc, &mut taker.group, most);
    if took.count == 0 && took.rest == Rest::NoMemory {
        return Err(WorkFault::NoMemory);
    }
    Ok(took.count > 0)
}

// Fetches the turns that were drawn, if there are any. Whether there were.
fn fetch<T: Turns, R: Wait>(
    rt: &R,
    relay: &Relay<T>,
    taker: &mut Taker<T>,
) -> Result<bool, WorkFault>
    requires { IsTakerOf relay.now taker.old }
    ensures { IsTakerOf relay.now taker.new }
{
    if relay.drawn.load(Ordering::SeqCst) == 0 {
        return Ok(false);
    }
    let Some(mut passed) = relay.board.take(rt, &mut taker.pass) else {
        return Ok(false);
    };
    let has_added = add(&mut passed.inside, &mut taker.group);
    let left = passed.inside.drawn() as u64;
    relay.drawn.store(left, Ordering::SeqCst);
    relay.board.give_back(rt, &mut taker.pass, passed);
    has_added
}

// What was drawn, if it is there, comes to the group.
fn add<T: Turns>(inside: &mut Handover<T>, group: &mut LoneGroup<T>) -> Result<bool, WorkFault>
    requires own { group.old.setup ≡ inside.old.setup }
    ensures setup { inside.new.setup ≡ inside.old.setup }
    ensures same { group.new.setup ≡ group.old.setup }
{
    let Some(drawn) = inside.take_drawn() else {
        return Ok(false);
    };
    let Ok(due) = group.add_drawn(drawn) else {
        return Err(WorkFault::OutOfPlace);
    };
    inside.give_due(due);
    Ok(true)
}

// Hands over what was taken, unless it is better to take more before. Whether it did.
fn share<T: Turns, R: Wait>(
    rt: &R,
    alloc: Global,
    relay: &Relay<T>,
    taker: &mut Taker<T>,
) -> Result<bool, WorkFault>
    requires { IsTakerOf relay.now taker.old }
    ensures { IsTakerOf relay.now taker.new }
{
    let waiting = taker.group.waiting();
    let is_end = taker.group.next().is_none();
    let is_full = is_end || !taker.pace.has_room(waiting);
    let batches = relay.batches.load(Ordering::SeqCst);
    if (waiting == 0 && !is_end) || !taker.pace.may_share(batches, is_full) {
        return Ok(false);
    }
    let waited = taker.pace.take_waited();
    relay.waited.fetch_add(waited, Ordering::SeqCst);
    let Some(mut passed) = relay.board.take(rt, &mut taker.pass) else {
        return Ok(false);
    };
    let put = passed.inside.put(alloc, &mut taker.group);
    let many = passed.inside.batches() as u64;
    relay.batches.store(many, Ordering::SeqCst);
    relay.board.give_back(rt, &mut taker.pass, passed);
    match put {
        Ok(()) => Ok(true),
        Err(NoMemory) => Err(WorkFault::NoMemory),
    }
}

//! What a worker does.
ghost use Rattle.std.specs.Prelude.{◌≡◌};
ghost use Rattle.workers.specs.Crews.{IsOf};

use crate::crew::Worker;
use crate::fault::WorkFault;
use crate::gate::Gate;
use crate::shared::{Shared, looks};
use crate::visiting::visit;
use event_keys::Bound;
use groups::Stop;
use std::alloc::Global;
use std::sync::Wait;
use task_seed::Turns;
use terms::NoMemory;

// Works on a group until the exchange has finished or a fault was noted.
pub(crate) fn work<T: Turns, G: Gate<T>, R: Wait>(
    rt: &R,
    alloc: Global,
    shared: &Shared<T>,
    gate: &G,
    mut worker: Worker<T>,
)
    requires { IsOf T.turn_of shared.now worker }
{
    for _ in rt.forever() {
        if shared.ends.has_ended() {
            break;
        }
        if worker.vigil.keep_back(rt, looks(shared)) {
            continue;
        }
        if go_on(rt, alloc, shared, gate, &mut worker).is_err() {
            shared.ends.note(rt, WorkFault::NoMemory);
            break;
        }
    }
    shared.ends.end();
}

// Runs the group ahead, and visits the exchange where that is due; else it waits, if there was nothing to do.
fn go_on<T: Turns, G: Gate<T>, R: Wait>(
    rt: &R,
    alloc: Global,
    shared: &Shared<T>,
    gate: &G,
    worker: &mut Worker<T>,
) -> Result<(), NoMemory>
    requires { IsOf T.turn_of shared.now worker.old }
    ensures { IsOf T.turn_of shared.now worker.new }
{
    let done = run_on(alloc, shared, gate, worker)?;
    let is_idle = worker.lease.next() == Bound::End;
    worker
        .vigil
        .note(done, is_idle || !worker.lease.may_go_on());
    share(rt, alloc, shared, worker)?;
    worker.vigil.wait(rt);
    Ok(())
}

// Makes ready what is to leave, visits the exchange, and delivers what came, where a visit is due.
fn share<T: Turns, R: Wait>(
    rt: &R,
    alloc: Global,
    shared: &Shared<T>,
    worker: &mut Worker<T>,
) -> Result<(), NoMemory>
    requires { IsOf T.turn_of shared.now worker.old }
    ensures { IsOf T.turn_of shared.now worker.new }
{
    if !is_visit_due(shared, worker) {
        return Ok(());
    }
    worker.lease.pack(alloc)?;
    shared.signals.answer(worker.lease.number());
    visit(rt, alloc, shared, worker)?;
    worker.lease.settle();
    Ok(())
}

// Whether something is to leave, or something came, or the last visit is long ago.
fn is_visit_due<T: Turns>(shared: &Shared<T>, worker: &Worker<T>) -> bool {
    worker.lease.is_sending()
        || shared.signals.is_called(worker.lease.number())
        || worker.vigil.is_visit_due(shared.signals.rises())
}

// Runs the group ahead, while nothing is to leave, nothing has come, and it isn't too far ahead of the others. The answer is how many entries
// were done.
fn run_on<T: Turns, G: Gate<T>>(
    alloc: Global,
    shared: &Shared<T>,
    gate: &G,
    worker: &mut Worker<T>,
) -> Result<u32, NoMemory>
    requires { IsOf T.turn_of shared.now worker.old }
    ensures { IsOf T.turn_of shared.now worker.new }
{
    let mut done: u32 = 0;
    for _ in 0..worker.vigil.slices() {
        if !may_go_on(shared, worker) {
            break;
        }
        let count = ahead(alloc, shared, gate, worker)?;
        done = done.saturating_add(count);
        if count == 0 {
            break;
        }
    }
    Ok(done)
}

// Whether nothing is to leave, nothing has come, and the group isn't too far ahead of the others.
fn may_go_on<T: Turns>(shared: &Shared<T>, worker: &Worker<T>) -> bool {
    let number = worker.lease.number();
    let is_too_far = shared
        .signals
        .stand(number, worker.lease.next(), worker.vigil.leash());
    !is_too_far && !worker.lease.is_sending() && !shared.signals.is_called(number)
}

// Runs the group ahead by a slice, as the gate lets it, and answers how many entries were done. Memory that is refused for the first ends the run.
fn ahead<T: Turns, G: Gate<T>>(
    alloc: Global,
    shared: &Shared<T>,
    gate: &G,
    worker: &mut Worker<T>,
) -> Result<u32, NoMemory>
    requires { IsOf T.turn_of shared.now worker.old }
    ensures { IsOf T.turn_of shared.now worker.new }
{
    let _ = shared;
    let most = worker.vigil.slice();
    let ran = gate.ahead(alloc, &mut worker.lease, most);
    if ran.count == 0 && ran.stop == Stop::NoMemory {
        return Err(NoMemory);
    }
    Ok(ran.count)
}

//! A worker's visits to the exchange.
ghost use Rattle.workers.specs.Crews.{IsOf};

use crate::crew::Worker;
use crate::desk::{Report, meet};
use crate::shared::{Shared, hold};
use std::alloc::Global;
use std::sync::Wait;
use task_seed::Turns;
use terms::NoMemory;

// With the exchange: what was done of the worker's group is shared, and what came for it comes. The number of the turns that a chunk can have
// given is published.
pub(crate) fn visit<T: Turns, R: Wait>(
    rt: &R,
    alloc: Global,
    shared: &Shared<T>,
    worker: &mut Worker<T>,
) -> Result<(), NoMemory>
    requires { IsOf T.turn_of shared.now worker.old }
    ensures { IsOf T.turn_of shared.now worker.new }
{
    let report = Report {
        done: worker.vigil.take_done(),
        waited: worker.vigil.take_waited(),
        leash: worker.vigil.leash(),
        waits: worker.vigil.is_stuck(),
    };
    let mut lent = hold(rt, shared, &mut worker.pass);
    worker.vigil.visit(shared.signals.rises());
    let met = meet(
        alloc,
        &mut *lent.desk,
        &mut worker.lease,
        &shared.signals,
        report,
    );
    let lost = lent.desk.lost;
    let ready = lent.desk.ready.least();
    let has_finished = lent.desk.exchange.finished();
    shared.board.give_back(rt, &mut worker.pass, lent);
    worker.vigil.adapt(report.done, lost);
    worker.vigil.see(ready);
    shared.published.publish(&mut worker.seat, ready);
    if has_finished {
        shared.ends.end();
    }
    met
}
